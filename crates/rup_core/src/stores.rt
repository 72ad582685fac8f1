//! Lines that are held, by their ids.
//!
//! A look-up touches memory as often as in a flat list. Ids are asked to be above those held, and
//! begin at 1, so that no count of lines passes the end of its type.

ghost use Rattle.std.specs.Prelude.{◌≡◌, ◌<◌, ◌≤◌, ◌+◌, ◌*◌, ◌^◌, ◌==◌, ◌++◌, ◌∷◌, ℕ, [], All, Some, None, length, not, OnOk, OnErr, MatchOption, IsSome, is_some};
ghost use Rattle.std.specs.List.{filter};
ghost use Rattle.rup_core.specs.Lines.{clause_of_id};
ghost use Rattle.rup_core.specs.Paging.{clause_among, AreSameClauses, AreSamePages, Sets, stored_lines};

use crate::pages::Page;
use dq_lits::{Lit, Memory};
use std::alloc::Global;
use std::marker::Model;

/// How many ids there are to a page.
pub(crate) const PAGE: usize = 256;

// The last page is laid anew only where so many literals are gone. Where each line goes as soon as
// the next one is there, it would else be laid anew every few lines.
const LAST_PAGE_SPARE: usize = 1024;

/// Lines that are held, by their ids.
///
/// Ids lie in pages, and a page keeps the literals of its clauses end to end. It lays them anew
/// where more than half of its literals belong to clauses that are gone, and these are as many as
/// its ids, so that the work is paid by what is gone; the last page, where lines are still to come,
/// waits until they are 1024. With its last clause a page gives all its memory back, unless lines
/// are still to come there, for which it keeps it. So memory follows the literals of the clauses
/// that there are, three words for each id of their pages, one of them for literals that are gone,
/// two bits for each id of the other pages, and 1024 literals. A list that has just grown takes up
/// to twice its part.
#[derive(Drop)]
pub struct Store {
    pages: Vec<Page>,
    // The id of the first place.
    first: u64,
    count: usize,
}

impl Model for Store {
    ghost use Rattle.std.specs.Prelude.{ℕ, List};
    ghost use Rattle.dq_lits.specs.Literal.{Literal};

    ghost Value = { List (ℕ × List Literal) };

    ghost use Rattle.rup_core.specs.StoreInside.{lines_in, IsStore};

    ghost view = { lines_in };

    ghost invariant = { IsStore };
}

// The clause at a place.
fn clause_at(pages: &[Page], place: usize) -> Option<&[Lit]>
    ensures { MatchOption result (clause_among pages.now place ≡ None)
        (λ lits. clause_among pages.now place ≡ Some lits.now) }
{
    let page = place / PAGE;
    if page < pages.len() {
        pages[page].get(place % PAGE)
    } else {
        None
    }
}

fn has_clause(pages: &[Page], place: usize) -> bool
    ensures { result ≡ is_some (clause_among pages.now place) }
{
    clause_at(pages, place).is_some()
}

// Makes the pages hold one more, and those before it.
#[inline(always)]
fn reach_page(pages: &mut Vec<Page>, page: usize) -> Result<(), Memory>
    requires { page < 2 ^ 63 }
    ensures within { OnOk result (page < length pages.new.items) }
    ensures same { AreSameClauses (clause_among pages.old.items) (clause_among pages.new.items) }
{
    let count = pages.len();
    if page < count {
        return Ok(());
    }
    if count > 0 {
        leave(pages, count - 1);
    }
    add_pages(pages, page - count + 1)
}

// Adds pages behind the others.
#[inline(never)]
fn add_pages(pages: &mut Vec<Page>, missing: usize) -> Result<(), Memory>
    ensures longer { OnOk result
        (length pages.new.items ≡ length pages.old.items + missing) }
    ensures same { AreSamePages pages.old.items pages.new.items }
{
    let alloc = *pages.allocator();
    pages.reserve(missing)?;
    for _ in 0..missing {
        pages.push(Page::new(alloc))?;
    }
    Ok(())
}

// Takes less memory for a page where no line is to come any more.
#[inline(never)]
fn leave(pages: &mut Vec<Page>, page: usize)
    requires { page < length pages.old.items }
    ensures same { AreSameClauses (clause_among pages.old.items) (clause_among pages.new.items) }
    ensures as_many { length pages.new.items ≡ length pages.old.items }
{
    pages[page].settle(0);
    give_back(pages, page);
}

// Gives a page's memory back where its clauses are all gone.
#[inline(never)]
fn give_back(pages: &mut Vec<Page>, page: usize)
    requires { page < length pages.old.items }
    ensures same { AreSameClauses (clause_among pages.old.items) (clause_among pages.new.items) }
    ensures as_many { length pages.new.items ≡ length pages.old.items }
{
    pages[page].give_back();
}

// Puts a clause at a place that has none.
#[inline(always)]
fn put_at(pages: &mut Vec<Page>, place: usize, lits: &[Lit]) -> Result<(), Memory>
    requires { clause_among pages.old.items place ≡ None }
    ensures ok { OnOk result
        (Sets (clause_among pages.old.items) (clause_among pages.new.items) place (Some lits.now)) }
    ensures within { OnOk result (place < length pages.new.items * PAGE) }
    ensures err { OnErr result
        (AreSameClauses (clause_among pages.old.items) (clause_among pages.new.items)) }
{
    let page = place / PAGE;
    reach_page(pages, page)?;
    pages[page].put(place % PAGE, lits)
}

// The id of the first place, where a line with this id is to be put behind the others: the pages
// begin anew where there are none, or no line can have been put yet behind those that are gone.
#[inline(always)]
fn begin(pages: &mut Vec<Page>, first: u64, id: u64) -> u64
    requires from_one { (1 ≤ first) × (1 ≤ id) }
    requires above { All (λ line. line.0 < id) (stored_lines first pages.old.items) }
    ensures from_one { 1 ≤ result }
    ensures up_to { result ≤ id }
    ensures same { stored_lines result pages.new.items ≡ stored_lines first pages.old.items }
{
    if pages.is_empty() {
        return id;
    }
    if id < first {
        pages.clear();
        return id;
    }
    first
}

// Takes the clause at a place away. The last page keeps its memory, since lines are to come there.
fn remove_at(pages: &mut Vec<Page>, place: usize)
    requires { IsSome (clause_among pages.old.items place) }
    ensures sets { Sets (clause_among pages.old.items) (clause_among pages.new.items) place None }
    ensures as_many { length pages.new.items ≡ length pages.old.items }
{
    let page = place / PAGE;
    if page + 1 < pages.len() {
        forget_at(pages, place, 0);
        give_back(pages, page);
    } else {
        forget_at(pages, place, LAST_PAGE_SPARE);
    }
}

fn forget_at(pages: &mut Vec<Page>, place: usize, spare: usize)
    requires { IsSome (clause_among pages.old.items place) }
    ensures sets { Sets (clause_among pages.old.items) (clause_among pages.new.items) place None }
    ensures as_many { length pages.new.items ≡ length pages.old.items }
{
    pages[place / PAGE].remove(place % PAGE, spare);
}

impl Store {
    /// No line. It takes no memory.
    pub fn new(alloc: Global) -> Store
        ensures { result ≡ [] }
    {
        Store {
            pages: Vec::new(alloc),
            first: 1,
            count: 0,
        }
    }

    /// How many lines there are.
    pub fn len(&self) -> usize
        ensures { result ≡ length self.now }
    {
        self.count
    }

    /// The clause that an id has.
    pub fn get(&self, id: u64) -> Option<&[Lit]>
        ensures { MatchOption result (clause_of_id self.now id ≡ None)
            (λ lits. clause_of_id self.now id ≡ Some lits.now) }
    {
        if id < self.first {
            return None;
        }
        clause_at(&self.pages, (id - self.first) as usize)
    }

    /// Puts a line behind the others. Ids from 1 on are to come in ascending order, but for those
    /// that are gone; time and memory also follow the ids that are left out, at a small part of a
    /// line's price. The only error is want of memory, and then nothing changed.
    #[inline(always)]
    pub fn put(&mut self, id: u64, lits: &[Lit]) -> Result<(), Memory>
        requires from_one { 1 ≤ id }
        requires above { All (λ line. line.0 < id) self.old }
        ensures ok { OnOk result (self.new ≡ self.old ++ (id, lits.now) ∷ []) }
        ensures err { OnErr result (self.new ≡ self.old) }
    {
        self.first = begin(&mut self.pages, self.first, id);
        put_at(&mut self.pages, (id - self.first) as usize, lits)?;
        self.count += 1;
        Ok(())
    }

    /// Takes the line with an id away, if there is one.
    pub fn gone(&mut self, id: u64)
        ensures { self.new ≡ filter (λ line. not (line.0 == id)) self.old }
    {
        if id < self.first {
            return;
        }
        let place = (id - self.first) as usize;
        if has_clause(&self.pages, place) {
            remove_at(&mut self.pages, place);
            self.count -= 1;
        }
    }
}
