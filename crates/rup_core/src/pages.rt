//! Clauses by their places in a page, some of them gone.
//!
//! A page has 256 ids: with fewer more is paid where no line stays, with more where a few lines
//! stay in many pages. It packs its literals into new memory once those that are gone are more than
//! the live ones, as many as the page's ids, and as many as the caller says, so that no clause moves
//! in place and a refusal leaves the page as it is.

ghost use Rattle.std.specs.Prelude.{◌≡◌, ◌<◌, ◌++◌, ◌^◌, ℕ, [], length, slice_set, Some, None, IfOk, OnOk, OnErr, MatchOption, IsSome};
ghost use Rattle.rup_core.specs.Paging.{clause_at, AreSameClauses, Sets};
ghost use Rattle.rup_core.specs.Spans.{AreSameSpans, gone_span, written_span};

use dq_lits::{Lit, Memory};
use std::alloc::Global;
use std::marker::Model;

/// Where a clause lies among the literals of its page. The start of one that is gone lies behind
/// its end.
#[derive(Clone, Copy)]
pub(crate) struct Span {
    start: usize,
    end: usize,
}

const GONE: Span = Span { start: 1, end: 0 };

/// Clauses by their places, their literals end to end.
#[derive(Drop)]
pub(crate) struct Page {
    spans: Vec<Span>,
    literals: Vec<Lit>,
    // How many clauses there are.
    live: usize,
    // How many literals belong to clauses that are gone.
    dead: usize,
}

impl Model for Page {
    ghost use Rattle.rup_core.specs.Paging.{Clauses};

    ghost Value = { Clauses };

    ghost use Rattle.rup_core.specs.PageInside.{clauses_in, IsPage};

    ghost view = { clauses_in };

    ghost invariant = { IsPage };
}

// Makes room for the span of a place.
#[inline(always)]
fn reach(spans: &mut Vec<Span>, place: usize) -> Result<(), Memory>
    requires { place < 2 ^ 63 }
    ensures within { OnOk result (place < length spans.new.items) }
    ensures same { AreSameSpans spans.old.items spans.new.items }
    ensures err { OnErr result (spans.new.items ≡ spans.old.items) }
{
    let count = spans.len();
    if place == count {
        // The usual case, and the cheaper one.
        spans.push(GONE)?;
        return Ok(());
    }
    if count < place {
        spans.resize(place + 1, GONE)?;
    }
    Ok(())
}

// Writes a clause behind the others, and its span.
#[inline(always)]
fn write(
    spans: &mut Vec<Span>,
    literals: &mut Vec<Lit>,
    place: usize,
    lits: &[Lit],
) -> Result<(), Memory>
    requires { place < length spans.old.items }
    ensures literals { OnOk result (literals.new.items ≡ literals.old.items ++ lits.now) }
    ensures span { OnOk result (spans.new.items ≡ slice_set spans.old.items place
        (written_span literals.old.items literals.new.items)) }
    ensures err { OnErr result
        ((spans.new.items ≡ spans.old.items) × (literals.new.items ≡ literals.old.items)) }
{
    let start = literals.len();
    literals.extend_from_slice(lits)?;
    let end = literals.len();
    spans[place] = Span { start, end };
    Ok(())
}

// Takes the span of a clause away, and answers how many literals it had.
fn erase(spans: &mut Vec<Span>, place: usize) -> usize
    requires { place < length spans.old.items }
    ensures { spans.new.items ≡ slice_set spans.old.items place gone_span }
{
    let span = spans[place];
    spans[place] = GONE;
    span.end.saturating_sub(span.start)
}

impl Page {
    /// No clause. It takes no memory.
    pub(crate) fn new(alloc: Global) -> Page
        ensures { result ≡ [] }
    {
        Page {
            spans: Vec::new(alloc),
            literals: Vec::new(alloc),
            live: 0,
            dead: 0,
        }
    }

    /// The clause at a place.
    pub(crate) fn get(&self, place: usize) -> Option<&[Lit]>
        ensures { MatchOption result (clause_at self.now place ≡ None)
            (λ lits. clause_at self.now place ≡ Some lits.now) }
    {
        if self.spans.len() <= place {
            return None;
        }
        let span = self.spans[place];
        if span.start <= span.end {
            Some(&self.literals[span.start..span.end])
        } else {
            None
        }
    }

    /// Puts a clause at a place that has none.
    #[inline(always)]
    pub(crate) fn put(&mut self, place: usize, lits: &[Lit]) -> Result<(), Memory>
        requires free { clause_at self.old place ≡ None }
        requires within { place < 2 ^ 63 }
        ensures ok { OnOk result
            (Sets (clause_at self.old) (clause_at self.new) place (Some lits.now)) }
        ensures err { OnErr result (AreSameClauses (clause_at self.old) (clause_at self.new)) }
    {
        reach(&mut self.spans, place)?;
        write(&mut self.spans, &mut self.literals, place, lits)?;
        self.live += 1;
        Ok(())
    }

    /// Takes the clause at a place away, and lays the others anew where that is paid by those that
    /// are gone, which are at least `spare` literals then.
    pub(crate) fn remove(&mut self, place: usize, spare: usize)
        requires { IsSome (clause_at self.old place) }
        ensures { Sets (clause_at self.old) (clause_at self.new) place None }
    {
        self.forget(place);
        self.settle(spare);
    }

    /// Lays the clauses anew where that is paid by at least `spare` literals that are gone.
    #[inline(always)]
    pub(crate) fn settle(&mut self, spare: usize)
        ensures { AreSameClauses (clause_at self.old) (clause_at self.new) }
    {
        if self.is_worn(spare) {
            self.pack();
        }
    }

    /// Gives all memory back where every clause is gone.
    pub(crate) fn give_back(&mut self)
        ensures { AreSameClauses (clause_at self.old) (clause_at self.new) }
    {
        if self.live == 0 {
            let alloc = *self.spans.allocator();
            *self = Page::new(alloc);
        }
    }

    // Takes the clause at a place away.
    fn forget(&mut self, place: usize)
        requires { IsSome (clause_at self.old place) }
        ensures { Sets (clause_at self.old) (clause_at self.new) place None }
    {
        let size = erase(&mut self.spans, place);
        self.dead = self.dead.saturating_add(size);
        self.live -= 1;
    }

    // Whether a pass over the clauses is paid by those that are gone since the last one, which have
    // at least `spare` literals.
    fn is_worn(&self, spare: usize) -> bool {
        self.dead > self.literals.len() / 2 && self.dead >= self.spans.len() && self.dead >= spare
    }

    // Lays the clauses end to end anew. Where that takes more memory than there is, they stay. Where
    // all are gone, the memory stays for those that are to come.
    fn pack(&mut self)
        ensures { AreSameClauses (clause_at self.old) (clause_at self.new) }
    {
        if self.live == 0 {
            self.spans.clear();
            self.literals.clear();
            self.dead = 0;
        } else if let Ok(page) = self.packed() {
            *self = page;
        }
    }

    // A page of the same clauses, without literals of those that are gone.
    #[inline(never)]
    fn packed(&self) -> Result<Page, Memory>
        ensures { IfOk result (λ page. AreSameClauses (clause_at self.now) (clause_at page)) }
    {
        let mut page = Page::new(*self.spans.allocator());
        for place in 0..self.spans.len() {
            if let Some(lits) = self.get(place) {
                page.put(place, lits)?;
            }
        }
        Ok(page)
    }
}
