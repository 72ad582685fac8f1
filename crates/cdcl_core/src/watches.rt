//! Lists of clauses by a literal that they are watched at, linked: to put a clause on another list
//! takes no memory.
//!
//! A visit takes a whole list away, and puts its clauses back one by one, on the same list or on
//! others. The list that is visited is put where the others are once, at the end.

ghost use Rattle.std.specs.Prelude.{◌≡◌, ◌≤◌, ◌<◌, ◌+◌, ◌*◌, ◌-◌, ◌^◌, ◌++◌, ◌∷◌, [], ℕ, List, true, false, length, set, slice_index_or, All, OnOk};
ghost use Rattle.dq_lits.specs.Literal.{positive};
ghost use Rattle.cdcl_core.specs.Chains.{watch_at, place_of, IsLinked, HasList, HasNextRoom, FitIds, with_open, IsTaken, AddsLists};

use crate::arenas::make_fit;
use dq_lits::{Lit, Memory};
use learning_trail::Code;
use short_numbers::ShortNumbers;
use std::alloc::Global;

/// One of the two literals that each clause is watched at.
#[derive(Drop)]
pub(crate) struct Watches {
    /// The id of the first clause on each literal's list; 0, where there is none.
    pub(crate) heads: ShortNumbers,
    /// The literal of the clause with id i at place i - 1.
    pub(crate) literals: Vec<Code>,
    /// The id of the clause behind it on its list; 0, where there is none.
    pub(crate) nexts: ShortNumbers,
}

/// No clauses. It takes no memory.
pub(crate) fn no_watches(alloc: Global) -> Watches
    ensures linked { IsLinked result 0 [] }
    ensures literals { result.literals.items ≡ [] }
{
    Watches {
        heads: ShortNumbers::new(alloc),
        literals: Vec::new(alloc),
        nexts: ShortNumbers::new(alloc),
    }
}

/// Makes lists for a variable, so that no clause has to.
pub(crate) fn make_lists(watches: &mut Watches, variable: u64) -> Result<(), Memory>
    requires linked { IsLinked watches.old 0 [] }
    requires in_range { variable < 2 ^ 62 }
    ensures linked { IsLinked watches.new 0 [] }
    ensures more { length watches.old.heads.items ≤ length watches.new.heads.items }
    ensures literals { watches.new.literals ≡ watches.old.literals }
    ensures nexts { watches.new.nexts ≡ watches.old.nexts }
{
    extend(&mut watches.heads, variable as usize * 2 + 2)?;
    Ok(())
}

/// Makes room for one clause more, of these literals, or of the first variable.
pub(crate) fn make_room(watches: &mut Watches, lits: &[Lit]) -> Result<(), Memory>
    requires { IsLinked watches.old 0 [] }
    ensures linked { IsLinked watches.new 0 [] }
    ensures more { length watches.old.heads.items ≤ length watches.new.heads.items }
    ensures literals { watches.new.literals.items ≡ watches.old.literals.items }
    ensures some { OnOk result (HasList watches.new (positive 1)) }
    ensures lists { OnOk result (All (λ l. HasList watches.new l) lits.now) }
    ensures room { OnOk result (HasNextRoom watches.new) }
{
    extend(&mut watches.heads, 3)?;
    add_lists(&mut watches.heads, lits)?;
    watches.literals.reserve(1)?;
    let id = watches.nexts.len() as u64 + 1;
    watches.heads.fit(id)?;
    make_fit(&mut watches.nexts, id)?;
    Ok(())
}

// Lists for the literals' variables, and for all smaller ones.
fn add_lists(heads: &mut ShortNumbers, lits: &[Lit]) -> Result<(), Memory>
    ensures added { AddsLists heads.old heads.new }
    ensures lists { OnOk result (All (λ l. place_of l + 1 ≤ length heads.new.items) lits.now) }
{
    for l in lits {
        extend(heads, l.var() as usize * 2 + 2)?;
    }
    Ok(())
}

fn extend(heads: &mut ShortNumbers, wanted: usize) -> Result<(), Memory>
    ensures added { AddsLists heads.old heads.new }
    ensures lists { OnOk result (wanted ≤ length heads.new.items) }
{
    while heads.len() < wanted {
        heads.reserve()?;
        heads.push(0);
    }
    Ok(())
}

/// One clause more, watched at a literal.
pub(crate) fn add_watch(watches: &mut Watches, l: Code)
    requires linked { IsLinked watches.old 0 [] }
    requires list { HasList watches.old l }
    requires room { HasNextRoom watches.old }
    ensures linked { IsLinked watches.new 0 [] }
    ensures literals { watches.new.literals.items ≡ watches.old.literals.items ++ l ∷ [] }
    ensures lists { length watches.new.heads.items ≡ length watches.old.heads.items }
{
    let place = l.place();
    let next = watches.heads.get(place);
    if watches.literals.push(l).is_err() {
        unreachable!();
    }
    watches.nexts.push(next);
    watches.heads.set(place, watches.nexts.len() as u64);
}

/// A literal's list while its clauses are visited. Its first clause stands here, so that a clause
/// that stays on it writes nothing to the table of lists.
#[derive(Clone, Copy)]
pub(crate) struct OpenList {
    pub(crate) literal: Code,
    pub(crate) first: u64,
}

/// Whether a literal has a list.
pub(crate) fn has_list(watches: &Watches, l: Code) -> bool
    ensures some { result ≡ true → HasList watches.now l }
    ensures none { result ≡ false → length watches.now.heads.items ≤ place_of l }
{
    l.place() < watches.heads.len()
}

/// Whether some clause is on a literal's list.
pub(crate) fn is_watched(watches: &Watches, l: Code) -> bool {
    has_list(watches, l) && watches.heads.get(l.place()) != 0
}

/// The first clause of a literal's list, all of which are left to visit.
pub(crate) fn first_of(watches: &Watches, l: Code) -> u64
    requires linked { IsLinked watches.now 0 [] }
    requires list { HasList watches.now l }
    ensures { IsTaken (with_open watches.now (record { literal = l; first = 0 })) l result }
{
    watches.heads.get(l.place())
}

/// Puts the first of the clauses that are left to visit back on the list that is visited, and gives
/// the next one.
pub(crate) fn put_back(watches: &mut Watches, list: &mut OpenList, id: u64) -> u64
    requires from_one { 1 ≤ id }
    requires is_id { id ≤ length watches.old.nexts.items }
    requires list { HasList watches.old list.old.literal }
    requires fits { FitIds (with_open watches.old list.old) }
    requires watched { watch_at watches.old.literals.items (id - 1) ≡ list.old.literal }
    ensures linked { (rest : List ℕ) → IsLinked (with_open watches.old list.old) id (id ∷ rest)
        → IsLinked (with_open watches.new list.new) result rest }
    ensures literal { list.new.literal ≡ list.old.literal }
    ensures literals { watches.new.literals.items ≡ watches.old.literals.items }
    ensures lists { length watches.new.heads.items ≡ length watches.old.heads.items }
    ensures len { length watches.new.nexts.items ≡ length watches.old.nexts.items }
{
    let next = watches.nexts.replace(id as usize - 1, list.first);
    list.first = id;
    next
}

/// Puts the first of the clauses that are left to visit on another literal's list, and gives the
/// next one.
pub(crate) fn put_elsewhere(watches: &mut Watches, id: u64, l: Code) -> u64
    requires from_one { 1 ≤ id }
    requires is_id { id ≤ length watches.old.nexts.items }
    requires list { HasList watches.old l }
    requires begin { slice_index_or watches.old.heads.items (place_of l) 0 ≤ watches.old.nexts.most }
    requires fits { id ≤ watches.old.heads.most }
    requires count { length watches.old.literals.items ≡ length watches.old.nexts.items }
    ensures linked { (list : OpenList) (rest : List ℕ) → (place_of list.literal ≡ place_of l → ⊥)
        → IsLinked (with_open watches.old list) id (id ∷ rest)
        → IsLinked (with_open watches.new list) result rest }
    ensures literals { watches.new.literals.items ≡ set watches.old.literals.items (id - 1) l }
    ensures lists { length watches.new.heads.items ≡ length watches.old.heads.items }
    ensures len { length watches.new.nexts.items ≡ length watches.old.nexts.items }
{
    let at = id as usize - 1;
    let place = l.place();
    watches.literals[at] = l;
    watches.nexts.rotate(at, &mut watches.heads, place, id)
}

/// Puts a list that was visited where the others are.
pub(crate) fn close(watches: &mut Watches, list: OpenList)
    requires list { HasList watches.old list.literal }
    requires fits { list.first ≤ watches.old.heads.most }
    ensures { watches.new ≡ with_open watches.old list }
{
    watches.heads.set(list.literal.place(), list.first);
}
