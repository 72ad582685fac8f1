//! Lines that are judged one by one, on the names of their pairs.

ghost use Rattle.std.specs.Prelude.{◌≡◌, ◌<◌, ◌≤◌, ◌^◌, ◌/◌, ◌%◌, ◌++◌, ◌∷◌, ℕ, [], true, false, map, List, All, None, Some, length, slice_index_or, IfOk, IfSome, OnOk, IsSome};
ghost use Rattle.std.specs.Option.{option_and_then};
ghost use Rattle.dq_lits.specs.Expansion.{instance_at, universal_literal_true};
ghost use Rattle.dq_lits.specs.Formula.{existential_of};
ghost use Rattle.dq_lits.specs.Literal.{Literal, variable_of, on_variable};
ghost use Rattle.cert_text.specs.Pairs.{is_pair_number};
ghost use Rattle.rup_core.specs.Judging.{Hinted, derive_line, is_derived_by, no_line};
ghost use Rattle.refutation_checker.specs.Rows.{row_of};
ghost use Rattle.refutation_checker.specs.Bindings.{binding_at};
ghost use Rattle.refutation_checker.specs.declared.bindings.Binding.TheVariants.{Universal};
ghost use Rattle.refutation_checker.specs.Namings.{Names, Extends};
ghost use Rattle.refutation_checker.specs.PairNames.{frame, names_in, IsFrame, AreNames};
ghost use Rattle.refutation_checker.specs.Pairs.{pair_of};
ghost use Rattle.refutation_checker.specs.Judging.{IsNamed, AreNamed, IsRead, IsClause, clause_under, AreLines, AreBehind, HintsLeft, IsHeld, IsJudged, named_clause, clauses_with, is_line, normal_literals};

use crate::bindings::Binding;
use crate::pair_names::{Expansion, PairNames};
use dq_lits::{Lit, Memory};
use rup_core::Proving;
use std::alloc::Global;

// Marks that there may always be, and how many more for each literal and hint that was read, so
// that memory follows the lines.
const FEW_MARKS: usize = 1 << 16;

const MARKS_A_READ: usize = 32;

// How many pairs a hint is expected to name, so that a long line finds marks for what it names.
const NAMES_A_HINT: usize = 4;

// A literal of another variable with the same sign.
#[inline(always)]
fn on(l: Lit, variable: u64) -> Lit
    requires from_one { 1 ≤ variable }
    requires in_range { variable < 2 ^ 62 }
    ensures { result ≡ on_variable variable l }
{
    if l.is_neg() {
        Lit::neg(variable)
    } else {
        Lit::pos(variable)
    }
}

// A literal on the name of the pair of an existential and the row at `k`. It is what a hint costs,
// so that it stands where it is called.
#[inline(always)]
fn name(e: &Expansion, names: &mut PairNames, l: Lit, y: u64, k: usize) -> Result<Lit, Memory>
    requires frame { IsFrame (frame e.now) }
    requires names { AreNames (frame e.now) names.old }
    requires declared { IsSome (existential_of (frame e.now).formula y) }
    requires row { k < length (frame e.now).rows }
    ensures names { AreNames (frame e.now) names.new }
    ensures extends { Extends (frame e.now) (names_in names.old) (names_in names.new) }
    ensures named { IfOk result (IsNamed (frame e.now) (names_in names.new)
        (pair_of (frame e.now).formula (frame e.now).rows (row_of (frame e.now).rows k) y) l) }
{
    match e.bindings.get(y) {
        Binding::Existential { set, place } => {
            let base = names.base(e, set as usize, k)?;
            Ok(on(l, base + place as u64))
        }
        Binding::Universal { .. } | Binding::Free => unreachable!(),
    }
}

// Reads one more literal of a clause under the row at `k`: whether it is a universal literal that
// is true. An existential literal is put on the name of its pair.
#[inline(always)]
fn read_literal(
    e: &Expansion,
    names: &mut PairNames,
    k: usize,
    l: Lit,
    clause: &mut Vec<Lit>,
) -> Result<bool, Memory>
    requires frame { IsFrame (frame e.now) }
    requires names { AreNames (frame e.now) names.old }
    requires row { k < length (frame e.now).rows }
    ensures names { AreNames (frame e.now) names.new }
    ensures extends { Extends (frame e.now) (names_in names.old) (names_in names.new) }
    ensures read { IfOk result (IsRead (frame e.now) (names_in names.new)
        (row_of (frame e.now).rows k) l clause.old.items clause.new.items) }
{
    let y = l.var();
    match e.bindings.get(y) {
        Binding::Universal { place } => Ok(is_true_at(e, k, place, l)),
        Binding::Existential { .. } => {
            let named = name(e, names, l, y, k)?;
            clause.push(named)?;
            Ok(false)
        }
        Binding::Free => Ok(is_true_universal(e, k, l)),
    }
}

// Whether a literal of the universal at a place is true under the row at `k`.
fn is_true_at(e: &Expansion, k: usize, place: u32, l: Lit) -> bool
    requires frame { IsFrame (frame e.now) }
    requires row { k < length (frame e.now).rows }
    requires bound { binding_at (frame e.now).bindings (variable_of l) ≡ Universal place }
    ensures { result
        ≡ universal_literal_true (frame e.now).formula (row_of (frame e.now).rows k) l }
{
    let row = &e.rows[k];
    row.get(place as usize) != l.is_neg()
}

// The same of any literal, whatever the table tells.
fn is_true_universal(e: &Expansion, k: usize, l: Lit) -> bool
    requires frame { IsFrame (frame e.now) }
    requires row { k < length (frame e.now).rows }
    ensures { result
        ≡ universal_literal_true (frame e.now).formula (row_of (frame e.now).rows k) l }
{
    let row = &e.rows[k];
    e.formula.has_true_universal(row, &[l])
}

// Puts the clause at `j` under the row at `k` on the names of its pairs, if there is one: if no
// universal literal is true.
fn read_clause(
    e: &Expansion,
    names: &mut PairNames,
    k: usize,
    j: usize,
    clause: &mut Vec<Lit>,
) -> Result<bool, Memory>
    requires frame { IsFrame (frame e.now) }
    requires names { AreNames (frame e.now) names.old }
    requires row { k < length (frame e.now).rows }
    requires clause { j < length (frame e.now).formula.matrix }
    ensures names { AreNames (frame e.now) names.new }
    ensures extends { Extends (frame e.now) (names_in names.old) (names_in names.new) }
    ensures read { IfOk result (IsClause (frame e.now) (names_in names.new)
        (clause_under (frame e.now) (k, j)) clause.new.items) }
{
    clause.clear();
    for l in e.formula.clause(j) {
        let is_true = read_literal(e, names, k, *l, clause)?;
        if is_true {
            return Ok(false);
        }
    }
    Ok(true)
}

// The row of a pair and its existential, both from 0, by the pair's number from 0. Pairs of the
// first row cost no division, which takes as long as the reading of a literal.
#[inline(always)]
#[tactic(auto, using(cert_text::proofs::PairNumbers::first_row, cert_text::proofs::PairNumbers::first_place))]
fn row_and_place(place: u64, variables: u64) -> (u64, u64)
    requires { 1 ≤ variables }
    ensures row { result.0 ≡ place / variables }
    ensures place { result.1 ≡ place % variables }
{
    if place < variables {
        return (0, place);
    }
    (place / variables, place % variables)
}

// Puts the literals of a line on the names of their pairs.
fn name_line(
    e: &Expansion,
    names: &mut PairNames,
    lits: &[Lit],
    line: &mut Vec<Lit>,
) -> Result<(), Memory>
    requires frame { IsFrame (frame e.now) }
    requires names { AreNames (frame e.now) names.old }
    requires pairs { All (λ l. is_pair_number (frame e.now).formula (length (frame e.now).rows)
        (variable_of l) ≡ true) lits.now }
    ensures names { AreNames (frame e.now) names.new }
    ensures extends { Extends (frame e.now) (names_in names.old) (names_in names.new) }
    ensures named { OnOk result (AreNamed (frame e.now) (names_in names.new)
        (normal_literals (frame e.now) lits.now) line.new.items) }
{
    line.clear();
    for l in lits {
        let number = l.var();
        let at = row_and_place(number - 1, e.formula.vars());
        let named = name(e, names, *l, at.1 + 1, at.0 as usize)?;
        line.push(named)?;
    }
    Ok(())
}

/// A refutation that is judged line by line.
#[derive(Drop)]
pub(crate) struct Judging {
    pub names: PairNames,
    pub proving: Proving,
    // A line, and an instance that it hints.
    line: Vec<Lit>,
    clause: Vec<Lit>,
    // How many literals and hints were read.
    read: usize,
    // How many names have a mark at hand.
    marks: usize,
}

// The places of the row and the clause whose instance has an id.
#[tactic(auto, using(crate::proofs::InstanceIds::behind_all))]
fn instance_places(e: &Expansion, id: u64) -> Option<(usize, usize)>
    ensures within { IfSome result (λ at. (at.0 < length (frame e.now).rows)
        × (at.1 < length (frame e.now).formula.matrix)) }
    ensures clause { instance_at (frame e.now).formula (frame e.now).rows id
        ≡ option_and_then (clause_under (frame e.now)) result }
{
    let clauses = e.formula.clauses() as u64;
    if id == 0 || clauses == 0 {
        return None;
    }
    // Most hints are lines, which stand behind the instances. They cost no division.
    if id > (e.rows.len() as u64).saturating_mul(clauses) {
        return None;
    }
    let k = (id - 1) / clauses;
    if k < e.rows.len() as u64 {
        Some((k as usize, ((id - 1) % clauses) as usize))
    } else {
        None
    }
}

impl Judging {
    /// Nothing is judged.
    pub(crate) fn new(alloc: Global, e: &Expansion) -> Result<Judging, Memory>
        requires { IsFrame (frame e.now) }
        ensures names { IfOk result (λ j. AreNames (frame e.now) j.names) }
        ensures proving { IfOk result (λ j. j.proving ≡ record {
          finished = false;
          lines = [];
          fault = None;
          marks = 0;
          line = no_line;
        }) }
    {
        Ok(Judging {
            names: PairNames::new(alloc, e)?,
            proving: Proving::new(alloc, 0)?,
            line: Vec::new(alloc),
            clause: Vec::new(alloc),
            read: 0,
            marks: 0,
        })
    }

    // The line's next hint.
    fn hint(&mut self, e: &Expansion, id: u64) -> Result<(), Memory>
        requires frame { IsFrame (frame e.now) }
        requires names { AreNames (frame e.now) self.old.names }
        ensures names { AreNames (frame e.now) self.new.names }
        ensures extends { Extends (frame e.now) (names_in self.old.names)
            (names_in self.new.names) }
        ensures rest { self.new.proving ≡ record self.old.proving { line = self.new.proving.line } }
        ensures line { self.new.line.items ≡ self.old.line.items }
        ensures judged { OnOk result ((lines : List (ℕ × List Literal)) (m : Names)
            → AreLines (frame e.now) (names_in self.old.names) lines self.old.proving.lines
            → AreBehind (frame e.now) lines
            → Extends (frame e.now) (names_in self.new.names) m
            → (clauses : Hinted) → is_derived_by self.new.proving.line clauses
            ≡ is_derived_by self.old.proving.line
            (named_clause (frame e.now) m lines id ∷ clauses)) }
    {
        let Some(at) = instance_places(e, id) else {
            self.proving.hint_line(id)?;
            return Ok(());
        };
        let is_clause = read_clause(e, &mut self.names, at.0, at.1, &mut self.clause)?;
        if !is_clause {
            self.proving.hint_line(id)?;
            return Ok(());
        }
        self.proving.hint(&self.clause)?;
        Ok(())
    }

    // All hints of a line, or those up to one that is at fault.
    fn hint_all(&mut self, e: &Expansion, hints: &[u64]) -> Result<(), Memory>
        requires frame { IsFrame (frame e.now) }
        requires names { AreNames (frame e.now) self.old.names }
        ensures names { AreNames (frame e.now) self.new.names }
        ensures extends { Extends (frame e.now) (names_in self.old.names)
            (names_in self.new.names) }
        ensures rest { self.new.proving ≡ record self.old.proving { line = self.new.proving.line } }
        ensures line { self.new.line.items ≡ self.old.line.items }
        ensures judged { OnOk result ((lines : List (ℕ × List Literal)) (literals : List Literal)
            → AreLines (frame e.now) (names_in self.old.names) lines self.old.proving.lines
            → AreBehind (frame e.now) lines
            → HintsLeft (frame e.now) (names_in self.old.names) lines literals hints.now
            self.old.proving.line 0
            → is_derived_by self.new.proving.line []
            ≡ derive_line literals (map (clauses_with (frame e.now) lines) hints.now)) }
    {
        for id in hints {
            self.hint(e, *id)?;
            if self.proving.is_faulty() {
                return Ok(());
            }
        }
        Ok(())
    }

    // Marks for the names that were given, unless these are many beside what was read.
    fn widen(&mut self, hints: usize) -> Result<(), Memory>
        ensures names { self.new.names ≡ self.old.names }
        ensures line { self.new.line.items ≡ self.old.line.items }
        ensures rest { self.new.proving ≡ record self.old.proving {
          marks = self.new.proving.marks;
          line = self.new.proving.line;
        } }
    {
        let names = self.names.count();
        let expected = names.saturating_add(hints.saturating_mul(NAMES_A_HINT));
        if expected > self.marks {
            let most = FEW_MARKS.saturating_add(self.read.saturating_mul(MARKS_A_READ));
            let wanted = names.saturating_add(expected).min(most);
            if wanted > self.marks {
                self.proving.widen(wanted)?;
                self.marks = wanted;
            }
        }
        Ok(())
    }

    /// Judges a line.
    pub(crate) fn judge(
        &mut self,
        e: &Expansion,
        id: u64,
        lits: &[Lit],
        hints: &[u64],
    ) -> Result<(), Memory>
        requires frame { IsFrame (frame e.now) }
        requires names { AreNames (frame e.now) self.old.names }
        requires pairs { All (λ l. is_pair_number (frame e.now).formula
            (length (frame e.now).rows) (variable_of l) ≡ true) lits.now }
        requires from_one { 1 ≤ id }
        requires above { All (λ line. line.0 < id) self.old.proving.lines }
        ensures names { AreNames (frame e.now) self.new.names }
        ensures judged { OnOk result ((lines : List (ℕ × List Literal))
            → IsHeld (frame e.now) (names_in self.old.names) lines self.old.proving
            → AreBehind (frame e.now) lines
            → IsJudged (frame e.now) (names_in self.new.names) lines id lits.now self.new.proving
            (is_line (frame e.now) lines lits.now hints.now)) }
    {
        name_line(e, &mut self.names, lits, &mut self.line)?;
        self.read = self
            .read
            .saturating_add(lits.len())
            .saturating_add(hints.len());
        self.widen(hints.len())?;
        self.proving.begin(&self.line)?;
        self.hint_all(e, hints)?;
        self.proving.end(id, &self.line)?;
        Ok(())
    }
}
