//! Rows that are tried before any question: one at which a formula is false by a clause without
//! existential literals, or any row where no clause has a universal.
//!
//! Candidates are evaluated at such a row first, so that it takes the way of every failing row.

ghost use Rattle.std.specs.Prelude.{◌≡◌, length};

use dq_formula::Formula;
use dq_lits::{Lit, Memory, Row};
use std::alloc::Global;

// Any row, where no clause has a universal: a model of the clauses there decides the formula, so that
// questions for definitions would tell nothing. Else a row at which some clause of universals alone is
// false.
pub(crate) fn find_first_row(alloc: Global, f: &Formula) -> Result<Option<Row>, Memory> {
    if (0..f.clauses()).all(|j| has_existentials_alone(f, f.clause(j))) {
        let row = Row::new(alloc, f.universals().len())?;
        return Ok(Some(row));
    }
    find_false_row(alloc, f)
}

// A row under which the first clause of universals alone that can be false is false. It passes once
// over the matrix, so that a verdict that needs no search doesn't wait for one. No contract speaks
// of it: who uses the row tests it.
pub(crate) fn find_false_row(alloc: Global, f: &Formula) -> Result<Option<Row>, Memory> {
    let mut row = Row::new(alloc, f.universals().len())?;
    for j in 0..f.clauses() {
        let clause = f.clause(j);
        if has_universals_alone(f, clause) {
            write_negated(f, clause, true, &mut row);
            if !f.has_true_universal(&row, clause) {
                return Ok(Some(row));
            }
            write_negated(f, clause, false, &mut row);
        }
    }
    Ok(None)
}

fn has_existentials_alone(f: &Formula, clause: &[Lit]) -> bool {
    !clause.iter().any(|l| f.is_universal(l.var()))
}

fn has_universals_alone(f: &Formula, clause: &[Lit]) -> bool {
    clause.iter().all(|l| f.is_universal(l.var()))
}

// Writes a bit at the universals that stand negated in a clause.
fn write_negated(f: &Formula, clause: &[Lit], bit: bool, row: &mut Row)
    requires { length row.old ≡ length f.now.universals }
    ensures { length row.new ≡ length row.old }
{
    for l in clause {
        if l.is_neg() {
            write(f, l.var(), bit, row);
        }
    }
}

fn write(f: &Formula, v: u64, bit: bool, row: &mut Row)
    requires { length row.old ≡ length f.now.universals }
    ensures { length row.new ≡ length row.old }
{
    if let Some(place) = f.universal_place(v) {
        row.set(place, bit);
    }
}
