//! Clauses under a row and values of the existentials.

ghost use Rattle.std.specs.Prelude.{◌≡◌, ◌<◌, ◌+◌, ℕ, true, false, [], length, IfSome, None, slice_index_or};
ghost use Rattle.dq_lits.specs.Literal.{literal_true, clause_true};
ghost use Rattle.hint_log.specs.Naming.{round_assignment};
ghost use Rattle.circuit_cnf.specs.Failing.{IsFalseClause};

use dq_formula::Formula;
use dq_lits::{Lit, Row};

// The number, from 1 on, of the first clause that is false.
pub(crate) fn false_clause(f: &Formula, row: &Row, values: &Row) -> Option<u64>
    requires row_length { length row.now ≡ length f.now.universals }
    requires values_length { length values.now ≡ length f.now.existentials }
    ensures some { IfSome result (IsFalseClause f.now row.now values.now) }
    ensures none { result ≡ None → (j : ℕ) → j < length f.now.matrix
        → clause_true (round_assignment f.now row.now values.now) (slice_index_or f.now.matrix j [])
        ≡ true }
{
    for j in 0..f.clauses() {
        if !is_true(f, row, values, f.clause(j)) {
            return Some(j as u64 + 1);
        }
    }
    None
}

fn is_true(f: &Formula, row: &Row, values: &Row, clause: &[Lit]) -> bool
    requires row_length { length row.now ≡ length f.now.universals }
    requires values_length { length values.now ≡ length f.now.existentials }
    ensures { result ≡ clause_true (round_assignment f.now row.now values.now) clause.now }
{
    clause.iter().any(|l| is_literal_true(f, row, values, *l))
}

fn is_literal_true(f: &Formula, row: &Row, values: &Row, l: Lit) -> bool
    requires row_length { length row.now ≡ length f.now.universals }
    requires values_length { length values.now ≡ length f.now.existentials }
    ensures { result ≡ literal_true (round_assignment f.now row.now values.now) l }
{
    value(f, row, values, l.var()) != l.is_neg()
}

fn value(f: &Formula, row: &Row, values: &Row, v: u64) -> bool
    requires row_length { length row.now ≡ length f.now.universals }
    requires values_length { length values.now ≡ length f.now.existentials }
    ensures { result ≡ round_assignment f.now row.now values.now v }
{
    match (f.universal_place(v), f.existential_place(v)) {
        (Some(i), _) => row.get(i),
        (None, Some(k)) => values.get(k),
        (None, None) => false,
    }
}
