//! Rows of the universals, 256 at a time.

ghost use Rattle.std.specs.Prelude.{◌≡◌, ◌==◌, ◌+◌, ◌-◌, ◌<◌, ◌≤◌, ◌^◌, ℕ, Bool, Option, None, Some, true, false, length, slice_index, All};
ghost use Rattle.std.specs.List.{list_all};
ghost use Rattle.dq_lits.specs.Literal.{variable_of, literal_true, clause_true};
ghost use Rattle.circuit_plain.specs.Blocks.{lane_bit, block_bits};
ghost use Rattle.circuit_plain.specs.Netlist.{literal_variable, literal_bit};
ghost use Rattle.circuit_plain.specs.Order.{IsOrder};
ghost use Rattle.skolem_checker.specs.Checks.{IsFirstBad};
ghost use Rattle.skolem_checker.specs.Tables.{HasLiteral, RowTest, circuit_assignment, row_bit};

use crate::tested::Tested;
use circuit_plain::lanes::{both, either};
use circuit_plain::{Block, literal_lanes};
use dq_formula::Formula;
use dq_lits::Lit;
use std::simd::u64x4;

const BLOCK_ROWS: u32 = 256;

// The circuit's literal of a literal of the formula.
fn circuit_literal(l: &Lit, literals: &[u64]) -> u64
    requires { variable_of l.now < length literals.now }
    ensures same_variable { literal_variable result
        ≡ literal_variable (slice_index literals.now (variable_of l.now)) }
    ensures bit { (m : ℕ → Bool)
        → literal_bit m result ≡ literal_true (circuit_assignment literals.now m) l.now }
{
    literals[l.var() as usize] ^ l.is_neg() as u64
}

// Whether a clause has a true literal, where each variable has the bits of its circuit literal.
fn clause_lanes(clause: &[Lit], literals: &[u64], values: &Block) -> u64x4
    requires { All (λ l. HasLiteral literals.now (length values.now) (variable_of l)) clause.now }
    ensures four { length result ≡ 4 }
    ensures bits { (l b : ℕ) → l < 4 → b < 64 → lane_bit result l b
        ≡ clause_true (circuit_assignment literals.now (block_bits values.now l b)) clause.now }
{
    let mut holds = u64x4::splat(0);
    for literal in clause {
        holds = either(
            holds,
            literal_lanes(values, circuit_literal(literal, literals)),
        );
    }
    holds
}

// Whether every clause has one.
fn matrix_lanes(f: &Formula, literals: &[u64], values: &Block) -> u64x4
    requires { All (All (λ l. HasLiteral literals.now (length values.now) (variable_of l)))
        f.now.matrix }
    ensures four { length result ≡ 4 }
    ensures bits { (l b : ℕ) → l < 4 → b < 64 → lane_bit result l b
        ≡ list_all (clause_true (circuit_assignment literals.now (block_bits values.now l b)))
        f.now.matrix }
{
    let mut hold = u64x4::splat(u64::MAX);
    for j in 0..f.clauses() {
        hold = both(hold, clause_lanes(f.clause(j), literals, values));
    }
    hold
}

// Whether no bit of a block's rows is false.
fn are_full(lanes: &[u64]) -> bool
    ensures { result ≡ list_all (λ lane. lane == 2 ^ 64 - 1) lanes.now }
{
    lanes.iter().all(|lane| *lane == u64::MAX)
}

// The first of a block's first rows whose bit is false.
fn first_false(hold: u64x4, count: u32) -> Option<u32>
    requires four { length hold ≡ 4 }
    requires in_block { count ≤ 256 }
    ensures none { result ≡ None → (r : ℕ) → r < count → row_bit hold r ≡ true }
    ensures some { (r : ℕ) → result ≡ Some r → (r < count) × (row_bit hold r ≡ false)
        × ((q : ℕ) → q < r → row_bit hold q ≡ true) }
{
    let lanes = hold.to_array();
    if are_full(&lanes) {
        return None;
    }
    for r in 0..count {
        if (lanes[(r / 64) as usize] >> (r % 64)) % 2 == 0 {
            return Some(r);
        }
    }
    None
}

// How many rows the universals have.
fn count_rows(f: &Formula) -> u32
    requires { length f.now.universals ≤ 20 }
    ensures value { result ≡ 2 ^ length f.now.universals }
    ensures small { result ≤ 2 ^ 20 }
{
    1 << f.universals().len()
}

// How many of a block's rows there are: of fewer than 8 universals a part of them.
fn rows_in_block(rows: u32, first: u32) -> u32
    requires { first ≤ rows }
    ensures in_range { first + result ≤ rows }
    ensures in_block { result ≤ 256 }
    ensures all { (k : ℕ) → k < first + 256 → k < rows → k < first + result }
{
    if rows - first < BLOCK_ROWS {
        return rows - first;
    }
    BLOCK_ROWS
}

/// The number of the first row under which a clause is false.
pub(crate) fn first_bad_row(
    tested: &Tested,
    places: &[usize],
    values: &mut Block,
) -> Result<(), u32>
    requires ordered { IsOrder tested.now.circuit.now tested.now.order.now }
    requires few { length tested.now.formula.now.universals ≤ 20 }
    requires a_place_an_input { length places.now ≡ length tested.now.circuit.now.inputs }
    requires places_fit { All (λ place. place < 20) places.now }
    requires a_value_a_variable { length values.old ≡ tested.now.circuit.now.max_var + 1 }
    requires literals_fit { All (All (λ l. HasLiteral tested.now.literals.now
        (tested.now.circuit.now.max_var + 1) (variable_of l))) tested.now.formula.now.matrix }
    ensures values_length { length values.new ≡ length values.old }
    ensures first { IsFirstBad
        (λ k. RowTest tested.now.formula.now tested.now.circuit.now tested.now.literals.now
        places.now k true)
        (λ k. RowTest tested.now.formula.now tested.now.circuit.now tested.now.literals.now
        places.now k false) (2 ^ length tested.now.formula.now.universals) result }
{
    let rows = count_rows(tested.formula);
    for block in 0..rows.div_ceil(BLOCK_ROWS) {
        let first = BLOCK_ROWS * block;
        tested
            .circuit
            .eval_block_by(tested.order, places, first as u64, values);
        let hold = matrix_lanes(tested.formula, tested.literals, values);
        if let Some(row) = first_false(hold, rows_in_block(rows, first)) {
            return Err(first + row);
        }
    }
    Ok(())
}
