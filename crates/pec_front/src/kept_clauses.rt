//! Clauses over literals as in AIGER, where 0 is false and 1 is true, as clauses of a formula.

ghost use Rattle.std.specs.Prelude.{◌≡◌, ◌≢◌, ◌+◌, ◌*◌, ◌<◌, ◌≤◌, ◌++◌, ◌∷◌, [], length, OnOk};
ghost use Rattle.std.specs.List.{list_any};
ghost use Rattle.cert_text.specs.NegatedMatrix.{as_literal, opposite_of, gate_clauses};
ghost use Rattle.circuit_plain.specs.Netlist.{literal_variable};
ghost use Rattle.circuit_plain.specs.declared.circuits.Gate.{Gate};
ghost use Rattle.dq_lits.specs.Literal.{same_literal};
ghost use Rattle.dqdimacs_reader.specs.Building.{add_literal};
ghost use Rattle.dq_formula.specs.declared.formula.TheConstants.{MAX_CLAUSES};
ghost use Rattle.pec_front.specs.Encoding.{agreement_clauses};
ghost use Rattle.pec_front.specs.Kept.{kept, AreWithin};

use circuit_plain::Gate;
use dq_formula::{Formula, MAX_CLAUSES};
use dq_lits::{Lit, Memory};

fn as_literal(literal: u64) -> Lit
    requires no_constant { 2 ≤ literal }
    requires in_range { literal ≤ 9223372036854775807 }
    ensures { result ≡ as_literal literal }
{
    if literal % 2 == 1 {
        Lit::neg(literal / 2)
    } else {
        Lit::pos(literal / 2)
    }
}

/// The opposite of a literal.
pub(crate) fn opposite_of(literal: u64) -> u64
    requires { literal ≤ 9223372036854775807 }
    ensures value { result ≡ opposite_of literal }
    ensures variable { literal_variable result ≡ literal_variable literal }
    ensures in_range { result ≤ 9223372036854775807 }
{
    if literal % 2 == 1 {
        literal - 1
    } else {
        literal + 1
    }
}

// Adds a literal to others, unless it is among them.
fn add_literal(literals: &mut Vec<Lit>, literal: Lit) -> Result<(), Memory>
    ensures { OnOk result (literals.new.items ≡ add_literal literals.old.items literal) }
{
    if !is_among(literals, literal) {
        literals.push(literal)?;
    }
    Ok(())
}

fn is_among(literals: &[Lit], literal: Lit) -> bool
    ensures { result ≡ list_any (same_literal literal) literals.now }
{
    literals.iter().any(|l| *l == literal)
}

/// Adds what is left of a clause. The buffer's content doesn't matter.
pub(crate) fn add_clause(
    f: &mut Formula,
    buffer: &mut Vec<Lit>,
    clause: &[u64],
) -> Result<(), Memory>
    requires within { AreWithin f.old.variables clause.now }
    requires few { length f.old.matrix < MAX_CLAUSES }
    ensures clauses { OnOk result
        (f.new ≡ record f.old { matrix = f.old.matrix ++ kept (clause.now ∷ []) }) }
{
    if clause.contains(&1) {
        return Ok(());
    }
    // The call shows the formula's invariant.
    let _ = f.vars();
    buffer.clear();
    for literal in clause {
        if *literal != 0 {
            add_literal(buffer, as_literal(*literal))?;
        }
    }
    f.add_clause(buffer)
}

/// Adds the clauses of a gate, over numbers of the formula.
pub(crate) fn add_gate(f: &mut Formula, buffer: &mut Vec<Lit>, gate: Gate) -> Result<(), Memory>
    requires within { AreWithin f.old.variables (2 * gate.variable ∷ gate.left ∷ gate.right ∷ []) }
    requires few { length f.old.matrix + 3 ≤ MAX_CLAUSES }
    ensures clauses { OnOk result
        (f.new ≡ record f.old { matrix = f.old.matrix ++ kept (gate_clauses gate) }) }
    ensures few { OnOk result (length f.new.matrix ≤ length f.old.matrix + 3) }
{
    // The call shows the formula's invariant.
    let _ = f.vars();
    let variable = 2 * gate.variable;
    let never = opposite_of(variable);
    add_clause(f, buffer, &[never, gate.left])?;
    add_clause(f, buffer, &[never, gate.right])?;
    add_clause(
        f,
        buffer,
        &[variable, opposite_of(gate.left), opposite_of(gate.right)],
    )
}

/// Adds the clauses by which a variable is true exactly where two literals agree.
pub(crate) fn add_agreement(
    f: &mut Formula,
    buffer: &mut Vec<Lit>,
    flag: u64,
    a: u64,
    b: u64,
) -> Result<(), Memory>
    requires within { AreWithin f.old.variables (2 * flag ∷ a ∷ b ∷ []) }
    requires few { length f.old.matrix + 4 ≤ MAX_CLAUSES }
    ensures clauses { OnOk result
        (f.new ≡ record f.old { matrix = f.old.matrix ++ kept (agreement_clauses flag a b) }) }
    ensures few { OnOk result (length f.new.matrix ≤ length f.old.matrix + 4) }
{
    // The call shows the formula's invariant.
    let _ = f.vars();
    let agree = 2 * flag;
    let differ = opposite_of(agree);
    let (not_a, not_b) = (opposite_of(a), opposite_of(b));
    add_clause(f, buffer, &[differ, not_a, b])?;
    add_clause(f, buffer, &[differ, a, not_b])?;
    add_clause(f, buffer, &[agree, a, b])?;
    add_clause(f, buffer, &[agree, not_a, not_b])
}
