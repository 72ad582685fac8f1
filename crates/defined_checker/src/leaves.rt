//! The variables of the formula that a definition reads.
//!
//! A definition's cone is walked from its last gate to its first, and each leaf is tested once,
//! however often it is read: a test compares two dependency sets. What it reads counts by its
//! structure, as in a circuit.

ghost use Rattle.std.specs.Prelude.{◌≡◌, ◌+◌, ◌-◌, ◌≤◌, ◌<◌, ◌/◌, ◌↔◌, ℕ, length, Contains, OnOk, IfOk};
ghost use Rattle.circuit_plain.specs.Netlist.{literal_variable};
ghost use Rattle.cert_text.specs.AllowedDefinitions.{IsDefinitionOf};
ghost use Rattle.cert_text.specs.DefinitionsRead.{definition_seen};
ghost use Rattle.defined_checker.specs.DefinitionReads.{IsRead};
ghost use Rattle.defined_checker.specs.Walking.{IsWalked, Keeps, Noted};

use cert_text::Definition;
use dq_formula::Formula;
use dq_lits::{Memory, Row};
use number_tables::NumberSet;
use std::alloc::Global;

/// What was found of an output's cone: which gates are in it, by place, and its leaves.
#[derive(Drop)]
pub(crate) struct Cone {
    pub gates: Row,
    pub leaves: NumberSet,
}

/// The variables of the formula that the definition reads.
pub(crate) fn leaves(alloc: Global, f: &Formula, d: &Definition) -> Result<NumberSet, Memory>
    requires { IsDefinitionOf f.now (definition_seen d.now) }
    ensures { IfOk result (λ leaves. (v : ℕ)
        → (Contains leaves v ↔ IsRead f.now (definition_seen d.now) v)) }
{
    let gates = Row::new(alloc, d.gates.len())?;
    let mut cone = Cone {
        gates,
        leaves: NumberSet::new(alloc),
    };
    note(f.vars(), d.output, &mut cone)?;
    walk(f, d, &mut cone)?;
    Ok(cone.leaves)
}

// Notes what the gates of the cone read, from the last gate to the first.
fn walk(f: &Formula, d: &Definition, cone: &mut Cone) -> Result<(), Memory>
    requires lawful { IsDefinitionOf f.now (definition_seen d.now) }
    requires walked { IsWalked f.now (definition_seen d.now) (length d.now.gates.items) cone.old }
    ensures { OnOk result (IsWalked f.now (definition_seen d.now) 0 cone.new) }
{
    let mut place = d.gates.len();
    while place > 0 {
        place -= 1;
        visit(f, d, place, cone)?;
    }
    Ok(())
}

// Notes what a gate reads, if it is in the cone.
fn visit(f: &Formula, d: &Definition, place: usize, cone: &mut Cone) -> Result<(), Memory>
    requires there { place < length d.now.gates.items }
    requires lawful { IsDefinitionOf f.now (definition_seen d.now) }
    requires walked { IsWalked f.now (definition_seen d.now) (place + 1) cone.old }
    ensures { OnOk result (IsWalked f.now (definition_seen d.now) place cone.new) }
{
    if cone.gates.get(place) {
        let gate = d.gates[place];
        note(f.vars(), gate.left, cone)?;
        note(f.vars(), gate.right, cone)?;
    }
    Ok(())
}

// Notes the variable of a literal, where it isn't a constant.
fn note(last: u64, literal: u64, cone: &mut Cone) -> Result<(), Memory>
    requires { literal_variable literal ≤ last + length cone.old.gates }
    ensures noted { OnOk result (Noted last cone.new (literal_variable literal)) }
    ensures kept { OnOk result (Keeps last cone.old cone.new (literal_variable literal)) }
{
    let variable = literal / 2;
    if variable > last {
        cone.gates.set((variable - last - 1) as usize, true);
    } else if variable > 0 {
        cone.leaves.insert(variable)?;
    }
    Ok(())
}
