//! The leaves that variables have in the faults that an answer reaches.

ghost use Rattle.std.specs.Prelude.{◌≡◌, ◌⊎◌, ◌≤◌, ℕ, None, Some, All, IfSome, IfOk, OnOk, IsSome, Contains};
ghost use Rattle.std.specs.Option.{option_map};
ghost use Rattle.dq_lits.specs.Literal.{variable_of};
ghost use Rattle.hint_log.specs.Conditions.{IsId};
ghost use Rattle.hint_log.specs.Entries.{origin_at};
ghost use Rattle.hint_log.specs.Origins.{matrix_literal};
ghost use Rattle.hint_log.specs.declared.origins.Origin.TheVariants.{Fault};
ghost use Rattle.hint_log.specs.declared.origins.Leaf.{Leaf};
ghost use Rattle.cert_export.specs.FaultLeaves.{leaf_of, or_false, IsLeafAt, AreLeavesAmong, HasLeavesAmong, HasLiteral, HaveLiterals, BeginsGroup, IsFaultOfGroup, AreOfGroup};

use dq_formula::Formula;
use dq_lits::Memory;
use hint_log::{Leaf, Log, Origin};
use number_tables::NumberSet;
use std::alloc::Global;
use std::marker::Model;

/// Leaves of some variables, each found by the variable.
#[derive(Drop)]
pub(crate) struct Leaves {
    variables: NumberSet,
    leaves: Vec<Leaf>,
}

impl Model for Leaves {
    ghost use Rattle.std.specs.Prelude.{◌≡◌, length};
    ghost use Rattle.cert_export.specs.FaultLeaves.{LeafTable};

    ghost Value = { LeafTable };

    ghost view = { λ t. record { variables = t.variables; leaves = t.leaves.items } };

    ghost invariant = { λ t. length t.leaves.items ≡ length t.variables };
}

impl Leaves {
    fn new(alloc: Global) -> Leaves
        ensures { (v : ℕ) → leaf_of result v ≡ None }
    {
        Leaves {
            variables: NumberSet::new(alloc),
            leaves: Vec::new(alloc),
        }
    }

    /// The leaf of a variable, and constant false where it has none.
    pub(crate) fn get(&self, variable: u64) -> Leaf
        ensures { result ≡ or_false (leaf_of self.now variable) }
    {
        match self.variables.place(variable) {
            Some(place) => self.leaves[place],
            None => Leaf::Constant(false),
        }
    }

    /// All leaves.
    pub(crate) fn items(&self) -> &[Leaf]
        ensures { result.now ≡ self.now.leaves }
    {
        &self.leaves
    }

    // Gives a variable its leaf, unless it has one.
    fn insert(&mut self, variable: u64, leaf: Leaf) -> Result<(), Memory>
        ensures kept { OnOk result
            ((v : ℕ) (out : Leaf) → leaf_of self.old v ≡ Some out → leaf_of self.new v ≡ Some out) }
        ensures there { OnOk result (IsSome (leaf_of self.new variable)) }
        ensures only { OnOk result
            ((v : ℕ) (out : Leaf) → leaf_of self.new v ≡ Some out
            → (leaf_of self.old v ≡ Some out) ⊎ ((v ≡ variable) × (out ≡ leaf))) }
    {
        if self.variables.contains(variable) {
            return Ok(());
        }
        self.leaves.reserve(1)?;
        self.variables.insert(variable)?;
        self.leaves.push(leaf).unwrap();
        Ok(())
    }
}

/// The leaves of the variables that have a fault among some ids.
pub(crate) fn fault_leaves(
    alloc: Global,
    log: &Log,
    ids: &[u64],
    f: &Formula,
) -> Result<Leaves, Memory>
    requires ids { All (IsId log.now.entries) ids.now }
    requires literals { HaveLiterals f.now log.now.entries ids.now }
    ensures sound { IfOk result (AreLeavesAmong f.now log.now.entries ids.now) }
    ensures whole { IfOk result (HasLeavesAmong f.now log.now.entries ids.now) }
{
    let mut leaves = Leaves::new(alloc);
    for id in ids {
        note_leaf(log, *id, f, &mut leaves)?;
    }
    Ok(leaves)
}

// Notes the leaf of a fault.
fn note_leaf(log: &Log, id: u64, f: &Formula, leaves: &mut Leaves) -> Result<(), Memory>
    requires id { IsId log.now.entries id }
    requires literal { HasLiteral f.now log.now.entries id }
    ensures kept { OnOk result
        ((v : ℕ) (out : Leaf) → leaf_of leaves.old v ≡ Some out → leaf_of leaves.new v ≡ Some out) }
    ensures there { OnOk result
        ((v : ℕ) (out : Leaf) → IsLeafAt f.now log.now.entries id v out
        → IsSome (leaf_of leaves.new v)) }
    ensures only { OnOk result ((v : ℕ) (out : Leaf) → leaf_of leaves.new v ≡ Some out
        → (leaf_of leaves.old v ≡ Some out) ⊎ IsLeafAt f.now log.now.entries id v out) }
{
    if let Some(
        Origin::Fault {
            clause,
            place,
            output,
        },
    ) = log.origin(id)
    {
        if clause > 0 {
            leaves.insert(matrix_variable(f, clause, place), output)?;
        }
    }
    Ok(())
}

// The variable of a literal of the matrix, by the numbers of its clause and of its place there,
// both from 1 on.
fn matrix_variable(f: &Formula, clause: u64, place: u64) -> u64
    requires { IsSome (matrix_literal f.now clause place) }
    ensures { option_map variable_of (matrix_literal f.now clause place) ≡ Some result }
{
    let lits = f.clause(clause as usize - 1);
    lits[place as usize - 1].var()
}

/// The group of the faults among some ids; 0 where there is none.
pub(crate) fn fault_group(log: &Log, ids: &[u64]) -> u64
    requires ids { All (IsId log.now.entries) ids.now }
    requires one { (group : ℕ) × AreOfGroup log.now.entries ids.now group }
    ensures { AreOfGroup log.now.entries ids.now result }
{
    for id in ids {
        if let Some(group) = own_group(log, *id) {
            return group;
        }
    }
    0
}

// The group of a fault.
fn own_group(log: &Log, id: u64) -> Option<u64>
    requires id { IsId log.now.entries id }
    requires begins { (j i : ℕ) (out : Leaf) → origin_at log.now.entries id ≡ Some (Fault j i out)
        → (group : ℕ) × BeginsGroup log.now.entries id group }
    ensures none { result ≡ None → (j i : ℕ) (out : Leaf)
        → origin_at log.now.entries id ≡ Some (Fault j i out) → ⊥ }
    ensures own { IfSome result (IsFaultOfGroup log.now.entries id) }
{
    if let Some(Origin::Fault { .. }) = log.origin(id) {
        Some(log.clause(id)[0].var())
    } else {
        None
    }
}
