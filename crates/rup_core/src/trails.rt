//! The literals that a line's hints made true.
//!
//! A table has the first variables and an ordered map the others, so that what a trail takes
//! follows what a line assigns, whichever numbers its variables have.

ghost use Rattle.std.specs.Prelude.{◌≡◌, ◌+◌, ◌<◌, ◌≤◌, [], ◌∷◌, length, max, All, IfOk, IsOk, OnOk, OnErr, if◌then◌else◌};
ghost use Rattle.std.specs.Option.{option_copied};
ghost use Rattle.dq_lits.specs.Derivation.{holds};
ghost use Rattle.dq_lits.specs.Literal.{variable_of, positive, negative};
ghost use Rattle.dq_lits.specs.Truth.{literal_value};
ghost use Rattle.rup_core.specs.Table.{AreSameValues, StandsOnlyOn, far_value};
ghost use Rattle.dq_lits.specs.Table.{IsTold};

use dq_lits::{Lit, Memory, TruthValue, truth_value};
use std::alloc::Global;
use std::collections::BTreeMap;
use std::marker::Model;

/// The literals that were made true, in order.
///
/// Each variable keeps its value, so that a literal's value is one look-up, and the literals made
/// true are kept beside them, so that undoing takes time for these alone. The first variables have
/// a table, and room for their literals from the start; those beyond it stand in an ordered map, so
/// that memory and time follow what is made true, whichever numbers its variables have.
#[derive(Drop)]
pub(crate) struct Trail {
    // The value of variable v at place v - 1.
    near: Vec<TruthValue>,
    // Of the variables beyond the table, which are true and which are false.
    far: BTreeMap<u64, bool>,
    literals: Vec<Lit>,
}

impl Model for Trail {
    ghost use Rattle.rup_core.specs.Assigned.{Assigned};

    ghost Value = { Assigned };

    ghost use Rattle.rup_core.specs.TrailInside.{assigned_in, IsTrail};

    ghost view = { assigned_in };

    ghost invariant = { IsTrail };
}

impl Trail {
    /// No literal is true yet, and the room for these variables is taken.
    pub(crate) fn new(alloc: Global, variables: usize) -> Result<Trail, Memory>
        ensures { IfOk result (λ trail. trail ≡ record { variables = variables; trues = [] }) }
    {
        let near = vec![in alloc; TruthValue::Unassigned; variables]?;
        let literals = Vec::with_capacity(alloc, variables)?;
        Ok(Trail {
            near,
            far: BTreeMap::new(alloc),
            literals,
        })
    }

    pub(crate) fn value(&self, l: Lit) -> TruthValue
        ensures { result ≡ literal_value self.now.trues l }
    {
        match self.variable_value(l) {
            TruthValue::Unassigned => TruthValue::Unassigned,
            TruthValue::True => truth_value(!l.is_neg()),
            TruthValue::False => truth_value(l.is_neg()),
        }
    }

    // The value of a literal's variable.
    fn variable_value(&self, l: Lit) -> TruthValue
        ensures { IsTold result (holds self.now.trues (positive (variable_of l)))
            (holds self.now.trues (negative (variable_of l))) }
    {
        let place = place_of(l);
        if place < self.near.len() {
            return self.near[place];
        }
        self.far_variable_value(l)
    }

    // The same beyond the table, where few variables are.
    #[inline(never)]
    fn far_variable_value(&self, l: Lit) -> TruthValue
        requires { self.now.variables < variable_of l }
        ensures { IsTold result (holds self.now.trues (positive (variable_of l)))
            (holds self.now.trues (negative (variable_of l))) }
    {
        far_value(self.far.get(&l.var()))
    }

    /// Makes an unassigned literal true, whose variable has a place in the table of values or behind
    /// it. It takes no memory for the variables that room was taken for.
    #[inline(always)]
    pub(crate) fn assign(&mut self, place: usize, l: Lit) -> Result<(), Memory>
        requires place { place + 1 ≡ variable_of l }
        requires unassigned { literal_value self.old.trues l ≡ TruthValue.Unassigned }
        ensures ok { OnOk result (self.new ≡ record self.old { trues = l ∷ self.old.trues }) }
        ensures err { OnErr result (self.new ≡ self.old) }
        ensures near { variable_of l ≤ self.old.variables → IsOk result }
    {
        if place < self.near.len() {
            self.assign_near(place, l);
            return Ok(());
        }
        self.assign_far(l)
    }

    #[inline(always)]
    fn assign_near(&mut self, place: usize, l: Lit)
        requires place { place + 1 ≡ variable_of l }
        requires in_range { variable_of l ≤ self.old.variables }
        requires unassigned { literal_value self.old.trues l ≡ TruthValue.Unassigned }
        ensures { self.new ≡ record self.old { trues = l ∷ self.old.trues } }
    {
        self.near[place] = truth_value(!l.is_neg());
        self.literals.push_reserved(l);
    }

    // Few variables are so far, and what calls it is to stay small.
    #[inline(never)]
    fn assign_far(&mut self, l: Lit) -> Result<(), Memory>
        requires far { self.old.variables < variable_of l }
        requires unassigned { literal_value self.old.trues l ≡ TruthValue.Unassigned }
        ensures ok { OnOk result (self.new ≡ record self.old { trues = l ∷ self.old.trues }) }
        ensures err { OnErr result (self.new ≡ self.old) }
    {
        self.literals.reserve(self.near.len() + 1)?;
        self.far.insert(l.var(), !l.is_neg())?;
        self.literals.push(l).unwrap();
        Ok(())
    }

    /// Takes the room for more variables, where nothing is true.
    pub(crate) fn widen(&mut self, variables: usize) -> Result<(), Memory>
        requires { self.old.trues ≡ [] }
        ensures ok { OnOk result
            (self.new ≡ record self.old { variables = max self.old.variables variables }) }
        ensures err { OnErr result (self.new ≡ self.old) }
        ensures enough { variables ≤ self.old.variables → IsOk result }
    {
        if self.near.len() < variables {
            self.literals.reserve(variables)?;
            add_unassigned(&mut self.near, variables)?;
        }
        Ok(())
    }

    /// Takes all back.
    pub(crate) fn clear(&mut self)
        ensures { self.new ≡ record self.old { trues = [] } }
    {
        if self.literals.is_empty() {
            return;
        }
        unassign(&mut self.near, &self.literals);
        self.far.clear();
        self.literals.clear();
    }
}

fn far_value(is_true: Option<&bool>) -> TruthValue
    ensures { result ≡ far_value (option_copied is_true.entry) }
{
    match is_true {
        None => TruthValue::Unassigned,
        Some(true) => TruthValue::True,
        Some(false) => TruthValue::False,
    }
}

/// The place of a literal's variable in the table of values.
pub(crate) fn place_of(l: Lit) -> usize
    ensures { result + 1 ≡ variable_of l }
{
    l.var() as usize - 1
}

// Makes the table hold the values of more variables, which are unassigned.
fn add_unassigned(near: &mut Vec<TruthValue>, variables: usize) -> Result<(), Memory>
    requires { length near.old.items ≤ variables }
    ensures len { OnOk result (length near.new.items ≡ variables) }
    ensures same { AreSameValues near.old.items near.new.items }
    ensures err { OnErr result (near.new.items ≡ near.old.items) }
{
    near.resize(variables, TruthValue::Unassigned)?;
    Ok(())
}

// Takes the values of these literals' variables back, which are all of the table that have one.
fn unassign(near: &mut [TruthValue], literals: &[Lit])
    requires { StandsOnlyOn near.old literals.now }
    ensures { All (λ value. value ≡ TruthValue.Unassigned) near.new }
{
    for l in literals {
        let place = place_of(*l);
        if place < near.len() {
            near[place] = TruthValue::Unassigned;
        }
    }
}
