//! The lines that derive goals.

ghost use Rattle.std.specs.Prelude.{◌≡◌, ◌<◌, ◌+◌, ◌*◌, ◌≤◌, ℕ, [], ◌∷◌, ◌++◌, length, map, replicate, not, All, Contains, IfOk, OnOk, slice_index_or};
ghost use Rattle.std.specs.List.{slice_get};
ghost use Rattle.dq_lits.specs.Literal.{variable_of, opposite};
ghost use Rattle.dq_lits.specs.Derivation.{holds};
ghost use Rattle.dq_lits.specs.Formula.{declared};
ghost use Rattle.dq_prep.specs.Roles.{is_open};
ghost use Rattle.lifted_proofs.specs.UnitTables.{first_literals, IsUnitTable};
ghost use Rattle.lifted_proofs.specs.Turns.{AreTurns};
ghost use Rattle.lifted_proofs.specs.Lines.{written_literals, numbered_literal};
ghost use Rattle.lifted_proofs.specs.Written.{IsWhole, IsNamed, AreWritten, AreHintsNamed, IsLineOf};

use crate::goals::{Goal, Plan};
use crate::turns::{Turn, turns};
use crate::units::UnitTable;
use cert_text::{Step, StepList};
use dq_lits::{Lit, Memory};
use std::alloc::Global;

/// Lines, and by the places of goals the ids of their clauses.
#[derive(Drop)]
pub(crate) struct Written {
    pub ids: Vec<u64>,
    pub steps: StepList,
}

fn zeros(alloc: Global, n: usize) -> Result<Vec<u64>, Memory>
    ensures { IfOk result (λ ids. ids.items ≡ replicate n 0) }
{
    Ok(vec![in alloc; 0; n]?)
}

impl Written {
    /// No lines.
    fn new(table: &UnitTable, plan: &Plan) -> Result<Written, Memory>
        ensures { IfOk result (AreWritten table.now plan.now) }
    {
        Ok(Written {
            ids: zeros(table.alloc, plan.goals.len())?,
            steps: StepList::new(table.alloc),
        })
    }

    /// The lines of all goals.
    pub(crate) fn of(table: &UnitTable, plan: &Plan) -> Result<Written, Memory>
        requires plan { IsWhole table.now plan.now }
        ensures written { IfOk result (AreWritten table.now plan.now) }
        ensures named { IfOk result (λ w. (q : ℕ) → IsNamed table.now plan.now w q) }
    {
        let mut written = Written::new(table, plan)?;
        let order = turns(table.alloc, &plan.goals)?;
        written.name_all(table, plan, &order)?;
        Ok(written)
    }

    fn name_all(&mut self, table: &UnitTable, plan: &Plan, order: &[Turn]) -> Result<(), Memory>
        requires plan { IsWhole table.now plan.now }
        requires written { AreWritten table.now plan.now self.old }
        requires order { AreTurns plan.now.goals.items order.now }
        ensures written { OnOk result (AreWritten table.now plan.now self.new) }
        ensures named { OnOk result ((q : ℕ) → IsNamed table.now plan.now self.new q) }
    {
        for turn in order {
            self.name(table, plan, turn.goal)?;
        }
        Ok(())
    }

    // Gives the goal at a place its id.
    fn name(&mut self, table: &UnitTable, plan: &Plan, q: usize) -> Result<(), Memory>
        requires plan { IsWhole table.now plan.now }
        requires written { AreWritten table.now plan.now self.old }
        requires within { q < length plan.now.goals.items }
        requires hints { AreHintsNamed table.now plan.now self.old q }
        ensures written { OnOk result (AreWritten table.now plan.now self.new) }
        ensures named { OnOk result (IsNamed table.now plan.now self.new q) }
        ensures kept { OnOk result ((h : ℕ) → IsNamed table.now plan.now self.old h
            → IsNamed table.now plan.now self.new h) }
    {
        let id = self.id_of(table, plan, q)?;
        self.ids[q] = id;
        Ok(())
    }

    // The id of the goal's clause: the instance of its clause, where no unit is needed, and else a
    // line that is added.
    fn id_of(&mut self, table: &UnitTable, plan: &Plan, q: usize) -> Result<u64, Memory>
        requires plan { IsWhole table.now plan.now }
        requires written { AreWritten table.now plan.now self.old }
        requires within { q < length plan.now.goals.items }
        requires hints { AreHintsNamed table.now plan.now self.old q }
        ensures ids { self.new.ids ≡ self.old.ids }
        ensures line { IfOk result (IsLineOf table.now plan.now self.old self.new q) }
    {
        let goal = plan.goal(table, q);
        let reason = plan.reason(table, q, goal);
        let instance = instance_id(table, reason.lowered, goal.source.place);
        if reason.hints.is_empty() {
            return Ok(instance);
        }
        let literals = open_pairs(table, goal)?;
        let mut hints = ids_at(table.alloc, &self.ids, &reason.hints)?;
        hints.push(instance)?;
        let clauses = table.formula.clauses() as u64;
        let id = plan.rows.items().len() as u64 * clauses + self.steps.len() as u64 + 1;
        self.steps.push(Step {
            id,
            lits: &literals,
            hints: &hints,
        })?;
        Ok(id)
    }
}

// The id of the instance of a clause under a row, by their places.
fn instance_id(table: &UnitTable, row: usize, place: usize) -> u64
    requires few { row < 1000000000 }
    requires within { place < length table.now.formula.now.matrix }
    ensures { result ≡ row * length table.now.formula.now.matrix + place + 1 }
{
    let before = row as u64 * table.formula.clauses() as u64;
    before + place as u64 + 1
}

// The ids at these places.
fn ids_at(alloc: Global, ids: &[u64], places: &[usize]) -> Result<Vec<u64>, Memory>
    requires { All (λ h. h < length ids.now) places.now }
    ensures { IfOk result (λ found. found.items
        ≡ map (λ h. slice_index_or ids.now h 0) places.now) }
{
    let mut found = Vec::new(alloc);
    for h in places {
        found.push(ids[*h])?;
    }
    Ok(found)
}

// The literals that are left of a goal's clause, on pairs with its row.
fn open_pairs(table: &UnitTable, goal: Goal) -> Result<Vec<Lit>, Memory>
    requires right { IsUnitTable table.now }
    requires within { goal.source.place < length table.now.formula.now.matrix }
    requires few { goal.row ≤ 1000000000 }
    ensures { IfOk result (λ literals. literals.items
        ≡ written_literals table.now.formula.now table.now.units.now goal) }
{
    let mut literals = Vec::new(table.alloc);
    for l in table.formula.clause(goal.source.place) {
        if is_open(table, *l, goal.source.taken) {
            literals.push(numbered(table, goal.row, *l))?;
        }
    }
    Ok(literals)
}

// Whether a literal is on an existential, and none of the first units makes it false.
fn is_open(table: &UnitTable, l: Lit, count: usize) -> bool
    requires right { IsUnitTable table.now }
    requires bound { Contains (declared table.now.formula.now) (variable_of l) }
    ensures { result ≡ is_open table.now.formula.now (first_literals table.now.units.now count) l }
{
    table.formula.is_existential(l.var()) && is_free(table, l, count)
}

// Whether none of the first units makes a literal false.
fn is_free(table: &UnitTable, l: Lit, count: usize) -> bool
    requires { IsUnitTable table.now }
    ensures { result ≡ not (holds (first_literals table.now.units.now count) (opposite l)) }
{
    match table.false_by(l, count) {
        Some(_) => false,
        None => true,
    }
}

// A literal on the number of its existential by a row.
fn numbered(table: &UnitTable, row: usize, l: Lit) -> Lit
    requires range { variable_of l ≤ table.now.formula.now.variables }
    requires few { row ≤ 1000000000 }
    ensures { result ≡ numbered_literal table.now.formula.now row l }
{
    let number = row as u64 * table.formula.vars() + l.var();
    if l.is_neg() {
        Lit::neg(number)
    } else {
        Lit::pos(number)
    }
}
