//! The order of boxes, tested in one pass over the gates.
//!
//! One number a variable, the latest box that it hangs on, tells it.

ghost use Rattle.std.specs.Prelude.{◌≡◌, ◌≤◌, ◌<◌, ◌+◌, ◌/◌, ℕ, true, nat_lt, length, replicate, All, IfOk, MatchOption};
ghost use Rattle.std.specs.List.{list_any};
ghost use Rattle.circuit_plain.specs.Netlist.{Netlist, literal_variable};
ghost use Rattle.circuit_plain.specs.Order.{IsOrder};
ghost use Rattle.number_tables.specs.Numbers.{has_number};
ghost use Rattle.pec_front.specs.BoxLine.{variables_of};
ghost use Rattle.pec_front.specs.Boxes.{StandInOrder};
ghost use Rattle.pec_front.specs.Latest.{IsLatest};
ghost use Rattle.pec_front.specs.Reading.{IsFirstOutOfOrder};
ghost use Rattle.pec_front.specs.Steps.{DriveInputs, level_in, IsLevelSet, SameVariables, IsSized, IsMarked, AreMarked, IsRaised, IsFirstAbove};
ghost use Rattle.skolem_checker.specs.SkolemCircuit.{IsComplete};

use crate::boxes::BlackBox;
use crate::laws::latest_shows_order;
use circuit_plain::{Circuit, Order, OrderStop};
use dq_lits::Memory;
use number_tables::NumberSet;
use std::alloc::Global;

/// For each variable, one more than the greatest place of a box of which an input that it drives is
/// reached, as far as the pass has come.
#[derive(Drop)]
pub(crate) struct Levels<'v> {
    variables: &'v NumberSet,
    // By the variable's place.
    levels: Vec<usize>,
}

/// The first box that reads what depends on an input that it drives itself, or that a later box
/// drives.
pub(crate) fn first_out_of_order(
    alloc: Global,
    circuit: &Circuit,
    variables: &NumberSet,
    boxes: &[BlackBox],
) -> Result<Option<usize>, Memory>
    requires complete { IsComplete circuit.now }
    requires variables { variables.now ≡ variables_of circuit.now }
    requires drive { DriveInputs circuit.now boxes.now }
    ensures { IfOk result
        (λ found. MatchOption found (StandInOrder circuit.now boxes.now)
        (IsFirstOutOfOrder circuit.now boxes.now)) }
{
    let order = ordered(circuit)?;
    let mut levels = Levels {
        variables,
        levels: zeros(alloc, variables.len())?,
    };
    levels.mark_all(boxes, circuit);
    levels.raise_all(boxes, circuit, &order);
    latest_shows_order();
    Ok(levels.first_above(boxes))
}

fn ordered(circuit: &Circuit) -> Result<Order, Memory>
    requires { IsComplete circuit.now }
    ensures { IfOk result (IsOrder circuit.now) }
{
    match circuit.order() {
        Ok(order) => Ok(order),
        Err(OrderStop::Cyclic(_)) => unreachable!(),
        Err(OrderStop::Memory) => Err(Memory),
    }
}

fn zeros(alloc: Global, n: usize) -> Result<Vec<usize>, Memory>
    ensures { IfOk result (λ zeros. zeros.items ≡ replicate n 0) }
{
    Ok(vec![in alloc; 0usize; n]?)
}

impl<'v> Levels<'v> {
    // The level of a literal's variable.
    fn level(&self, literal: u64) -> usize
        ensures { result ≡ level_in self.now (literal_variable literal) }
    {
        let Some(place) = self.variables.place(literal / 2) else {
            return 0;
        };
        match self.levels.get(place) {
            Some(level) => *level,
            None => 0,
        }
    }

    fn set_level(&mut self, variable: u64, level: usize)
        requires known { has_number self.old.variables.now variable ≡ true }
        requires sized { IsSized self.old }
        ensures level { IsLevelSet (level_in self.old) (level_in self.new) variable level }
        ensures sized { IsSized self.new }
        ensures variables { SameVariables self.old self.new }
    {
        let Some(place) = self.variables.place(variable) else {
            unreachable!()
        };
        self.levels[place] = level;
    }

    // Gives the inputs that literals drive a level.
    fn mark(&mut self, outs: &[u64], level: usize)
        requires known { All (λ out. has_number self.old.variables.now (literal_variable out) ≡ true)
            outs.now }
        requires sized { IsSized self.old }
        ensures marked { IsMarked (level_in self.old) (level_in self.new) outs.now level }
        ensures sized { IsSized self.new }
        ensures variables { SameVariables self.old self.new }
    {
        for out in outs {
            self.set_level(*out / 2, level);
        }
    }

    // Gives the inputs that boxes drive their levels.
    fn mark_all(&mut self, boxes: &[BlackBox], circuit: &Circuit)
        requires variables { self.old.variables.now ≡ variables_of circuit.now }
        requires drive { DriveInputs circuit.now boxes.now }
        requires sized { IsSized self.old }
        requires start { self.old.levels.items
            ≡ replicate (length self.old.variables.now) 0 }
        ensures marked { AreMarked circuit.now boxes.now (length boxes.now) (level_in self.new) }
        ensures sized { IsSized self.new }
        ensures variables { SameVariables self.old self.new }
    {
        // Only the contract speaks of it.
        let _ = circuit;
        for (i, black_box) in boxes.iter().enumerate() {
            self.mark(black_box.outs(), i + 1);
        }
    }

    // Gives the gates their levels, each behind those that it reads.
    fn raise_all(&mut self, boxes: &[BlackBox], circuit: &Circuit, order: &Order)
        requires variables { self.old.variables.now ≡ variables_of circuit.now }
        requires drive { DriveInputs circuit.now boxes.now }
        requires order { IsOrder circuit.now order.now }
        requires sized { IsSized self.old }
        requires marked { AreMarked circuit.now boxes.now (length boxes.now) (level_in self.old) }
        ensures latest { IsLatest circuit.now boxes.now (level_in self.new) }
    {
        // Only the contract speaks of it.
        let _ = boxes;
        circuit.every_circuit_is_a_netlist();
        for place in order.places() {
            self.raise(circuit, *place);
        }
    }

    // Gives a gate the greater level of those that it reads.
    fn raise(&mut self, circuit: &Circuit, place: usize)
        requires variables { self.old.variables.now ≡ variables_of circuit.now }
        requires in_range { place < length circuit.now.gates }
        requires sized { IsSized self.old }
        ensures raised { IsRaised circuit.now place (level_in self.old) (level_in self.new) }
        ensures sized { IsSized self.new }
        ensures variables { SameVariables self.old self.new }
    {
        let (lhs, left, right) = circuit.gate(place);
        let level = self.level(left).max(self.level(right));
        self.set_level(lhs / 2, level);
    }

    // Whether one of the literals has a level above a place.
    fn is_above(&self, literals: &[u64], place: usize) -> bool
        ensures { result
            ≡ list_any (λ l. nat_lt place (level_in self.now (literal_variable l))) literals.now }
    {
        literals.iter().any(|literal| self.level(*literal) > place)
    }

    // The first box that reads a literal with a level above its place.
    fn first_above(&self, boxes: &[BlackBox]) -> Option<usize>
        ensures { IsFirstAbove (level_in self.now) boxes.now result }
    {
        for (i, black_box) in boxes.iter().enumerate() {
            if self.is_above(black_box.ins(), i) {
                return Some(i);
            }
        }
        None
    }
}
