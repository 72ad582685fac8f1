//! A topological order of a netlist's gates.
//!
//! Where the walk meets a cycle, exact rounds find the first gate outside the least set. A gate
//! that reads a variable neither constant, input nor gate can't be ordered either. Each gate comes
//! once and none is missing, so that a value of the whole circuit needs no look at what outputs
//! reach.

ghost use Rattle.std.specs.Prelude.{◌≡◌, ℕ, true, All, Option, None, Some, Result, Err, IfOk, MatchOption};
ghost use Rattle.circuit_plain.specs.Ground.{IsFirstUngrounded, IsGrounded};
ghost use Rattle.circuit_plain.specs.Order.{IsOrder};
ghost use Rattle.number_tables.specs.Numbers.{has_number};
ghost use Rattle.circuit_plain.specs.Steps.{IsDraft, IsClosed};
ghost use Rattle.circuit_plain.specs.declared.orders.OrderStop.TheVariants.{Memory as OutOfMemory};

use crate::circuits::Circuit;
use crate::sorting::Draft;
use crate::walks::depth_first;
use dq_lits::Memory;
use std::marker::Model;
use thiserror::Error;

/// Why `order` gave no order.
#[derive(Clone, Copy, Debug, PartialEq, Eq, Error)]
pub enum OrderStop {
    /// The gate at this place is the first that no order can hold: it lies on a cycle of gates, or
    /// reads a variable that is neither input nor gate, or reads such a gate.
    #[error("gate {0} cannot be ordered")]
    Cyclic(usize),
    /// Want of memory: a growth was refused.
    #[error("out of memory")]
    Memory,
}

impl From<Memory> for OrderStop {
    ghost from_gives = { λ _ stop. stop ≡ OutOfMemory };

    fn from(_refused: Memory) -> OrderStop {
        OrderStop::Memory
    }
}

/// A topological order of a circuit's gates: their places, each behind those of the gates that it
/// reads.
#[derive(Drop)]
pub struct Order {
    places: Vec<usize>,
}

impl Model for Order {
    ghost use Rattle.std.specs.Prelude.{ℕ, List};

    ghost Value = { List ℕ };

    ghost view = { λ o. o.places.items };
}

impl Order {
    /// The places of the gates, in order.
    pub fn places(&self) -> &[usize]
        ensures { result.now ≡ self.now }
    {
        &self.places
    }
}

impl Circuit {
    /// An order of the gates in which each stands behind those that it reads, or the first gate
    /// that no order can hold.
    pub fn order(&self) -> Result<Order, OrderStop>
        ensures ok { IfOk result (IsOrder self.now) }
        ensures cyclic { (place : ℕ) → result ≡ Err (OrderStop.Cyclic place)
            → IsFirstUngrounded self.now place }
    {
        if let Some(places) = self.places_as_numbered()? {
            return Ok(Order { places });
        }
        self.order_as_it_stands()
    }

    /// The first gate that no order can hold, if there is one.
    pub fn first_ungrounded(&self) -> Result<Option<usize>, Memory>
        ensures { IfOk result (λ found. MatchOption found
            (All (λ g. IsGrounded self.now g.variable) self.now.gates)
            (IsFirstUngrounded self.now)) }
    {
        if self.stands_as_numbered() {
            return Ok(None);
        }
        self.first_outside_order()
    }

    // The same, however the variables are numbered.
    fn first_outside_order(&self) -> Result<Option<usize>, Memory>
        ensures { IfOk result (λ found. MatchOption found
            (All (λ g. IsGrounded self.now g.variable) self.now.gates)
            (IsFirstUngrounded self.now)) }
    {
        match self.order() {
            Ok(_order) => Ok(None),
            Err(OrderStop::Cyclic(place)) => Ok(Some(place)),
            Err(OrderStop::Memory) => Err(Memory),
        }
    }

    // An order, however the variables are numbered.
    fn order_as_it_stands(&self) -> Result<Order, OrderStop>
        ensures ok { IfOk result (IsOrder self.now) }
        ensures cyclic { (place : ℕ) → result ≡ Err (OrderStop.Cyclic place)
            → IsFirstUngrounded self.now place }
    {
        let mut draft = self.empty_draft()?;
        self.put_round(&mut draft)?;
        if self.is_whole(&draft) {
            return Ok(Order {
                places: draft.places,
            });
        }
        self.order_by_walk(draft)
    }

    // The same where the gates don't all stand behind those that they read: a round put what could be
    // put as it stands.
    #[inline(never)]
    fn order_by_walk(&self, mut draft: Draft) -> Result<Order, OrderStop>
        requires { IsDraft self.now draft.places.items (has_number draft.settled) }
        ensures ok { IfOk result (IsOrder self.now) }
        ensures cyclic { (place : ℕ) → result ≡ Err (OrderStop.Cyclic place)
            → IsFirstUngrounded self.now place }
    {
        let walked = depth_first(*self.gates.allocator(), &self.gates)?;
        self.put_all(&walked, &mut draft)?;
        // The walk leaves every gate that can be put behind those that it reads, so that one round,
        // which finds nothing more to put, follows. The rounds need no promise of the walk.
        while self.put_round(&mut draft)? {}
        match self.first_unsettled(&draft) {
            Some(place) => Err(OrderStop::Cyclic(place)),
            None => Ok(Order {
                places: draft.places,
            }),
        }
    }

    // Whether every gate is put.
    fn is_whole(&self, draft: &Draft) -> bool
        requires { IsDraft self.now draft.now.places.items (has_number draft.now.settled) }
        ensures { result ≡ true → IsOrder self.now draft.now.places.items }
    {
        for place in 0..self.gates.len() {
            if !draft.settled.contains(self.gates[place].variable) {
                return false;
            }
        }
        true
    }

    // The first gate that isn't put.
    fn first_unsettled(&self, draft: &Draft) -> Option<usize>
        requires draft { IsDraft self.now draft.now.places.items (has_number draft.now.settled) }
        requires closed { IsClosed self.now draft.now.places.items }
        ensures none { result ≡ None → IsOrder self.now draft.now.places.items }
        ensures some { (place : ℕ) → result ≡ Some place → IsFirstUngrounded self.now place }
    {
        for (place, gate) in self.gates.iter().enumerate() {
            if !draft.settled.contains(gate.variable) {
                return Some(place);
            }
        }
        None
    }
}
