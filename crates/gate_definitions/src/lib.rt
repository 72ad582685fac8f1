//! Definitions of existentials that the clauses state: the gates of a circuit that was written in
//! clauses.
//!
//! Nothing is asked of a solver: a gate is read off the clauses on its output. Most are of one of a
//! few forms; any other function of few inputs is found as a table, whose rows the clauses decide.
//! What isn't found costs time alone.
#![tactic(auto)]

ghost use Rattle.std.specs.Prelude.{◌≡◌, ◌<◌, ◌+◌, length, IfOk, IsSome, Some};
ghost use Rattle.dq_lits.specs.Formula.{Existential, existential_of};
ghost use Rattle.aig_graph.specs.declared.nodes.Node.{Node};
ghost use Rattle.aig_graph.specs.Made.{Extends};
ghost use Rattle.defining_nodes.specs.Definitions.{IsDefinition};

use aig_graph::{Graph, Node};
use dq_formula::Formula;
use dq_lits::Memory;
use forms::find_gate;
use index::Index;
use outputs::{Output, output_at};
use ranks::Placing;
use std::alloc::Global;
use tree_nodes::table_node;
use wires::Wires;

mod choices;
mod clauses;
mod conjunctions;
mod coverage;
mod forms;
mod index;
mod literals;
mod outputs;
mod ranks;
mod tables;
mod tree_nodes;
mod trees;
mod wires;

/// The clauses of a formula, in which gates are looked for.
#[derive(Drop)]
pub struct Gates {
    alloc: Global,
    index: Index,
}

impl Gates {
    /// The clauses by their existentials. It takes time and memory by the number of existentials
    /// and of literals in clauses; the only error is want of memory.
    pub fn new(alloc: Global, f: &Formula) -> Result<Gates, Memory> {
        Ok(Gates {
            alloc,
            index: Index::new(alloc, f)?,
        })
    }

    /// A rank for each existential, by place in order of declaration, such that gates can be read:
    /// behind a gate's inputs its output, as far as the clauses don't go round in a circle. No
    /// contract says so, since definitions are right by any ranks. Time and memory follow the
    /// literals in clauses and the dependency sets, but for sorting, and for tables, which are
    /// looked for anew where the clauses decide twice as many rows; the only error is want of
    /// memory.
    pub fn ranks(&self, f: &Formula) -> Result<Vec<usize>, Memory> {
        let mut placing = Placing::new(self.alloc, f, &self.index, self.wires(f)?);
        placing.place_all()?;
        Ok(placing.ranks)
    }

    // The gates that the clauses may state.
    fn wires(&self, f: &Formula) -> Result<Wires, Memory> {
        let mut wires = Wires::new(self.alloc, f.set_leaders(self.alloc)?)?;
        self.put_each(f, &mut wires)?;
        Ok(wires)
    }

    fn put_each(&self, f: &Formula, wires: &mut Wires) -> Result<(), Memory> {
        for place in 0..f.existentials().len() {
            self.put_wires(f, place, wires)?;
        }
        Ok(())
    }

    // Puts the gates whose output stands at a place.
    fn put_wires(&self, f: &Formula, place: usize, wires: &mut Wires) -> Result<(), Memory>
        requires { place < length f.now.existentials }
    {
        let output = output_at(f, &[], &self.index, place);
        wires.put_all(&output, place)
    }

    /// A definition of an existential that the clauses state, over what such a definition may read
    /// by these ranks: a conjunction or a disjunction of literals, one literal, a constant, a
    /// choice between two literals by a third, an exclusive or of two; else a table of at most ten
    /// inputs, each of whose rows is decided by a clause that has no other variables. None is found
    /// where the clauses state no such gate. Time follows the literals of the clauses on the
    /// existential, but for maps. The only error is want of memory; a refused call leaves the graph
    /// as it was, but for gates that were made.
    pub fn read(
        &self,
        f: &Formula,
        ranks: &[usize],
        y: u64,
        graph: &mut Graph,
    ) -> Result<Option<Node>, Memory>
        requires existential { IsSome (existential_of f.now y) }
        requires inputs { graph.old.inputs ≡ length f.now.universals + length f.now.existentials }
        ensures extends { Extends graph.old graph.new }
        ensures gate { (e : Existential) → existential_of f.now y ≡ Some e
            → IfOk result (λ found. (node : Node) → found ≡ Some node
            → IsDefinition f.now ranks.now graph.new e node) }
    {
        f.every_formula_is_lawful();
        let output = Output {
            f,
            ranks,
            y,
            numbers: self.index.on(f, y),
        };
        match find_gate(self.alloc, &output)? {
            Some(gate) => {
                let node = gate.node(self.alloc, &output, graph)?;
                Ok(Some(node))
            }
            None => table_node(self.alloc, &output, graph),
        }
    }
}
