//! Whether an existential is defined, and by which node.

ghost use Rattle.std.specs.Prelude.{◌≡◌, ◌+◌, ℕ, true, length, IfOk, IsErrOf, IsSome, Some};
ghost use Rattle.dq_lits.specs.Formula.{Existential, IsWellFormed, existential_of};
ghost use Rattle.hint_log.specs.Growth.{Grew};
ghost use Rattle.aig_graph.specs.Made.{Extends};
ghost use Rattle.log_laws.specs.Engines.{copies, IsAddedBy};
ghost use Rattle.oracle.specs.Limits.{IsAtSomeLimit};
ghost use Rattle.definability.specs.Copies.{IsDefinability};
ghost use Rattle.definability.specs.Defining.{IsFound};
ghost use Rattle.definability.specs.Growing.{HasSameGivens};

use crate::asking::Question;
use crate::definability::Definability;
use crate::guessing::Guess;
use aig_graph::{Graph, Node};
use dq_formula::Formula;
use dq_lits::Row;
use hint_log::{Log, Stop};
use oracle::Oracle;

/// Two rows, each with values of the existentials, that make the matrix true: what a definition of
/// the existential may read is the same in both, and it is true in the first and false in the
/// second.
#[derive(Drop)]
pub struct Pair {
    pub row1: Row,
    pub values1: Row,
    pub row2: Row,
    pub values2: Row,
}

/// Whether an existential has a definition.
#[derive(Drop)]
pub enum Found {
    /// It has: this node.
    Defined(Node),
    /// It has none.
    Free(Pair),
}

impl Definability {
    /// A definition of an existential over the universals that it sees and the existentials that
    /// come before it by these ranks and see no more, or values that show that there is none. It
    /// stops for want of memory or at the log's limit, and may be called again then. The log gets
    /// what was learned and an answer.
    pub fn define<O: Oracle>(
        &self,
        oracle: &mut O,
        graph: &mut Graph,
        f: &Formula,
        ranks: &[usize],
        y: u64,
        log: &mut Log,
    ) -> Result<Found, Stop>
        requires fit { O.Fits oracle.old log.old }
        requires formula { IsWellFormed f.now }
        requires definability { IsDefinability f.now self.now log.old.entries }
        requires existential { IsSome (existential_of f.now y) }
        requires inputs { graph.old.inputs ≡ length f.now.universals + length f.now.existentials }
        ensures fit { O.Fits oracle.new log.new }
        ensures definability { IsDefinability f.now self.now log.new.entries }
        ensures grew { (group : ℕ)
            → Grew (IsAddedBy f.now copies group true log.old.entries) log.old log.new }
        ensures same_givens { HasSameGivens log.old.entries log.new.entries }
        ensures extends { Extends graph.old graph.new }
        ensures found { (e : Existential) → existential_of f.now y ≡ Some e
            → IfOk result (IsFound f.now ranks.now graph.new e) }
        ensures limit { IsErrOf result Stop.Limit → IsAtSomeLimit log.new }
    {
        f.every_formula_is_lawful();
        let places = self.shared_copies(f, ranks, y)?;
        let others = Row::new(self.alloc, f.universals().len())?;
        let question = Question {
            f,
            places: &places,
            y,
            conditions: &[],
            others: &others,
        };
        match self.ask(oracle, graph, &question, log)? {
            Guess::Node(node) => Ok(Found::Defined(node)),
            Guess::Pair(pair) => Ok(Found::Free(pair)),
        }
    }
}
