//! The definitions that the clauses force, which are asked for before the first candidates.
//!
//! An existential in no clause is asked for nothing. After 32 questions in a row that found none no
//! definition is asked for; gates are read off all the same.

ghost use Rattle.std.specs.Prelude.{◌≡◌, ◌<◌, ℕ, true, List, [], length, replicate, None, Some, All, OnOk, IfOk, IfSome, IsErrOf, slice_get, slice_set};
ghost use Rattle.dq_lits.specs.Formula.{Existential, IsWellFormed};
ghost use Rattle.aig_graph.specs.Made.{Extends};
ghost use Rattle.hint_log.specs.Growth.{Grew};
ghost use Rattle.definability.specs.Copies.{IsDefinability};
ghost use Rattle.definability.specs.Defining.{IsFound};
ghost use Rattle.known_functions.specs.Guessing.{HasAsked, LeavesKnown, MayAsk};
ghost use Rattle.known_functions.specs.Searching.{HasInputs, IsAsked, definition_in};
ghost use Rattle.known_functions.specs.Forcing.{AreKnownIn};
ghost use Rattle.oracle.specs.Limits.{IsAtSomeLimit};

use crate::questions::Questions;
use crate::suspects::Defined;
use aig_graph::{Graph, Node};
use candidate_functions::Samples;
use definability::{Definability, Found};
use definition_order::existentials_in_order;
use dq_formula::{Formula, Rule};
use dq_lits::{Memory, Row};
use gate_definitions::Gates;
use hint_log::{Log, Stop};
use oracle::Oracle;
use std::alloc::Global;

/// What is known of the existentials of a formula.
#[derive(Drop)]
pub struct Definitions {
    gates: Gates,
    /// By which ranks a definition may read others.
    pub ranks: Vec<usize>,
    pub(crate) questions: Questions,
    /// The node of each existential that has a definition, in order of declaration.
    pub nodes: Vec<Option<Node>>,
    /// Bits that those without a definition are forced to have.
    pub rules: Vec<Rule>,
    /// Nodes that those without a definition equal under conditions, in order of declaration.
    pub guesses: Vec<Option<Node>>,
}

// An existential of a formula, by its place in order of declaration, and the copies of the matrix
// that questions about it are asked of.
#[derive(Drop)]
pub(crate) struct ExistentialAt<'f, 'p> {
    pub f: &'f Formula,
    pub definability: &'p Definability,
    pub place: usize,
}

// A formula's existentials in the order in which they are asked for, by their places, and the
// copies of its matrix.
#[derive(Drop)]
struct Order<'f, 'p, 's> {
    f: &'f Formula,
    definability: &'p Definability,
    places: &'s [usize],
}

impl Definitions {
    // Nothing is known yet.
    fn none(alloc: Global, f: &Formula) -> Result<Definitions, Memory>
        ensures { (graph : _) → IfOk result (AreKnownIn f.now graph) }
    {
        let gates = Gates::new(alloc, f)?;
        let mut definitions = Definitions::empty(alloc, gates);
        match definitions.begin(f) {
            Ok(()) => Ok(definitions),
            Err(e) => {
                drop(definitions);
                Err(e)
            }
        }
    }

    // Of no formula yet.
    fn empty(alloc: Global, gates: Gates) -> Definitions
        ensures rules { result.rules.items ≡ [] }
        ensures guesses { result.guesses.items ≡ [] }
    {
        Definitions {
            gates,
            ranks: Vec::new(alloc),
            questions: Questions::none(alloc),
            nodes: Vec::new(alloc),
            rules: Vec::new(alloc),
            guesses: Vec::new(alloc),
        }
    }

    // Makes them those of a formula of which nothing is known yet.
    fn begin(&mut self, f: &Formula) -> Result<(), Memory>
        requires rules { self.old.rules.items ≡ [] }
        requires guesses { self.old.guesses.items ≡ [] }
        ensures { (graph : _) → OnOk result (AreKnownIn f.now graph self.new) }
    {
        let ranks = self.gates.ranks(f)?;
        self.questions.begin(f)?;
        let nodes = no_nodes(self.questions.alloc, f.existentials().len())?;
        self.ranks = ranks;
        self.nodes = nodes;
        Ok(())
    }

    /// What is known of a formula that this row refutes: nothing is asked of it.
    pub fn refuted(alloc: Global, f: &Formula, row: Row) -> Result<Definitions, Memory>
        ensures { (graph : _) → IfOk result (AreKnownIn f.now graph) }
    {
        let mut definitions = Definitions::none(alloc, f)?;
        match definitions.questions.conditions.keep_row(row) {
            Ok(()) => Ok(definitions),
            Err(e) => {
                drop(definitions);
                Err(e)
            }
        }
    }

    /// The gates that the clauses state of a formula's existentials. Nothing is asked of it.
    pub fn stated(alloc: Global, graph: &mut Graph, f: &Formula) -> Result<Definitions, Memory>
        requires { HasInputs f.now graph.old }
        ensures extends { Extends graph.old graph.new }
        ensures known { IfOk result (AreKnownIn f.now graph.new) }
    {
        let mut definitions = Definitions::none(alloc, f)?;
        match definitions.read_stated(graph, f) {
            Ok(()) => Ok(definitions),
            Err(e) => {
                drop(definitions);
                Err(e)
            }
        }
    }

    // Reads the gates that the clauses state, and looks for the clauses that these don't make true.
    fn read_stated(&mut self, graph: &mut Graph, f: &Formula) -> Result<(), Memory>
        requires inputs { HasInputs f.now graph.old }
        requires known { AreKnownIn f.now graph.old self.old }
        ensures extends { Extends graph.old graph.new }
        ensures known { OnOk result (AreKnownIn f.now graph.new self.new) }
    {
        self.read_gates(graph, f)?;
        self.find_suspects(f, graph)?;
        Ok(())
    }

    /// Rows at which no function of some existential makes all clauses true, if the questions found
    /// such. No contract speaks of them: who uses one tests it.
    pub fn refuting_rows(&self) -> &[Row] {
        self.questions.conditions.rows()
    }

    /// What the questions found that makes the matrix true, for the trees. No contract speaks of it.
    pub fn samples(&self) -> &Samples {
        &self.questions.samples
    }

    /// The numbers of the clauses, ascending from 0 on, that no definition makes true by itself; none
    /// where that isn't known. No contract speaks of them: who uses one takes it for a guess.
    pub fn suspects(&self) -> &[usize] {
        self.questions.conditions.suspects()
    }

    // Looks for the clauses that no definition makes true.
    fn find_suspects(&mut self, f: &Formula, graph: &Graph) -> Result<(), Memory>
        ensures left { LeavesKnown self.old self.new }
    {
        let defined = Defined {
            f,
            graph,
            nodes: &self.nodes,
        };
        self.questions
            .conditions
            .find_suspects(self.questions.alloc, &defined)
    }

    // Notes what was found of the existential at a place.
    fn note(&mut self, place: usize, found: Found)
        requires place { place < length self.old.nodes.items }
        ensures rules { self.new.rules.items ≡ self.old.rules.items }
        ensures ranks { self.new.ranks.items ≡ self.old.ranks.items }
        ensures guesses { self.new.guesses.items ≡ self.old.guesses.items }
        ensures nodes { self.new.nodes.items
            ≡ slice_set self.old.nodes.items place (definition_in found) }
    {
        self.nodes[place] = match found {
            Found::Defined(node) => Some(node),
            Found::Free(_) => None,
        };
    }

    // Reads the gates of all existentials.
    fn read_gates(&mut self, graph: &mut Graph, f: &Formula) -> Result<(), Memory>
        requires inputs { HasInputs f.now graph.old }
        requires known { AreKnownIn f.now graph.old self.old }
        ensures extends { Extends graph.old graph.new }
        ensures known { OnOk result (AreKnownIn f.now graph.new self.new) }
    {
        for place in 0..f.existentials().len() {
            self.read_gate(graph, f, place)?;
        }
        Ok(())
    }

    // Reads the gate that the clauses state of the existential at a place, if they state one.
    fn read_gate(&mut self, graph: &mut Graph, f: &Formula, place: usize) -> Result<(), Memory>
        requires place { place < length f.now.existentials }
        requires inputs { HasInputs f.now graph.old }
        requires known { AreKnownIn f.now graph.old self.old }
        ensures extends { Extends graph.old graph.new }
        ensures known { OnOk result (AreKnownIn f.now graph.new self.new) }
    {
        f.every_formula_is_lawful();
        let y = f.existentials()[place];
        let Some(node) = self.gates.read(f, &self.ranks, y, graph)? else {
            return Ok(());
        };
        self.note(place, Found::Defined(node));
        Ok(())
    }

    // Asks for definitions of the existentials, and then for guesses.
    fn find_and_guess<O: Oracle>(
        &mut self,
        oracle: &mut O,
        definability: &Definability,
        graph: &mut Graph,
        f: &Formula,
        log: &mut Log,
    ) -> Result<(), Stop>
        requires fit { O.Fits oracle.old log.old }
        requires may { MayAsk f.now graph.old definability.now log.old.entries }
        requires known { AreKnownIn f.now graph.old self.old }
        ensures fit { O.Fits oracle.new log.new }
        ensures asked { HasAsked f.now graph.old graph.new definability.now log.old log.new }
        ensures known { OnOk result (AreKnownIn f.now graph.new self.new) }
        ensures limit { IsErrOf result Stop.Limit → IsAtSomeLimit log.new }
    {
        let places = existentials_in_order(self.questions.alloc, f, &self.ranks)?;
        self.questions.set_order(&places)?;
        let order = Order {
            f,
            definability,
            places: &places,
        };
        self.find_all(oracle, graph, &order, log)?;
        self.guess_all(oracle, definability, graph, f, log)
    }

    // Asks for definitions of the existentials in this order.
    fn find_all<O: Oracle>(
        &mut self,
        oracle: &mut O,
        graph: &mut Graph,
        order: &Order,
        log: &mut Log,
    ) -> Result<(), Stop>
        requires fit { O.Fits oracle.old log.old }
        requires may { MayAsk order.now.f.now graph.old order.now.definability.now log.old.entries }
        requires known { AreKnownIn order.now.f.now graph.old self.old }
        requires places { All (λ p. p < length order.now.f.now.existentials) order.now.places.now }
        ensures fit { O.Fits oracle.new log.new }
        ensures asked { HasAsked order.now.f.now graph.old graph.new order.now.definability.now
            log.old log.new }
        ensures known { OnOk result (AreKnownIn order.now.f.now graph.new self.new) }
        ensures limit { IsErrOf result Stop.Limit → IsAtSomeLimit log.new }
    {
        for place in order.places {
            let existential = ExistentialAt {
                f: order.f,
                definability: order.definability,
                place: *place,
            };
            self.find(oracle, graph, &existential, log)?;
        }
        Ok(())
    }

    // Asks for a definition of an existential, unless it is known to have none.
    fn find<O: Oracle>(
        &mut self,
        oracle: &mut O,
        graph: &mut Graph,
        existential: &ExistentialAt,
        log: &mut Log,
    ) -> Result<(), Stop>
        requires fit { O.Fits oracle.old log.old }
        requires may { MayAsk existential.now.f.now graph.old existential.now.definability.now
            log.old.entries }
        requires known { AreKnownIn existential.now.f.now graph.old self.old }
        requires place { existential.now.place < length existential.now.f.now.existentials }
        ensures fit { O.Fits oracle.new log.new }
        ensures asked { HasAsked existential.now.f.now graph.old graph.new
            existential.now.definability.now log.old log.new }
        ensures known { OnOk result (AreKnownIn existential.now.f.now graph.new self.new) }
        ensures limit { IsErrOf result Stop.Limit → IsAtSomeLimit log.new }
    {
        if !self.questions.is_open(existential.place) {
            return Ok(());
        }
        existential.f.every_formula_is_lawful();
        let Some(found) = self.ask(oracle, graph, existential, log)? else {
            return Ok(());
        };
        self.questions.learn(existential.f, &found)?;
        self.note(existential.place, found);
        Ok(())
    }

    // The gate that the clauses state of an existential, else what the solver says of its
    // definition; nothing where it isn't worth asking.
    fn ask<O: Oracle>(
        &mut self,
        oracle: &mut O,
        graph: &mut Graph,
        existential: &ExistentialAt,
        log: &mut Log,
    ) -> Result<Option<Found>, Stop>
        requires fit { O.Fits oracle.old log.old }
        requires may { MayAsk existential.now.f.now graph.old existential.now.definability.now
            log.old.entries }
        requires place { existential.now.place < length existential.now.f.now.existentials }
        ensures fit { O.Fits oracle.new log.new }
        ensures same { self.new ≡ self.old }
        ensures asked { HasAsked existential.now.f.now graph.old graph.new
            existential.now.definability.now log.old log.new }
        ensures found { (e : Existential)
            → slice_get existential.now.f.now.existentials existential.now.place ≡ Some e
            → IfOk result (λ found. IfSome found (IsFound existential.now.f.now
            self.old.ranks.items graph.new e)) }
        ensures limit { IsErrOf result Stop.Limit → IsAtSomeLimit log.new }
    {
        let f = existential.f;
        f.every_formula_is_lawful();
        let y = f.existentials()[existential.place];
        if let Some(node) = self.gates.read(f, &self.ranks, y, graph)? {
            return Ok(Some(Found::Defined(node)));
        }
        if self.questions.are_in_vain() {
            return Ok(None);
        }
        let found = existential
            .definability
            .define(oracle, graph, f, &self.ranks, y, log)?;
        Ok(Some(found))
    }
}

pub(crate) fn no_nodes(alloc: Global, n: usize) -> Result<Vec<Option<Node>>, Memory>
    ensures { IfOk result (λ nodes. nodes.items ≡ replicate n None) }
{
    Ok(vec![in alloc; None; n]?)
}

/// Asks for a definition of each existential that may have one, those that see less first, and then
/// for guesses of the others. It stops for want of memory or at the log's limit.
pub fn find_definitions<O: Oracle>(
    alloc: Global,
    oracle: &mut O,
    definability: &Definability,
    graph: &mut Graph,
    f: &Formula,
    log: &mut Log,
) -> Result<Definitions, Stop>
    requires fit { O.Fits oracle.old log.old }
    requires may { MayAsk f.now graph.old definability.now log.old.entries }
    ensures fit { O.Fits oracle.new log.new }
    ensures asked { HasAsked f.now graph.old graph.new definability.now log.old log.new }
    ensures known { IfOk result (AreKnownIn f.now graph.new) }
    ensures limit { IsErrOf result Stop.Limit → IsAtSomeLimit log.new }
{
    let mut definitions = Definitions::none(alloc, f)?;
    match definitions.find_and_guess(oracle, definability, graph, f, log) {
        Ok(()) => Ok(definitions),
        Err(e) => {
            drop(definitions);
            Err(e)
        }
    }
}
