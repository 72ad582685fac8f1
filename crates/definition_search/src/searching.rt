//! The search for an existential's definition, and its block.
//!
//! Existentials are asked for in order of declaration, without ranks, as the text's rule has it:
//! first for a gate that the clauses state, else the copies. Blocks are written as they are found.

ghost use Rattle.std.specs.Prelude.{◌≡◌, ◌+◌, ◌<◌, ℕ, [], ◌∷◌, length, IfOk, OnOk, IsErrOf, Some, slice_get};
ghost use Rattle.dq_lits.specs.Formula.{Existential, IsWellFormed};
ghost use Rattle.dq_formula.specs.Prefix.{existential_variables};
ghost use Rattle.defining_nodes.specs.Definitions.{IsDefinition};
ghost use Rattle.cert_text.specs.DefinitionsRead.{block_seen, definition_seen, pair_seen};
ghost use Rattle.cert_text.specs.DefinitionBlocks.{defined, free};
ghost use Rattle.hint_log.specs.ProductiveLog.{IsProductiveLog};
ghost use Rattle.log_laws.specs.Engines.{copies, HasNone};
ghost use Rattle.oracle.specs.Limits.{IsAtSomeLimit};
ghost use Rattle.definability.specs.Defining.{IsFound, IsFreePair};
ghost use Rattle.definability.specs.Growing.{HasFewFaults};
ghost use Rattle.definition_search.specs.Texts.{AreRightBlocks, GoesOn};
ghost use Rattle.definition_search.specs.Searching.{IsSearch};

use aig_graph::{Graph, Node};
use cert_text::{Definition, DefinitionBlock, FreePair, Valuation};
use definability::{Definability, Found, Pair};
use definition_export::laws::productive_definitions_can_be_exported;
use definition_export::{TermOrder, export_definition};
use definition_proofs::Terms;
use dq_formula::Formula;
use dq_lits::Memory;
use gate_definitions::Gates;
use hint_log::{Log, Stop};
use log_laws::laws::engines_leave_the_rest;
use oracle::Oracle;
use std::alloc::Global;

// More gates or lines than this a block can't have.
const MOST: usize = 1_000_000_000;

/// What is kept from one existential to the next.
#[derive(Drop)]
pub(crate) struct Search {
    alloc: Global,
    gates: Gates,
    definability: Definability,
    terms: Terms,
    order: TermOrder,
    graph: Graph,
}

impl Search {
    /// Gives the copies to the oracle; nothing was asked for.
    pub(crate) fn new<O: Oracle>(
        alloc: Global,
        oracle: &mut O,
        f: &Formula,
        log: &mut Log,
    ) -> Result<Search, Memory>
        requires fit { O.Fits oracle.old log.old }
        requires formula { IsWellFormed f.now }
        requires productive { IsProductiveLog f.now log.old.entries }
        requires none { HasNone copies log.old.entries }
        requires few { HasFewFaults log.old.entries }
        ensures fit { O.Fits oracle.new log.new }
        ensures goes_on { GoesOn f.now log.old log.new }
        ensures search { IfOk result (λ search. IsSearch f.now search 0 log.new.entries) }
    {
        engines_leave_the_rest();
        let gates = Gates::new(alloc, f)?;
        let definability = Definability::whole(alloc, oracle, f, log)?;
        let terms = Terms::new(alloc, oracle, log)?;
        Ok(Search {
            alloc,
            gates,
            definability,
            terms,
            order: TermOrder::new(alloc),
            graph: Graph::new(alloc, f.universals().len() + f.existentials().len()),
        })
    }

    /// The block of the existential at a place.
    pub(crate) fn block<O: Oracle>(
        &mut self,
        oracle: &mut O,
        f: &Formula,
        place: usize,
        log: &mut Log,
    ) -> Result<DefinitionBlock, Stop>
        requires fit { O.Fits oracle.old log.old }
        requires formula { IsWellFormed f.now }
        requires search { IsSearch f.now self.old place log.old.entries }
        requires place { place < length f.now.existentials }
        ensures fit { O.Fits oracle.new log.new }
        ensures goes_on { GoesOn f.now log.old log.new }
        ensures search { OnOk result (IsSearch f.now self.new (place + 1) log.new.entries) }
        ensures block { (y : ℕ) → slice_get (existential_variables f.now) place ≡ Some y
            → IfOk result (λ b. AreRightBlocks f.now (y ∷ []) (block_seen b ∷ [])) }
        ensures limit { IsErrOf result Stop.Limit → IsAtSomeLimit log.new }
    {
        match self.find(oracle, f, place, log)? {
            Found::Defined(node) => {
                let definition = self.definition(oracle, f, place, node, log)?;
                Ok(DefinitionBlock::Defined(definition))
            }
            Found::Free(pair) => {
                f.every_formula_is_lawful();
                Ok(DefinitionBlock::Free(free_pair(f.existentials()[place], pair)))
            }
        }
    }

    // The gate that the clauses state of an existential, else what the copies say of it.
    fn find<O: Oracle>(
        &mut self,
        oracle: &mut O,
        f: &Formula,
        place: usize,
        log: &mut Log,
    ) -> Result<Found, Stop>
        requires fit { O.Fits oracle.old log.old }
        requires formula { IsWellFormed f.now }
        requires search { IsSearch f.now self.old place log.old.entries }
        requires place { place < length f.now.existentials }
        ensures fit { O.Fits oracle.new log.new }
        ensures goes_on { GoesOn f.now log.old log.new }
        ensures search { IsSearch f.now self.new place log.new.entries }
        ensures found { (e : Existential) → slice_get f.now.existentials place ≡ Some e
            → IfOk result (IsFound f.now [] self.new.graph e) }
        ensures limit { IsErrOf result Stop.Limit → IsAtSomeLimit log.new }
    {
        engines_leave_the_rest();
        f.every_formula_is_lawful();
        let y = f.existentials()[place];
        if let Some(node) = self.gates.read(f, &[], y, &mut self.graph)? {
            return Ok(Found::Defined(node));
        }
        let found = self
            .definability
            .define(oracle, &mut self.graph, f, &[], y, log)?;
        Ok(found)
    }

    // The block of a definition that was found: it is proved on the first copy.
    fn definition<O: Oracle>(
        &mut self,
        oracle: &mut O,
        f: &Formula,
        place: usize,
        node: Node,
        log: &mut Log,
    ) -> Result<Definition, Stop>
        requires fit { O.Fits oracle.old log.old }
        requires formula { IsWellFormed f.now }
        requires search { IsSearch f.now self.old place log.old.entries }
        requires place { place < length f.now.existentials }
        requires definition { (e : Existential) → slice_get f.now.existentials place ≡ Some e
            → IsDefinition f.now [] self.old.graph e node }
        ensures fit { O.Fits oracle.new log.new }
        ensures goes_on { GoesOn f.now log.old log.new }
        ensures search { OnOk result (IsSearch f.now self.new (place + 1) log.new.entries) }
        ensures block { (y : ℕ) → slice_get (existential_variables f.now) place ≡ Some y
            → IfOk result (λ d. AreRightBlocks f.now (y ∷ []) (defined (definition_seen d) ∷ [])) }
        ensures limit { IsErrOf result Stop.Limit → IsAtSomeLimit log.new }
    {
        engines_leave_the_rest();
        productive_definitions_can_be_exported();
        f.every_formula_is_lawful();
        let y = f.existentials()[place];
        let proved = self
            .terms
            .prove(oracle, &self.definability, &self.graph, f, y, node, log)?;
        self.order.read_on(log)?;
        let d = export_definition(self.alloc, log, &self.order, proved.id, f, y, proved.leaf)?;
        if d.gates.len() > MOST || d.steps.len() > MOST {
            return Err(Stop::Memory);
        }
        Ok(d)
    }
}

// The block of an existential without a definition.
fn free_pair(existential: u64, pair: Pair) -> FreePair
    ensures existential { result.existential ≡ existential }
    ensures first_row { result.first.row ≡ pair.row1 }
    ensures first_values { result.first.values ≡ pair.values1 }
    ensures second_row { result.second.row ≡ pair.row2 }
    ensures second_values { result.second.values ≡ pair.values2 }
{
    FreePair {
        existential,
        first: Valuation {
            row: pair.row1,
            values: pair.values1,
        },
        second: Valuation {
            row: pair.row2,
            values: pair.values2,
        },
    }
}
