//! One check of a circuit: its gates and faults, and a search for a row that makes a clause false.

ghost use Rattle.std.specs.Prelude.{◌≡◌, ◌≤◌, ◌<◌, ◌+◌, ℕ, Bool, true, false, List, length, map, Contains, All, OnOk, IfOk, IfSome, IsErrOf, Ok, Some, None, [], ◌∷◌};
ghost use Rattle.dq_lits.specs.Formula.{IsWellFormed, declared};
ghost use Rattle.dq_lits.specs.Literal.{positive, variable_of};
ghost use Rattle.dq_lits.specs.Row.{bit_of};
ghost use Rattle.hint_log.specs.Entries.{ProofLog, rounds_of};
ghost use Rattle.hint_log.specs.Growth.{Grew};
ghost use Rattle.hint_log.specs.Origins.{IsLeafOf};
ghost use Rattle.hint_log.specs.ProductiveLog.{fault_groups, fault_room};
ghost use Rattle.log_laws.specs.Engines.{circuits, IsAddedBy};
ghost use Rattle.aig_graph.specs.Graph.{IsNode, node_value};
ghost use Rattle.aig_graph.specs.Outputs.{outputs_of, ReadsUniversals};
ghost use Rattle.circuit_cnf.specs.Checking.{gate_groups, group_of, IsChecker};
ghost use Rattle.circuit_cnf.specs.Failing.{IsFailure, HasFalseClause, IsFailing, is_silent};
ghost use Rattle.circuit_cnf.specs.Faults.{leaf_of};
ghost use Rattle.circuit_cnf.specs.Gates.{AreKnown, GrewByGates};
ghost use Rattle.circuit_cnf.specs.Shown.{HoldEverywhere, IsShownSince};
ghost use Rattle.circuit_cnf.specs.Saying.{given_after, given_before, leaf_in};
ghost use Rattle.circuit_cnf.specs.Turning.{AreFailing, AreLeavesOf, HasTurned, IsAtTurnLimit, IsHeldBy, IsPrepared, IsSaying, is_silent_attempt, is_silent_search};

use crate::batches::mark_live;
use crate::checkers::Checker;
use crate::circuits::Circuit;
use crate::failures::false_clause;
use crate::fault_clauses::{ClauseSelection, Faults};
use crate::laws::shown_outputs_hold;
use crate::leaves::{Cone, cone_literals, node_leaves};
use aig_graph::{Graph, Node};
use dq_formula::Formula;
use dq_lits::{Lit, Memory, Row};
use hint_log::{Leaf, Log, Stop};
use oracle::{Answer, Oracle};
use std::alloc::Global;

/// Whether outputs make every clause true.
#[derive(Drop)]
pub enum Turn {
    /// They do, on every row; the logged answer of this id shows it.
    Holds(u64),
    /// They don't: a row, the outputs' values there, and the number, from 1 on, of a clause that is
    /// false with them.
    Fails { row: Row, values: Row, j: u64 },
}

impl Checker {
    /// Whether every clause is true on every row, where the existentials have the values of these
    /// outputs, in order. It stops for want of memory or at the log's limit. Before the next call
    /// the log needs a round, once the faults of this one were given. It looks at the
    /// clauses of the suspects' numbers, from 0 on, first, and at nothing but them where one of them
    /// is false; no more comes of them, whichever they are.
    pub fn turn<O: Oracle>(
        &mut self,
        oracle: &mut O,
        graph: &Graph,
        f: &Formula,
        outputs: &[Node],
        suspects: &[usize],
        log: &mut Log,
    ) -> Result<Turn, Stop>
        requires fit { O.Fits oracle.old log.old }
        requires checker { IsChecker f.now self.old log.old.entries }
        requires formula { IsWellFormed f.now }
        requires an_input_a_universal { length f.now.universals ≤ graph.now.inputs }
        requires nodes { All (IsNode graph.now) outputs.now }
        requires read_universals { All (ReadsUniversals f.now graph.now) outputs.now }
        requires a_node_an_existential { length outputs.now ≡ length f.now.existentials }
        requires few { length (fault_groups log.old.entries) < fault_room log.old.entries }
        ensures fit { O.Fits oracle.new log.new }
        ensures turned { HasTurned f.now self.old self.new (is_silent result) log.old log.new }
        ensures holds { (id : ℕ) → result ≡ Ok (Turn.Holds id)
            → HoldEverywhere f.now (outputs_of f.now graph.now outputs.now) }
        ensures shown { (id : ℕ) → result ≡ Ok (Turn.Holds id)
            → IsShownSince f.now graph.now outputs.now log.old.entries log.new.entries id }
        ensures fails { (row values : List Bool) (j : ℕ) → result ≡ Ok (Turn.Fails row values j)
            → IsFailure f.now (outputs_of f.now graph.now outputs.now) row values j }
        ensures limit { IsErrOf result Stop.Limit
            → IsAtTurnLimit self.new log.old.entries log.new }
    {
        shown_outputs_hold();
        self.prepare(oracle, log)?;
        let circuit = Circuit { graph, f, outputs };
        let leaves = self.output_leaves(oracle, &circuit, log)?;
        let first = self.first_clauses(f, &leaves, suspects)?;
        let found = self.search(oracle, &circuit, &leaves, &first, log)?;
        self.note(&found);
        Ok(found)
    }

    // Finishes what an earlier turn began, and begins a new group for this turn's gates.
    fn prepare<O: Oracle>(&mut self, oracle: &mut O, log: &mut Log) -> Result<(), Memory>
        requires fit { O.Fits oracle.old log.old }
        requires known { AreKnown self.old.gates log.old.entries }
        requires few { length (fault_groups log.old.entries) < fault_room log.old.entries }
        ensures fit { O.Fits oracle.new log.new }
        ensures turned { IsPrepared self.old self.new log.old log.new }
        ensures ready { OnOk result (self.new.gates.unfinished ≡ None) }
    {
        self.gates.finish(oracle, log)?;
        if self.has_batch() {
            self.gates.begin_group(oracle, &self.tenant, log)?;
            self.batched = self.gates.variables.len();
        }
        Ok(())
    }

    // The leaves of the outputs, whose gates are named, and given where they weren't.
    fn output_leaves<O: Oracle>(
        &mut self,
        oracle: &mut O,
        circuit: &Circuit,
        log: &mut Log,
    ) -> Result<Vec<Leaf>, Memory>
        requires fit { O.Fits oracle.old log.old }
        requires checker { IsChecker circuit.now.f.now self.old log.old.entries }
        requires ready { self.old.gates.unfinished ≡ None }
        requires nodes { All (IsNode circuit.now.graph.now) circuit.now.outputs.now }
        requires read_universals { All (ReadsUniversals circuit.now.f.now circuit.now.graph.now)
            circuit.now.outputs.now }
        requires few { length (fault_groups log.old.entries) < fault_room log.old.entries }
        ensures fit { O.Fits oracle.new log.new }
        ensures checker { IsChecker circuit.now.f.now self.new log.new.entries }
        ensures groups { gate_groups self.new ≡ gate_groups self.old }
        ensures grew { GrewByGates (group_of self.old) log.old log.new }
        ensures faults { fault_groups log.new.entries ≡ fault_groups log.old.entries }
        ensures inputs { self.new.inputs ≡ self.old.inputs }
        ensures ready { OnOk result (self.new.gates.unfinished ≡ None) }
        ensures leaves { IfOk result (λ leaves. AreLeavesOf circuit.now.f.now circuit.now.graph.now
            log.new.entries circuit.now.outputs.now leaves.items) }
    {
        let graph = circuit.graph;
        graph.every_graph_is_lawful();
        let mut marks = Row::new(self.alloc, graph.len())?;
        graph.cones(circuit.outputs, &mut marks);
        let cone = Cone {
            graph,
            marks: &marks,
            f: circuit.f,
            inputs: &self.inputs,
        };
        let literals = cone_literals(self.alloc, &mut self.gates, oracle, &cone, log)?;
        mark_live(&mut self.live, &self.gates, &literals)?;
        let leaves = node_leaves(self.alloc, &self.inputs, &literals, circuit.outputs)?;
        Ok(leaves)
    }

    // Searches for a row at which a clause is false under these leaves. Their faults go to a new
    // group: those of the clauses that come first, and the others only where no clause is false at
    // the row that was found by these. So a row that falsifies one of the first costs no more than
    // it needs.
    fn search<O: Oracle>(
        &self,
        oracle: &mut O,
        circuit: &Circuit,
        leaves: &[Leaf],
        first: &Row,
        log: &mut Log,
    ) -> Result<Turn, Stop>
        requires fit { O.Fits oracle.old log.old }
        requires checker { IsChecker circuit.now.f.now self.now log.old.entries }
        requires ready { self.now.gates.unfinished ≡ None }
        requires formula { IsWellFormed circuit.now.f.now }
        requires nodes { All (IsNode circuit.now.graph.now) circuit.now.outputs.now }
        requires leaves { AreLeavesOf circuit.now.f.now circuit.now.graph.now log.old.entries
            circuit.now.outputs.now leaves.now }
        requires a_bit_a_clause { length first.now ≡ length circuit.now.f.now.matrix }
        requires few { length (fault_groups log.old.entries) < fault_room log.old.entries }
        ensures fit { O.Fits oracle.new log.new }
        ensures turned { HasTurned circuit.now.f.now self.now self.now (is_silent result) log.old
            log.new }
        ensures held { (id : ℕ) → result ≡ Ok (Turn.Holds id)
            → IsHeldBy circuit.now.f.now
            (leaf_of circuit.now.f.now self.now.inputs.items leaves.now) log.old.entries
            log.new.entries id }
        ensures fails { (row values : List Bool) (j : ℕ) → result ≡ Ok (Turn.Fails row values j)
            → IsFailure circuit.now.f.now (outputs_of circuit.now.f.now circuit.now.graph.now
            circuit.now.outputs.now) row values j }
        ensures limit { IsErrOf result Stop.Limit → IsAtTurnLimit self.now log.old.entries log.new }
    {
        let f = circuit.f;
        let group = oracle.group(&self.tenant, log)?;
        let faults = Faults {
            group: &group,
            f,
            inputs: &self.inputs,
            outputs: leaves,
        };
        let bads = faults.name_bads(self.alloc, oracle, log)?;
        self.look_twice(oracle, circuit, &faults, &bads, first, log)
    }

    // The same, where the group has no clause yet.
    fn look_twice<O: Oracle>(
        &self,
        oracle: &mut O,
        circuit: &Circuit,
        faults: &Faults,
        bads: &[Lit],
        first: &Row,
        log: &mut Log,
    ) -> Result<Turn, Stop>
        requires fit { O.Fits oracle.old log.old }
        requires formula { IsWellFormed circuit.now.f.now }
        requires same_formula { faults.now.f.now ≡ circuit.now.f.now }
        requires same_inputs { faults.now.inputs.now ≡ self.now.inputs.items }
        requires nodes { All (IsNode circuit.now.graph.now) circuit.now.outputs.now }
        requires a_bit_a_clause { length first.now ≡ length faults.now.f.now.matrix }
        requires saying { (start : ProofLog)
            × IsSaying self.now faults.now bads.now (λ j. false) start log.old
            × AreLeavesOf faults.now.f.now circuit.now.graph.now start.entries
            circuit.now.outputs.now faults.now.outputs.now }
        ensures fit { O.Fits oracle.new log.new }
        ensures turned { (start : ProofLog)
            → IsSaying self.now faults.now bads.now (λ j. false) start log.old
            → HasTurned faults.now.f.now self.now self.now (is_silent result) start log.new }
        ensures held { (start : ProofLog) (id : ℕ)
            → IsSaying self.now faults.now bads.now (λ j. false) start log.old
            → result ≡ Ok (Turn.Holds id)
            → IsHeldBy faults.now.f.now (leaf_in faults.now) start.entries log.new.entries id }
        ensures fails { (row values : List Bool) (j : ℕ) → result ≡ Ok (Turn.Fails row values j)
            → IsFailure circuit.now.f.now (outputs_of circuit.now.f.now circuit.now.graph.now
            circuit.now.outputs.now) row values j }
        ensures limit { IsErrOf result Stop.Limit → (start : ProofLog)
            → IsSaying self.now faults.now bads.now (λ j. false) start log.old
            → IsAtTurnLimit self.now start.entries log.new }
    {
        let early = ClauseSelection {
            marks: first,
            are_set: true,
        };
        if let Some(turn) = self.attempt(oracle, circuit, faults, bads, &early, false, log)? {
            return Ok(turn);
        }
        let others = ClauseSelection {
            marks: first,
            are_set: false,
        };
        if let Some(turn) = self.attempt(oracle, circuit, faults, bads, &others, false, log)? {
            return Ok(turn);
        }
        match self.attempt(oracle, circuit, faults, bads, &others, true, log)? {
            Some(turn) => Ok(turn),
            None => unreachable!(),
        }
    }

    // Gives a turn's group the faults of a part of the clauses, and searches. It decides unless no
    // clause is false at the row that is found, which is never where all clauses have their faults
    // and all groups are active.
    fn attempt<O: Oracle>(
        &self,
        oracle: &mut O,
        circuit: &Circuit,
        faults: &Faults,
        bads: &[Lit],
        part: &ClauseSelection,
        are_all: bool,
        log: &mut Log,
    ) -> Result<Option<Turn>, Stop>
        requires fit { O.Fits oracle.old log.old }
        requires formula { IsWellFormed circuit.now.f.now }
        requires same_formula { faults.now.f.now ≡ circuit.now.f.now }
        requires same_inputs { faults.now.inputs.now ≡ self.now.inputs.items }
        requires nodes { All (IsNode circuit.now.graph.now) circuit.now.outputs.now }
        requires a_bit_a_clause { length part.now.marks.now ≡ length faults.now.f.now.matrix }
        requires saying { (start : ProofLog)
            × IsSaying self.now faults.now bads.now (given_before part.now) start log.old
            × AreLeavesOf faults.now.f.now circuit.now.graph.now start.entries
            circuit.now.outputs.now faults.now.outputs.now }
        ensures fit { O.Fits oracle.new log.new }
        ensures turned { (start : ProofLog)
            → IsSaying self.now faults.now bads.now (given_before part.now) start log.old
            → HasTurned faults.now.f.now self.now self.now (is_silent_attempt result) start log.new }
        ensures saying { (start : ProofLog)
            → IsSaying self.now faults.now bads.now (given_before part.now) start log.old
            → result ≡ Ok None
            → IsSaying self.now faults.now bads.now (given_after part.now) start log.new }
        ensures held { (start : ProofLog) (id : ℕ)
            → IsSaying self.now faults.now bads.now (given_before part.now) start log.old
            → result ≡ Ok (Some (Turn.Holds id))
            → IsHeldBy faults.now.f.now (leaf_in faults.now) start.entries log.new.entries id }
        ensures fails { (row values : List Bool) (j : ℕ)
            → result ≡ Ok (Some (Turn.Fails row values j))
            → IsFailure circuit.now.f.now (outputs_of circuit.now.f.now circuit.now.graph.now
            circuit.now.outputs.now) row values j }
        ensures decided { part.now.are_set ≡ false → are_all ≡ true → result ≡ Ok None → ⊥ }
        ensures limit { IsErrOf result Stop.Limit → (start : ProofLog)
            → IsSaying self.now faults.now bads.now (given_before part.now) start log.old
            → IsAtTurnLimit self.now start.entries log.new }
    {
        match self.look(oracle, faults, bads, part, are_all, log)? {
            Some(id) => Ok(Some(Turn::Holds(id))),
            None => {
                let found = self.failure(oracle, circuit)?;
                Ok(found)
            }
        }
    }

    // Gives a turn's group the faults of a part of the clauses, and searches for values that it
    // allows, with the groups of the gates in use, or with all of them.
    fn look<O: Oracle>(
        &self,
        oracle: &mut O,
        faults: &Faults,
        bads: &[Lit],
        part: &ClauseSelection,
        are_all: bool,
        log: &mut Log,
    ) -> Result<Option<u64>, Stop>
        requires fit { O.Fits oracle.old log.old }
        requires saying { (start : ProofLog)
            × IsSaying self.now faults.now bads.now (given_before part.now) start log.old }
        requires a_bit_a_clause { length part.now.marks.now ≡ length faults.now.f.now.matrix }
        ensures fit { O.Fits oracle.new log.new }
        ensures turned { (start : ProofLog)
            → IsSaying self.now faults.now bads.now (given_before part.now) start log.old
            → HasTurned faults.now.f.now self.now self.now (is_silent_search result) start log.new }
        ensures saying { (start : ProofLog)
            → IsSaying self.now faults.now bads.now (given_before part.now) start log.old
            → result ≡ Ok None
            → IsSaying self.now faults.now bads.now (given_after part.now) start log.new }
        ensures held { (start : ProofLog) (id : ℕ)
            → IsSaying self.now faults.now bads.now (given_before part.now) start log.old
            → result ≡ Ok (Some id)
            → IsHeldBy faults.now.f.now (leaf_in faults.now) start.entries log.new.entries id }
        ensures told { result ≡ Ok None → O.is_told oracle.new ≡ true }
        ensures failing { (start : ProofLog)
            → IsSaying self.now faults.now bads.now (given_before part.now) start log.old
            → result ≡ Ok None
            → part.now.are_set ≡ false
            → are_all ≡ true
            → AreFailing faults.now.f.now (leaf_in faults.now) start.entries (O.values oracle.new) }
        ensures limit { IsErrOf result Stop.Limit → (start : ProofLog)
            → IsSaying self.now faults.now bads.now (given_before part.now) start log.old
            → IsAtTurnLimit self.now start.entries log.new }
    {
        faults.say(oracle, bads, part, log)?;
        self.focus_on_rows(oracle, faults.f);
        let active = self.active_groups(faults.group, are_all)?;
        match oracle.solve(&active, &[], log)? {
            Answer::Unsat(id) => Ok(Some(id)),
            Answer::Sat => Ok(None),
        }
    }

    // Notes which clause was false.
    fn note(&mut self, found: &Turn)
        ensures gates { self.new.gates ≡ self.old.gates }
        ensures inputs { self.new.inputs ≡ self.old.inputs }
    {
        if let Turn::Fails { j, .. } = found {
            self.last_false = *j;
        }
    }

    // How outputs fail at the row that a search found, if a clause is false there.
    fn failure<O: Oracle>(&self, oracle: &O, circuit: &Circuit) -> Result<Option<Turn>, Memory>
        requires told { O.is_told oracle.now ≡ true }
        requires made { All (λ l. O.HasVariable oracle.now (variable_of l)) self.now.inputs.items }
        requires formula { IsWellFormed circuit.now.f.now }
        requires nodes { All (IsNode circuit.now.graph.now) circuit.now.outputs.now }
        requires input_count { length self.now.inputs.items ≡ length circuit.now.f.now.universals }
        ensures some { IfOk result (λ found. IfSome found (IsFailing circuit.now.f.now
            (outputs_of circuit.now.f.now circuit.now.graph.now circuit.now.outputs.now))) }
        ensures none { result ≡ Ok None → HasFalseClause circuit.now.f.now
            (map (λ l. O.values oracle.now (variable_of l)) self.now.inputs.items)
            (map (node_value circuit.now.graph.now
            (bit_of (map (λ l. O.values oracle.now (variable_of l)) self.now.inputs.items)))
            circuit.now.outputs.now) → ⊥ }
    {
        let row = input_row(self.alloc, oracle, &self.inputs)?;
        let values = circuit.values_at(self.alloc, &row)?;
        match false_clause(circuit.f, &row, &values) {
            Some(j) => Ok(Some(Turn::Fails { row, values, j })),
            None => Ok(None),
        }
    }
}

// The values that a search found of the inputs.
fn input_row<O: Oracle>(alloc: Global, oracle: &O, inputs: &[Lit]) -> Result<Row, Memory>
    requires told { O.is_told oracle.now ≡ true }
    requires made { All (λ l. O.HasVariable oracle.now (variable_of l)) inputs.now }
    ensures { IfOk result (λ row. row ≡ map (λ l. O.values oracle.now (variable_of l)) inputs.now) }
{
    let mut row = Row::new(alloc, inputs.len())?;
    for (place, l) in inputs.iter().enumerate() {
        row.set(place, oracle.value(l.var()));
    }
    Ok(row)
}
