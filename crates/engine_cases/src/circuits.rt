//! The circuits' checker, turn by turn.

ghost use Rattle.std.specs.Prelude.{◌≡◌, ◌≤◌, [], ◌+◌, ℕ, true, All, length, IfOk};
ghost use Rattle.dq_lits.specs.Formula.{IsWellFormed};
ghost use Rattle.aig_graph.specs.Graph.{IsNode};
ghost use Rattle.engine_cases.specs.Ready.{IsOpen};
ghost use Rattle.engine_cases.specs.Turns.{may_go_on};

use crate::expressions::outputs_of;
use crate::rows::push_bits;
use crate::shown::{Shown, show_more};
use aig_graph::{Graph, Node};
use anyhow::{Result, anyhow};
use cdcl_core::Cdcl;
use circuit_cnf::laws::checkers_stay_with_rounds;
use circuit_cnf::{Checker, Turn};
use dq_formula::Formula;
use dq_lits::Row;
use hint_log::{Log, Stop};
use oracle::Oracle;
use std::alloc::Global;

// More steps than any case takes.
const LIMIT: u64 = 1000;

/// Judges outputs until some hold.
pub fn run(alloc: Global, f: &Formula, turns: &str, printed: &mut String) -> Result<()>
    requires formula { IsWellFormed f.now }
{
    run_by(
        alloc,
        Cdcl::new(alloc),
        Log::new(alloc, LIMIT),
        f,
        turns,
        printed,
    )
}

// Over any solver: what drops one here is the same few steps whatever it holds.
fn run_by<O: Oracle + Drop>(
    alloc: Global,
    oracle: O,
    log: Log,
    f: &Formula,
    turns: &str,
    printed: &mut String,
) -> Result<()>
    requires formula { IsWellFormed f.now }
    requires fit { O.Fits oracle log }
    requires empty { log.entries ≡ [] }
{
    let mut judging = begin(alloc, oracle, log, f)?;
    judging.take_turns(alloc, f, turns, printed)
}

fn begin<O: Oracle + Drop>(
    alloc: Global,
    mut oracle: O,
    mut log: Log,
    f: &Formula,
) -> Result<Judging<O>>
    requires formula { IsWellFormed f.now }
    requires fit { O.Fits oracle log }
    requires empty { log.entries ≡ [] }
    ensures fit { IfOk result (λ j. O.Fits j.oracle j.log) }
    ensures open { IfOk result (λ j. IsOpen f.now j.graph j.checker j.log.entries) }
{
    let graph = Graph::new(alloc, f.universals().len());
    let checker = Checker::new(alloc, &mut oracle, f, &mut log)?;
    Ok(Judging {
        oracle,
        log,
        graph,
        checker,
    })
}

/// The circuits' checker with what it asks and logs, and the graph that the outputs stand in.
#[derive(Drop)]
struct Judging<O> {
    oracle: O,
    log: Log,
    graph: Graph,
    checker: Checker,
}

impl<O: Oracle> Judging<O> {
    fn take_turns(
        &mut self,
        alloc: Global,
        f: &Formula,
        turns: &str,
        printed: &mut String,
    ) -> Result<()>
        requires formula { IsWellFormed f.now }
        requires fit { O.Fits self.old.oracle self.old.log }
        requires open { IsOpen f.now self.old.graph self.old.checker self.old.log.entries }
    {
        let mut shown = show_more(alloc, &self.log, Shown { names: 0, id: 0 }, printed)?;
        for turn in turns.split(';') {
            let told = self.take_turn(alloc, f, turn)?;
            shown = show_more(alloc, &self.log, shown, printed)?;
            show_told(alloc, f, &told, printed)?;
            if !may_go_on(&told) {
                return Ok(());
            }
        }
        Ok(())
    }

    // A turn, and its round where it fails.
    fn take_turn(&mut self, alloc: Global, f: &Formula, turn: &str) -> Result<Told>
        requires formula { IsWellFormed f.now }
        requires fit { O.Fits self.old.oracle self.old.log }
        requires open { IsOpen f.now self.old.graph self.old.checker self.old.log.entries }
        ensures fit { IfOk result (λ told. may_go_on told ≡ true
            → O.Fits self.new.oracle self.new.log) }
        ensures open { IfOk result (λ told. may_go_on told ≡ true
            → IsOpen f.now self.new.graph self.new.checker self.new.log.entries) }
    {
        let outputs = outputs_of(alloc, &mut self.graph, f, turn)?;
        self.judge(f, &outputs)
    }

    fn judge(&mut self, f: &Formula, outputs: &[Node]) -> Result<Told>
        requires formula { IsWellFormed f.now }
        requires outputs { length outputs.now ≡ length f.now.existentials }
        requires nodes { All (IsNode self.old.graph) outputs.now }
        requires fit { O.Fits self.old.oracle self.old.log }
        requires open { IsOpen f.now self.old.graph self.old.checker self.old.log.entries }
        ensures fit { IfOk result (λ told. may_go_on told ≡ true
            → O.Fits self.new.oracle self.new.log) }
        ensures open { IfOk result (λ told. may_go_on told ≡ true
            → IsOpen f.now self.new.graph self.new.checker self.new.log.entries) }
    {
        checkers_stay_with_rounds();
        self.graph.every_graph_is_lawful();
        match self.checker.turn(
            &mut self.oracle,
            &self.graph,
            f,
            outputs,
            &[],
            &mut self.log,
        ) {
            Ok(Turn::Holds(_)) => Ok(Told::Holds),
            Ok(Turn::Fails { row, values, j }) => {
                self.log.round(&row, &values, j)?;
                Ok(Told::Fails { row, values, j })
            }
            Err(Stop::Limit) => Ok(Told::Limit),
            Err(Stop::Memory) => Err(anyhow!("out of memory")),
        }
    }
}

/// What a turn told.
#[derive(Drop)]
pub enum Told {
    Holds,
    Fails { row: Row, values: Row, j: u64 },
    Limit,
}

fn may_go_on(told: &Told) -> bool
    ensures { result ≡ may_go_on told.now }
{
    match told {
        Told::Fails { .. } => true,
        _ => false,
    }
}

fn show_told(alloc: Global, f: &Formula, told: &Told, printed: &mut String) -> Result<()> {
    match told {
        Told::Holds => printed.push_str("\n holds")?,
        Told::Limit => printed.push_str("\n limit")?,
        Told::Fails { row, values, j } => {
            printed.push_str(&format!(in alloc; "\n clause {j} fails:")?)?;
            push_bits(alloc, f.universals(), row, printed)?;
            push_bits(alloc, f.existentials(), values, printed)?;
        }
    }
    Ok(())
}
