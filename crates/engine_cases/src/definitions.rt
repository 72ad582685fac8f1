//! Definitions of existentials, or that there is none, one existential after the other.

ghost use Rattle.std.specs.Prelude.{◌≡◌, [], IfOk};
ghost use Rattle.dq_lits.specs.Formula.{IsWellFormed};
ghost use Rattle.aig_graph.specs.Graph.{IsNode};
ghost use Rattle.engine_cases.specs.Ready.{IsLinked};

use crate::evaluation::show_node;
use crate::shown::{Shown, push_signed, show_more};
use aig_graph::{Graph, Node};
use anyhow::{Result, anyhow};
use cdcl_core::Cdcl;
use definability::{Definability, Found};
use dq_formula::Formula;
use hint_log::{Log, Stop};
use oracle::Oracle;
use std::alloc::Global;

// More steps than any case takes.
const LIMIT: u64 = 1000;

/// Asks for definitions of existentials.
pub fn run(alloc: Global, f: &Formula, existentials: &str, printed: &mut String) -> Result<()>
    requires formula { IsWellFormed f.now }
{
    run_by(
        alloc,
        Cdcl::new(alloc),
        Log::new(alloc, LIMIT),
        f,
        existentials,
        printed,
    )
}

// Over any solver: what drops one here is the same few steps whatever it holds.
fn run_by<O: Oracle + Drop>(
    alloc: Global,
    oracle: O,
    log: Log,
    f: &Formula,
    existentials: &str,
    printed: &mut String,
) -> Result<()>
    requires formula { IsWellFormed f.now }
    requires fit { O.Fits oracle log }
    requires empty { log.entries ≡ [] }
{
    let mut defining = begin(alloc, oracle, log, f)?;
    defining.define_each(alloc, f, existentials, printed)
}

/// The copies for a formula.
pub fn begin<O: Oracle + Drop>(
    alloc: Global,
    mut oracle: O,
    mut log: Log,
    f: &Formula,
) -> Result<Defining<O>>
    requires formula { IsWellFormed f.now }
    requires fit { O.Fits oracle log }
    requires empty { log.entries ≡ [] }
    ensures fit { IfOk result (λ d. O.Fits d.oracle d.log) }
    ensures linked { IfOk result (λ d. IsLinked f.now d.graph d.definability d.log.entries) }
{
    let graph = Graph::new(alloc, f.universals().len() + f.existentials().len());
    let definability = Definability::new(alloc, &mut oracle, f, &mut log)?;
    Ok(Defining {
        oracle,
        log,
        graph,
        definability,
    })
}

/// The copies of the matrix with the solver that is asked of them, its log, and the graph that
/// definitions stand in.
#[derive(Drop)]
pub struct Defining<O> {
    pub oracle: O,
    pub log: Log,
    pub graph: Graph,
    pub definability: Definability,
}

impl<O: Oracle> Defining<O> {
    fn define_each(
        &mut self,
        alloc: Global,
        f: &Formula,
        existentials: &str,
        printed: &mut String,
    ) -> Result<()>
        requires formula { IsWellFormed f.now }
        requires fit { O.Fits self.old.oracle self.old.log }
        requires linked { IsLinked f.now self.old.graph self.old.definability self.old.log.entries }
    {
        let mut shown = show_more(alloc, &self.log, Shown { names: 0, id: 0 }, printed)?;
        for word in existentials.split_whitespace() {
            let y: u64 = word.parse()?;
            self.define(alloc, f, y, printed)?;
            shown = show_more(alloc, &self.log, shown, printed)?;
        }
        Ok(())
    }

    fn define(&mut self, alloc: Global, f: &Formula, y: u64, printed: &mut String) -> Result<()>
        requires formula { IsWellFormed f.now }
        requires fit { O.Fits self.old.oracle self.old.log }
        requires linked { IsLinked f.now self.old.graph self.old.definability self.old.log.entries }
        ensures fit { IfOk result (λ u. O.Fits self.new.oracle self.new.log) }
        ensures linked { IfOk result (λ u.
            IsLinked f.now self.new.graph self.new.definability self.new.log.entries) }
    {
        if !f.is_existential(y) {
            return Err(anyhow!("no existential: {y}"));
        }
        push_variable(alloc, y, printed)?;
        let found = self.definability.define(
            &mut self.oracle,
            &mut self.graph,
            f,
            &[],
            y,
            &mut self.log,
        );
        match &found {
            Ok(Found::Defined(node)) => show_definition(alloc, f, &self.graph, *node, printed),
            Ok(Found::Free(_)) => push_word("free", printed),
            Err(Stop::Limit) => push_word("limit", printed),
            Err(Stop::Memory) => Err(anyhow!("out of memory")),
        }
    }
}

/// Writes a definition's values under all rows of the universals and the existentials, and which of
/// them it reads.
pub fn show_definition(
    alloc: Global,
    f: &Formula,
    graph: &Graph,
    node: Node,
    printed: &mut String,
) -> Result<()>
    requires node { IsNode graph.now node }
{
    show_node(alloc, &variables(alloc, f)?, graph, node, printed)
}

/// Writes a word.
pub fn push_word(word: &str, printed: &mut String) -> Result<()> {
    printed.push_str(word)?;
    Ok(())
}

/// Begins the line of an existential.
pub fn push_variable(alloc: Global, y: u64, printed: &mut String) -> Result<()> {
    printed.push_str("\n existential")?;
    push_signed(alloc, y, false, printed)?;
    printed.push_str(": ")?;
    Ok(())
}

/// The universals, and then the existentials, in order of declaration.
pub fn variables(alloc: Global, f: &Formula) -> Result<Vec<u64>> {
    let mut variables = Vec::from_slice(alloc, f.universals())?;
    variables.extend_from_slice(f.existentials())?;
    Ok(variables)
}
