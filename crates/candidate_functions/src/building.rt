//! Candidates for all existentials of a formula.

ghost use Rattle.std.specs.Prelude.{◌≡◌, ◌+◌, length, All, IfOk};
ghost use Rattle.dq_formula.specs.Prefix.{existential_variables};
ghost use Rattle.dq_formula.specs.Rules.{IsRule};
ghost use Rattle.aig_graph.specs.Graph.{IsNode};
ghost use Rattle.aig_graph.specs.Made.{Extends};
ghost use Rattle.aig_graph.specs.Outputs.{outputs_of, ReadDeclared};
ghost use Rattle.expansion.specs.Table.{ArePoints, point_bits};
ghost use Rattle.candidate_functions.specs.Candidates.{AreDefinitions, AreGuesses, AgreeAtPairs, FollowRules, AreDefined};

use crate::definitions::put_definitions;
use crate::guesses::Trees;
use crate::outputs::{Known, first_outputs};
use crate::rules::by_rules;
use crate::samples::Samples;
use aig_graph::{Graph, Node};
use dq_formula::{Formula, Rule};
use dq_lits::Memory;
use expansion::{Points, Table};
use std::alloc::Global;
use std::marker::Model;

/// A node for each existential, in order of declaration.
#[derive(Drop)]
pub struct Outputs {
    nodes: Vec<Node>,
}

impl Model for Outputs {
    ghost use Rattle.std.specs.Prelude.{List};
    ghost use Rattle.aig_graph.specs.declared.nodes.Node.{Node};

    ghost Value = { List Node };

    ghost view = { λ o. o.nodes.items };
}

impl Outputs {
    /// The nodes in order.
    pub fn items(&self) -> &[Node]
        ensures { result.now ≡ self.now }
    {
        &self.nodes
    }
}

/// Candidates for the existentials' functions, which read what they may, universals alone. One that
/// has a definition gets it, with the outputs of the existentials that it reads put in; any other
/// has its point's bit at each pair of the table, and elsewhere the bit of its first rule whose
/// cube is true; where there is none, the value of its guess, or without a guess what its tree says:
/// no contract speaks of either. The trees of those without a guess first grow by the points, and the
/// samples guide them; two that are one function of different universals have one tree. A guess that
/// is wrong at most rows, and at 8 at least, is none from then on.
/// Definitions and guesses are in the order of the existentials; those that are missing are none.
/// The ranks are those by which definitions may read what they read.
///
/// The graph has an input for each universal, and behind these one for each existential, for
/// definitions to read. The points are those of a model of all instances under the table's rows.
/// Work and memory follow the points and the gates. Beside that an existential costs what it sees only
/// where its bit at some row has to be put in: existentials with one dependency set share their
/// pairs, and a pair's cube is made once. A refused call leaves gates that were made.
pub fn build(
    alloc: Global,
    f: &Formula,
    table: &Table,
    points: &Points,
    samples: &Samples,
    trees: &mut Trees,
    rules: &[Rule],
    ranks: &[usize],
    definitions: &[Option<Node>],
    guesses: &[Option<Node>],
    graph: &mut Graph,
) -> Result<Outputs, Memory>
    requires inputs { graph.old.inputs ≡ length f.now.universals + length f.now.existentials }
    requires whole { All (λ row. length row ≡ length f.now.universals) table.now.rows }
    requires variables { points.now.variables ≡ existential_variables f.now }
    requires as_many { length points.now.rows ≡ length table.now.rows }
    requires points { ArePoints f.now table.now.rows (point_bits points.now) }
    requires rules { All (IsRule f.now) rules.now }
    requires definitions { AreDefinitions f.now ranks.now graph.old definitions.now }
    requires guesses { AreGuesses f.now graph.old guesses.now }
    ensures extends { Extends graph.old graph.new }
    ensures one_each { IfOk result (λ nodes. length nodes ≡ length f.now.existentials) }
    ensures nodes { IfOk result (λ nodes. All (IsNode graph.new) nodes) }
    ensures reads { IfOk result (λ nodes. ReadDeclared f.now (outputs_of f.now graph.new nodes)) }
    ensures at_pairs { IfOk result (λ nodes. AgreeAtPairs f.now table.now.rows
        (point_bits points.now) (outputs_of f.now graph.new nodes)) }
    ensures by_rules { IfOk result (λ nodes. FollowRules f.now table.now.rows rules.now
        definitions.now (outputs_of f.now graph.new nodes)) }
    ensures defined { IfOk result (λ nodes. AreDefined f.now graph.new definitions.now nodes) }
{
    f.every_formula_is_lawful();
    let known = Known {
        f,
        table,
        points,
        definitions,
        guesses,
        samples,
    };
    let others = by_rules(alloc, &known, trees, rules, graph)?;
    let mut nodes = first_outputs(alloc, &known, &others, graph)?;
    put_definitions(alloc, f, ranks, definitions, &mut nodes, graph)?;
    Ok(Outputs { nodes })
}
