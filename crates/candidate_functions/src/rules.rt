//! What the rules say of each existential, as nodes.

ghost use Rattle.std.specs.Prelude.{◌≡◌, ◌≤◌, ◌∷◌, [], length, map, List, All, Contains, IfOk, OnOk};
ghost use Rattle.dq_lits.specs.Literal.{variable_of};
ghost use Rattle.dq_formula.specs.Prefix.{existential_variables};
ghost use Rattle.dq_formula.specs.Rules.{IsRule};
ghost use Rattle.dq_formula.specs.declared.rules.Rule.{Rule as RuleState};
ghost use Rattle.aig_graph.specs.Graph.{IsNode};
ghost use Rattle.aig_graph.specs.Made.{Extends};
ghost use Rattle.candidate_functions.specs.Candidates.{AreGuesses};
ghost use Rattle.candidate_functions.specs.Pairs.{input_literal, IsCubeNode, AreByRules};

use crate::guesses::Trees;
use crate::outputs::Known;
use aig_graph::{Graph, Node};
use dq_formula::{Formula, Rule};
use dq_lits::{Lit, Memory};
use std::alloc::Global;

// For each existential a node with the bit of its first rule whose cube is true; where there is
// none, it is what the existential's guess or tree says.
pub(crate) fn by_rules(
    alloc: Global,
    known: &Known,
    trees: &mut Trees,
    rules: &[Rule],
    graph: &mut Graph,
) -> Result<Vec<Node>, Memory>
    requires inputs { length known.now.f.now.universals ≤ graph.old.inputs }
    requires whole { All (λ row. length row ≡ length known.now.f.now.universals)
        known.now.table.now.rows }
    requires variables { known.now.points.now.variables ≡ existential_variables known.now.f.now }
    requires as_many { length known.now.points.now.rows ≡ length known.now.table.now.rows }
    requires rules { All (IsRule known.now.f.now) rules.now }
    requires guesses { AreGuesses known.now.f.now graph.old known.now.guesses.now }
    ensures extends { Extends graph.old graph.new }
    ensures nodes { IfOk result
        (λ nodes. AreByRules known.now.f.now graph.new rules.now nodes.items) }
{
    let mut nodes = trees.nodes(known, graph)?;
    put_rules(alloc, known.f, rules, &mut nodes, graph)?;
    Ok(nodes)
}

// Puts rules over a node for each existential.
fn put_rules(
    alloc: Global,
    f: &Formula,
    rules: &[Rule],
    nodes: &mut Vec<Node>,
    graph: &mut Graph,
) -> Result<(), Memory>
    requires inputs { length f.now.universals ≤ graph.old.inputs }
    requires rules { All (IsRule f.now) rules.now }
    requires guesses { AreByRules f.now graph.old [] nodes.old.items }
    ensures extends { Extends graph.old graph.new }
    ensures nodes { OnOk result (AreByRules f.now graph.new rules.now nodes.new.items) }
{
    let mut at = rules.len();
    while at > 0 {
        at -= 1;
        put_rule(alloc, f, &rules[at], nodes, graph)?;
    }
    Ok(())
}

// Puts a rule before the later ones.
fn put_rule(
    alloc: Global,
    f: &Formula,
    rule: &Rule,
    nodes: &mut Vec<Node>,
    graph: &mut Graph,
) -> Result<(), Memory>
    requires inputs { length f.now.universals ≤ graph.old.inputs }
    requires rule { IsRule f.now rule.now }
    requires one_each { length nodes.old.items ≡ length f.now.existentials }
    requires nodes { All (IsNode graph.old) nodes.old.items }
    ensures extends { Extends graph.old graph.new }
    ensures nodes { (later : List RuleState) → AreByRules f.now graph.old later nodes.old.items
        → OnOk result (AreByRules f.now graph.new (rule.now ∷ later) nodes.new.items) }
{
    f.every_formula_is_lawful();
    if let Some(place) = f.existential_place(rule.y) {
        let cube = cube_node(alloc, f, rule.cube.lits(), graph)?;
        nodes[place] = graph.mux(cube, Node::constant(rule.bit), nodes[place])?;
    }
    Ok(())
}

// A node that is true where all of these literals are.
fn cube_node(alloc: Global, f: &Formula, cube: &[Lit], graph: &mut Graph) -> Result<Node, Memory>
    requires inputs { length f.now.universals ≤ graph.old.inputs }
    requires universals { All (λ l. Contains f.now.universals (variable_of l)) cube.now }
    ensures extends { Extends graph.old graph.new }
    ensures node { IfOk result (IsCubeNode f.now graph.new cube.now) }
{
    let literals = input_literals(alloc, f, cube)?;
    graph.cube(&literals)
}

fn input_literals(alloc: Global, f: &Formula, cube: &[Lit]) -> Result<Vec<Node>, Memory>
    requires universals { All (λ l. Contains f.now.universals (variable_of l)) cube.now }
    ensures { IfOk result (λ nodes. nodes.items ≡ map (input_literal f.now) cube.now) }
{
    let mut literals = Vec::new(alloc);
    for l in cube {
        literals.push(input_literal(f, *l))?;
    }
    Ok(literals)
}

fn input_literal(f: &Formula, l: Lit) -> Node
    requires universal { Contains f.now.universals (variable_of l) }
    ensures { result ≡ input_literal f.now l }
{
    Node::Input(f.place_of(l.var()), l.is_neg())
}
