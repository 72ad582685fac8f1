//! Literals: as keys of maps, whether a definition may read them, and their nodes.

ghost use Rattle.std.specs.Prelude.{◌≡◌, ◌<◌, ◌==◌, ◌+◌, ◌^◌, true, None, Some, position, length, map, IfOk, All, Contains};
ghost use Rattle.std.specs.List.{position_or_len};
ghost use Rattle.dq_lits.specs.Literal.{variable_of};
ghost use Rattle.dq_lits.specs.Formula.{Existential, declared, existential_of};
ghost use Rattle.gate_definitions.specs.Stating.{AreReadable, literal_node};

use crate::outputs::Output;
use aig_graph::Node;
use definition_order::may_read;
use dq_formula::Formula;
use dq_lits::{Lit, Memory};
use std::alloc::Global;

/// A literal as the key of a map.
pub(crate) fn key(l: Lit) -> (u64, bool) {
    (l.var(), l.is_neg())
}

/// Whether a definition of an output may read all of these literals' variables.
pub(crate) fn all_readable(output: &Output, lits: &[Lit]) -> bool
    ensures { result ≡ true → (e : Existential)
        → existential_of output.now.f.now output.now.y ≡ Some e
        → AreReadable output.now.f.now output.now.ranks.now e lits.now }
{
    for l in lits {
        if !may_read(output.f, output.ranks, output.y, l.var()) {
            return false;
        }
    }
    true
}

/// The nodes of these literals, in order.
pub(crate) fn nodes_of(alloc: Global, f: &Formula, lits: &[Lit]) -> Result<Vec<Node>, Memory>
    requires few { length f.now.universals + length f.now.existentials < 2 ^ 62 }
    requires declared { All (λ l. Contains (declared f.now) (variable_of l)) lits.now }
    ensures { IfOk result (λ nodes. nodes.items ≡ map (literal_node f.now) lits.now) }
{
    let mut nodes = Vec::new(alloc);
    for l in lits {
        nodes.push(node_of(f, *l))?;
    }
    Ok(nodes)
}

/// The node of a literal.
pub(crate) fn node_of(f: &Formula, l: Lit) -> Node
    requires few { length f.now.universals + length f.now.existentials < 2 ^ 62 }
    requires declared { Contains (declared f.now) (variable_of l) }
    ensures { result ≡ literal_node f.now l }
{
    Node::Input(input_of(f, l.var()), l.is_neg())
}

// The place of a variable among those declared, universals first.
fn input_of(f: &Formula, v: u64) -> usize
    requires few { length f.now.universals + length f.now.existentials < 2 ^ 62 }
    requires declared { Contains (declared f.now) v }
    ensures { result ≡ position_or_len (λ w. w == v) (declared f.now) }
{
    f.every_formula_is_lawful();
    match f.universal_place(v) {
        Some(place) => place,
        None => existential_input(f, v),
    }
}

fn existential_input(f: &Formula, v: u64) -> usize
    requires few { length f.now.universals + length f.now.existentials < 2 ^ 62 }
    requires declared { Contains (declared f.now) v }
    requires no_universal { position (λ u. u == v) f.now.universals ≡ None }
    ensures { result ≡ position_or_len (λ w. w == v) (declared f.now) }
{
    f.every_formula_is_lawful();
    match f.existential_place(v) {
        Some(place) => f.universals().len() + place,
        None => unreachable!(),
    }
}
