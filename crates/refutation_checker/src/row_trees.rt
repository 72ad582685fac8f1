//! Trees that find rows by their bits on a dependency set.
//!
//! A leaf has a row and a number; a test sends rows on by the bit of one universal of the set. Two
//! rows that agree on the set come to one leaf. Where a row comes to the leaf of another that
//! doesn't agree with it, the leaf becomes a test of the first universal on which they differ. So
//! no universal is tested twice on one way, a way is no longer than the set, and no bit is stored.

ghost use Rattle.std.specs.Prelude.{[], ◌≡◌, ◌<◌, ◌≤◌, ◌++◌, ◌∷◌, true, None, Some, length, slice_set, All, MatchOption, IfOk, OnOk, OnErr, IsSome, ◌^◌, if◌then◌else◌};
ghost use Rattle.dq_lits.specs.Formula.{existential_of};
ghost use Rattle.dq_lits.specs.Row.{bit_of};
ghost use Rattle.cert_text.specs.Header.{max_count};
ghost use Rattle.refutation_checker.specs.Rows.{agree_over, row_of};
ghost use Rattle.refutation_checker.specs.declared.row_trees.Node.TheVariants.{Leaf};
ghost use Rattle.refutation_checker.specs.RowTrees.{sees_of, node_at, next_of, reached, found, number_or, Differ, IsOrdered, IsNodeSplit, IsTree, AreNumbered, IsLeafMatch};

use dq_formula::{Deps, Formula};
use dq_lits::{Memory, Row};
use std::alloc::Global;
use std::marker::Model;

/// A node of a tree.
#[derive(Clone, Copy)]
pub(crate) enum Node {
    /// A row, and the number of the rows that agree with it.
    Leaf { row: u32, number: u64 },
    /// The place of a universal. Rows without it go on at `without`, the others one behind.
    Test { place: u32, without: usize },
}

/// A tree for one dependency set; its root stands first.
#[derive(Drop)]
pub(crate) struct RowTree {
    nodes: Vec<Node>,
}

impl Model for RowTree {
    ghost use Rattle.std.specs.Prelude.{[], List};
    ghost use Rattle.refutation_checker.specs.declared.row_trees.Node.{Node};

    ghost Value = { List Node };

    ghost view = { λ t. t.nodes.items };
}

impl RowTree {
    /// No row has a number. It takes no memory.
    pub(crate) fn new(alloc: Global) -> RowTree
        ensures { result ≡ [] }
    {
        RowTree {
            nodes: Vec::new(alloc),
        }
    }

    /// The number of the rows that agree with the one at `k` on what an existential sees: what they
    /// have, or else `number`, which they have from now on.
    pub(crate) fn number_of(
        &mut self,
        f: &Formula,
        rows: &[Row],
        y: u64,
        k: usize,
        number: u64,
    ) -> Result<u64, Memory>
        requires declared { IsSome (existential_of f.now y) }
        requires whole { All (λ row. length row ≡ length f.now.universals) rows.now }
        requires few { length rows.now ≤ max_count }
        requires row { k < length rows.now }
        requires tree { IsTree f.now rows.now (sees_of f.now y) self.old }
        ensures tree { IsTree f.now rows.now (sees_of f.now y) self.new }
        ensures numbered { IfOk result (AreNumbered f.now rows.now (sees_of f.now y) self.old
            self.new (row_of rows.now k)) }
        ensures value { IfOk result (λ n. n ≡ number_or
            (found f.now rows.now (sees_of f.now y) self.old (row_of rows.now k)) number) }
        ensures err { OnErr result (self.new ≡ self.old) }
    {
        number_in(&mut self.nodes, f, rows, y, k, number)
    }
}

// The same, by a tree's nodes.
fn number_in(
    nodes: &mut Vec<Node>,
    f: &Formula,
    rows: &[Row],
    y: u64,
    k: usize,
    number: u64,
) -> Result<u64, Memory>
    requires declared { IsSome (existential_of f.now y) }
    requires whole { All (λ row. length row ≡ length f.now.universals) rows.now }
    requires few { length rows.now ≤ max_count }
    requires row { k < length rows.now }
    requires tree { IsTree f.now rows.now (sees_of f.now y) nodes.old.items }
    ensures tree { IsTree f.now rows.now (sees_of f.now y) nodes.new.items }
    ensures numbered { IfOk result (AreNumbered f.now rows.now (sees_of f.now y) nodes.old.items
        nodes.new.items (row_of rows.now k)) }
    ensures value { IfOk result (λ n. n ≡ number_or
        (found f.now rows.now (sees_of f.now y) nodes.old.items (row_of rows.now k)) number) }
    ensures err { OnErr result (nodes.new.items ≡ nodes.old.items) }
{
    f.every_formula_is_lawful();
    if nodes.is_empty() {
        plant(nodes, k, number)?;
        return Ok(number);
    }
    let at = reached(nodes, &rows[k]);
    match stand(nodes, f, rows, y, at, k) {
        LeafMatch::Numbered(own) => Ok(own),
        LeafMatch::Differs(place) => {
            part(nodes, rows, at, place, k, number)?;
            Ok(number)
        }
    }
}

// How a row stands to the one of the leaf that it comes to.
#[derive(Clone, Copy)]
enum LeafMatch {
    // It agrees with it, and has its number.
    Numbered(u64),
    // The place of a universal on which they differ.
    Differs(usize),
}

// How the row at `k` stands to the one of the leaf at a place.
fn stand(nodes: &[Node], f: &Formula, rows: &[Row], y: u64, at: usize, k: usize) -> LeafMatch
    requires declared { IsSome (existential_of f.now y) }
    requires whole { All (λ row. length row ≡ length f.now.universals) rows.now }
    requires row { k < length rows.now }
    requires tree { IsTree f.now rows.now (sees_of f.now y) nodes.now }
    requires within { at < length nodes.now }
    requires reached { at ≡ reached nodes.now (row_of rows.now k) }
    requires leaf { next_of (row_of rows.now k) (node_at nodes.now at) ≡ None }
    ensures { IsLeafMatch f.now rows.now (sees_of f.now y) nodes.now at (row_of rows.now k) result }
{
    match nodes[at] {
        Node::Leaf { row, number } => {
            let other = &rows[row as usize];
            match first_difference(f, dependencies(f, y), other, &rows[k]) {
                None => LeafMatch::Numbered(number),
                Some(place) => LeafMatch::Differs(place),
            }
        }
        Node::Test { .. } => unreachable!(),
    }
}

// Makes the row at `k` the root of a tree that has none.
fn plant(nodes: &mut Vec<Node>, k: usize, number: u64) -> Result<(), Memory>
    requires none { nodes.old.items ≡ [] }
    requires few { k < max_count }
    ensures ok { OnOk result (nodes.new.items ≡ Leaf k number ∷ []) }
    ensures err { OnErr result (nodes.new.items ≡ nodes.old.items) }
{
    nodes.push(Node::Leaf {
        row: k as u32,
        number,
    })?;
    Ok(())
}

// The first universal of a set on which two rows differ, by its place.
fn first_difference(f: &Formula, sees: &[u64], first: &Row, second: &Row) -> Option<usize>
    requires first_length { length first.now ≡ length f.now.universals }
    requires second_length { length second.now ≡ length f.now.universals }
    ensures { MatchOption result (agree_over f.now sees.now first.now second.now ≡ true)
        (Differ f.now sees.now first.now second.now) }
{
    for x in sees {
        let place = f.place_of(*x);
        if bit(first, place) != bit(second, place) {
            return Some(place);
        }
    }
    None
}

fn bit(row: &Row, place: usize) -> bool
    ensures { result ≡ bit_of row.now place }
{
    place < row.len() && row.get(place)
}

// The universals that an existential depends on.
fn dependencies(f: &Formula, y: u64) -> &[u64]
    requires { IsSome (existential_of f.now y) }
    ensures { result.now ≡ sees_of f.now y }
{
    match f.deps_of(y) {
        Deps::FirstOf(n) => &f.universals()[..*n],
        Deps::Listed(universals) => universals.items(),
    }
}

// The node that comes next for a row behind the one at a place; none behind a leaf.
fn next(nodes: &[Node], row: &Row, at: usize) -> Option<usize>
    requires ordered { IsOrdered nodes.now }
    requires within { at < length nodes.now }
    ensures { result ≡ next_of row.now (node_at nodes.now at) }
{
    match nodes[at] {
        Node::Leaf { .. } => None,
        Node::Test { place, without } => Some(if bit(row, place as usize) {
            without + 1
        } else {
            without
        }),
    }
}

// The leaf that a row comes to.
fn reached(nodes: &[Node], row: &Row) -> usize
    requires ordered { IsOrdered nodes.now }
    requires some { 0 < length nodes.now }
    ensures reached { result ≡ reached nodes.now row.now }
    ensures within { result < length nodes.now }
    ensures leaf { next_of row.now (node_at nodes.now result) ≡ None }
{
    let mut at = 0;
    while let Some(further) = next(nodes, row, at) {
        at = further;
    }
    at
}

// Makes the node at a place a test that leads to two more.
fn split(
    nodes: &mut Vec<Node>,
    at: usize,
    place: u32,
    without: Node,
    with: Node,
) -> Result<(), Memory>
    requires { at < length nodes.old.items }
    ensures ok { OnOk result
        (IsNodeSplit nodes.old.items nodes.new.items at place without with) }
    ensures err { OnErr result (nodes.new.items ≡ nodes.old.items) }
{
    let count = nodes.len();
    nodes.reserve(2)?;
    nodes.push(without).unwrap();
    nodes.push(with).unwrap();
    nodes[at] = Node::Test {
        place,
        without: count,
    };
    Ok(())
}

// Makes the leaf at a place a test of a universal on which its row and the row at `k` differ.
fn part(
    nodes: &mut Vec<Node>,
    rows: &[Row],
    at: usize,
    place: usize,
    k: usize,
    number: u64,
) -> Result<(), Memory>
    requires leaf { at < length nodes.old.items }
    requires row { k < length rows.now }
    requires few { length rows.now ≤ max_count }
    requires place { place < 2 ^ 32 }
    ensures ok { OnOk result (IsNodeSplit nodes.old.items nodes.new.items at place
        (if bit_of (row_of rows.now k) place then node_at nodes.old.items at else Leaf k number)
        (if bit_of (row_of rows.now k) place then Leaf k number else node_at nodes.old.items at)) }
    ensures err { OnErr result (nodes.new.items ≡ nodes.old.items) }
{
    let kept = nodes[at];
    let fresh = Node::Leaf {
        row: k as u32,
        number,
    };
    if bit(&rows[k], place) {
        split(nodes, at, place as u32, kept, fresh)
    } else {
        split(nodes, at, place as u32, fresh, kept)
    }
}
