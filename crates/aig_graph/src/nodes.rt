//! Nodes of a graph: constants, inputs and gates, each negated or not.

ghost use Rattle.std.specs.Prelude.{◌≡◌, not, ℕ, Bool, false, MatchOption, IsTrue, if◌then◌else◌};
ghost use Rattle.aig_graph.specs.Graph.{AigGraph, IsNode, node_value, node_support, place_of, with_sign};
ghost use Rattle.aig_graph.specs.Made.{sides_of};
ghost use Rattle.aig_graph.specs.Joining.{IsBeside, node_by_side, beside_by, IsInner, AreApart, IsJoined};

/// A node of a graph: a constant, or an input or a gate by its number, negated or not.
#[derive(Clone, Copy, PartialEq, Eq, PartialOrd, Ord)]
pub enum Node {
    Constant(bool),
    Input(usize, bool),
    Gate(usize, bool),
}

/// What is inside of a node; the last value tells whether it is negated.
#[derive(Clone, Copy)]
pub enum Look {
    Constant(bool),
    Input(usize, bool),
    /// The sides of a gate: earlier nodes on two different places, none constant.
    Gate(Node, Node, bool),
}

/// The sides of a gate.
#[derive(Clone, Copy)]
pub struct Sides {
    pub left: Node,
    pub right: Node,
}

impl Node {
    /// The node with this value.
    pub fn constant(b: bool) -> Node
        ensures { result ≡ Node.Constant b }
    {
        Node::Constant(b)
    }

    /// The node with the other value.
    pub fn not(self) -> Node
        ensures node { (graph : AigGraph) → IsNode graph self → IsNode graph result }
        ensures value { (graph : AigGraph) (inputs : ℕ → Bool)
            → node_value graph inputs result ≡ not (node_value graph inputs self) }
        ensures support { (graph : AigGraph) → node_support graph result ≡ node_support graph self }
        ensures place { (inputs : ℕ) → place_of inputs result ≡ place_of inputs self }
    {
        match self {
            Node::Constant(b) => Node::Constant(!b),
            Node::Input(i, negated) => Node::Input(i, !negated),
            Node::Gate(g, negated) => Node::Gate(g, !negated),
        }
    }

    // The node, or its negation.
    pub(crate) fn signed(self, negated: bool) -> Node
        ensures node { (graph : AigGraph) → IsNode graph self → IsNode graph result }
        ensures value { (graph : AigGraph) (inputs : ℕ → Bool)
            → node_value graph inputs result ≡ with_sign negated (node_value graph inputs self) }
        ensures support { (graph : AigGraph) → node_support graph result ≡ node_support graph self }
    {
        if negated { self.not() } else { self }
    }

    // No constant is said to be the same.
    fn is_same(self, other: Node) -> bool
        ensures { IsTrue result → self ≡ other }
    {
        match self.beside(other) {
            Beside::Same => true,
            _ => false,
        }
    }

    // How two nodes stand to each other.
    pub(crate) fn beside(self, other: Node) -> Beside
        ensures { IsBeside self other result }
    {
        match (self, other) {
            (Node::Input(i, negated), Node::Input(j, other_negated)) => by_number_and_sign(
                i == j,
                negated == other_negated,
            ),
            (Node::Gate(g, negated), Node::Gate(h, other_negated)) => by_number_and_sign(
                g == h,
                negated == other_negated,
            ),
            _ => Beside::Apart,
        }
    }
}

impl Sides {
    // They are these nodes.
    pub(crate) fn are(self, left: Node, right: Node) -> bool
        ensures { IsTrue result → self ≡ sides_of left right }
    {
        self.left.is_same(left) && self.right.is_same(right)
    }
}

// How a node stands to another one.
#[derive(Clone, Copy)]
pub(crate) enum Beside {
    Same,
    Opposite,
    Apart,
}

fn by_number_and_sign(same_number: bool, same_sign: bool) -> Beside
    ensures { result ≡ beside_by same_number same_sign }
{
    match (same_number, same_sign) {
        (true, true) => Beside::Same,
        (true, false) => Beside::Opposite,
        _ => Beside::Apart,
    }
}

// A node that is true where both are, unless it takes a gate: one of them, or a constant.
pub(crate) fn joined(a: Node, b: Node) -> Option<Node>
    ensures { MatchOption result (AreApart a b) (IsJoined a b) }
{
    match (a, b) {
        (Node::Constant(x), _) => Some(guarded(x, b)),
        (_, Node::Constant(y)) => Some(guarded(y, a)),
        _ => joined_inner(a, b),
    }
}

// A node that is true where a gate's node and another one are, by how a side of the gate stands to
// that other one: a gate is never true where a side is false, and true only where it is true.
pub(crate) fn by_side(gate: Node, negated: bool, side: Beside, other: Node) -> Option<Node>
    ensures { result ≡ node_by_side gate negated side other }
{
    match (negated, side) {
        (false, Beside::Same) => Some(gate),
        (false, Beside::Opposite) => Some(Node::Constant(false)),
        (true, Beside::Opposite) => Some(other),
        _ => None,
    }
}

// The node where the bit is true, else false.
fn guarded(b: bool, n: Node) -> Node
    ensures { result ≡ (if b then n else Node.Constant false) }
{
    if b { n } else { Node::Constant(false) }
}

fn joined_inner(a: Node, b: Node) -> Option<Node>
    requires left { IsInner a }
    requires right { IsInner b }
    ensures { MatchOption result (AreApart a b) (IsJoined a b) }
{
    match a.beside(b) {
        Beside::Same => Some(a),
        Beside::Opposite => Some(Node::Constant(false)),
        Beside::Apart => None,
    }
}
