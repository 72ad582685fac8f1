//! What the definition of definitions proves. A law is the contract of a function without parameters.

ghost use Rattle.std.specs.Prelude.{◌≡◌, ℕ, List};
ghost use Rattle.dq_lits.specs.Formula.{Dqbf, Existential};
ghost use Rattle.dq_lits.specs.Henkin.{MatrixHolds};
ghost use Rattle.dq_lits.specs.Literal.{Assignment};
ghost use Rattle.aig_graph.specs.Graph.{AigGraph};
ghost use Rattle.aig_graph.specs.declared.nodes.Node.{Node};
ghost use Rattle.defining_nodes.specs.Definitions.{IsDefinition, defining_output};

/// Two definitions of an existential have the same value wherever the matrix is true.
pub fn definitions_agree()
    ensures { (f : Dqbf) (ranks others : List ℕ) (graph : AigGraph) (y : Existential) (a b : Node)
        → IsDefinition f ranks graph y a → IsDefinition f others graph y b
        → (m : Assignment) → MatrixHolds f m
        → (defining_output f graph a).value m ≡ (defining_output f graph b).value m }
{}
