//! Definitions, proved once more on the first copy of the matrix.

ghost use Rattle.std.specs.Prelude.{◌≡◌, ◌⊎◌, ◌+◌, ℕ, List, true, length, IfOk, OnOk, IsErrOf};
ghost use Rattle.std.specs.List.{Contains};
ghost use Rattle.dq_lits.specs.Formula.{IsWellFormed};
ghost use Rattle.dq_lits.specs.Literal.{Literal};
ghost use Rattle.defining_nodes.specs.Definitions.{defining_output};
ghost use Rattle.hint_log.specs.Entries.{Given};
ghost use Rattle.hint_log.specs.Growth.{Grew};
ghost use Rattle.hint_log.specs.declared.origins.Leaf.{Leaf as LeafValue};
ghost use Rattle.hint_log.specs.declared.origins.Origin.TheVariants.{Differ};
ghost use Rattle.log_laws.specs.Engines.{copies, IsAddedBy};
ghost use Rattle.oracle.specs.Limits.{IsAtSomeLimit};
ghost use Rattle.definability.specs.Copies.{IsDefinability, group_variable};
ghost use Rattle.definition_proofs.specs.Differing.{AreUndiffered};
ghost use Rattle.definition_proofs.specs.Leaves.{IsLeafFor};
ghost use Rattle.definition_proofs.specs.Proving.{AreBeside, IsDefinedBy, IsProvedBy};
ghost use Rattle.definition_proofs.specs.Terms.{GrewByProof};
ghost use Rattle.definition_proofs.specs.Shown.{IsLeafDeclared, IsShownDefinition, TermLeafReads};

use crate::differing::Difference;
use crate::leaves::Inputs;
use crate::searching::{Proved, joined};
use crate::terms::Terms;
use aig_graph::{Graph, Node};
use definability::{Definability, copied_variable};
use dq_formula::Formula;
use hint_log::laws::names_are_unique;
use hint_log::{Log, Stop};
use oracle::Oracle;

impl Terms {
    /// Proves a definition of an existential for which none was proved yet: where the first copy of
    /// the matrix is true, the first copy of the existential can't differ from the node's output
    /// over first copies. It stops for want of memory or at the log's limit; the gates are of no
    /// more use then. Beside the search, time follows the node's cone.
    pub fn prove<O: Oracle>(
        &mut self,
        oracle: &mut O,
        definability: &Definability,
        graph: &Graph,
        f: &Formula,
        y: u64,
        node: Node,
        log: &mut Log,
    ) -> Result<Proved, Stop>
        requires fit { O.Fits oracle.old log.old }
        requires formula { IsWellFormed f.now }
        requires beside { AreBeside f.now definability.now self.old log.old.entries }
        requires inputs { graph.now.inputs ≡ length f.now.universals + length f.now.existentials }
        requires definition { IsDefinedBy f.now graph.now y node }
        requires none { AreUndiffered y log.old.entries }
        ensures fit { O.Fits oracle.new log.new }
        ensures grew { Grew (IsAddedBy f.now copies (group_variable self.old.group) true
            log.old.entries) log.old log.new }
        ensures definability { IsDefinability f.now definability.now log.new.entries }
        ensures beside { OnOk result (AreBeside f.now definability.now self.new log.new.entries) }
        ensures differs { (x part : ℕ) (leaf : LeafValue) (c : List Literal)
            → Contains log.new.entries (Given (Differ x leaf part) c)
            → Contains log.old.entries (Given (Differ x leaf part) c) ⊎ (x ≡ y) }
        ensures shown { IfOk result (λ p. IsShownDefinition log.new.entries y p.leaf p.id) }
        ensures declared { IfOk result (λ p. IsLeafDeclared f.now log.new.entries p.leaf) }
        ensures leaf { IfOk result (λ p. IsLeafFor f.now graph.now log.new.entries node p.leaf) }
        ensures reads { IfOk result (λ p. (v : ℕ) → TermLeafReads log.new.entries p.leaf v
            → Contains (defining_output f.now graph.now node).support v) }
        ensures limit { IsErrOf result Stop.Limit → IsAtSomeLimit log.new }
    {
        let proved = self.prove_node(oracle, definability, graph, f, y, node, log)?;
        Ok(proved)
    }

    // The same, by what the log got.
    fn prove_node<O: Oracle>(
        &mut self,
        oracle: &mut O,
        definability: &Definability,
        graph: &Graph,
        f: &Formula,
        y: u64,
        node: Node,
        log: &mut Log,
    ) -> Result<Proved, Stop>
        requires fit { O.Fits oracle.old log.old }
        requires formula { IsWellFormed f.now }
        requires beside { AreBeside f.now definability.now self.old log.old.entries }
        requires inputs { graph.now.inputs ≡ length f.now.universals + length f.now.existentials }
        requires definition { IsDefinedBy f.now graph.now y node }
        requires none { AreUndiffered y log.old.entries }
        ensures fit { O.Fits oracle.new log.new }
        ensures grew { GrewByProof f.now (group_variable self.old.group) y log.old log.new }
        ensures proved { IfOk result
            (IsProvedBy f.now graph.now definability.now y node self.new log.new.entries) }
        ensures limit { IsErrOf result Stop.Limit → IsAtSomeLimit log.new }
    {
        names_are_unique();
        let inputs = Inputs {
            graph,
            copy: &definability.first,
            f,
        };
        let leaf = self.leaf(oracle, &inputs, node, log)?;
        let difference = Difference {
            existential: y,
            copy: copied_variable(&definability.first, f, y),
            output: leaf,
        };
        let group = difference.give(oracle, log)?;
        let active = joined(self.alloc, &definability.first.groups, &[self.group, group])?;
        let proved = difference.refute(oracle, &active, log)?;
        Ok(proved)
    }
}
