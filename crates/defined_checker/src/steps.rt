//! Whether a definition's proof shows that the existential and the output differ nowhere.

ghost use Rattle.std.specs.Prelude.{◌≡◌, ℕ, [], map, IsSome, IfOk, OnOk};
ghost use Rattle.dq_lits.specs.Derivation.{proof_fault};
ghost use Rattle.dq_lits.specs.Formula.{existential_of};
ghost use Rattle.rup_core.specs.Items.{derived};
ghost use Rattle.rup_core.specs.ProofVerdict.{proof_fault_in};
ghost use Rattle.rup_core.specs.Proving.{run_over};
ghost use Rattle.rup_core.specs.Runs.{run_fault, with_items};
ghost use Rattle.cert_text.specs.AllowedDefinitions.{IsDefinitionOf};
ghost use Rattle.cert_text.specs.DefinitionsRead.{definition_seen};
ghost use Rattle.defined_checker.specs.DefinitionBase.{definition_base};
ghost use Rattle.defined_checker.specs.Answers.{AreNumberedSteps};

use crate::bases::DefinitionBase;
use cert_text::{Definition, StepList};
use dq_formula::Formula;
use dq_lits::Memory;
use rup_core::laws::{lines_alone, run_is_fault};
use rup_core::{ProofFault, Proving};
use std::alloc::Global;

/// What is wrong first with the proof of a definition.
pub(crate) fn steps_fault(
    alloc: Global,
    f: &Formula,
    d: &Definition,
) -> Result<Option<ProofFault>, Memory>
    requires existential { IsSome (existential_of f.now d.now.existential) }
    requires lawful { IsDefinitionOf f.now (definition_seen d.now) }
    ensures { IfOk result (λ fault. proof_fault_in fault
        ≡ proof_fault (definition_base f.now (definition_seen d.now)) d.now.steps) }
{
    run_is_fault();
    lines_alone();
    let base = DefinitionBase::new(f, d);
    let mut proving = Proving::new(alloc, d.steps.len())?;
    judge_all(&base, &d.steps, &mut proving)?;
    Ok(proving.fault())
}

// Judges the steps up to the first that isn't derived.
fn judge_all(base: &DefinitionBase, steps: &StepList, proving: &mut Proving) -> Result<(), Memory>
    requires numbered { (first : ℕ) × AreNumberedSteps first steps.now }
    requires none { proving.old.lines ≡ [] }
    ensures { OnOk result
        (run_fault (run_over (definition_base base.now.formula base.now.definition) proving.new)
        ≡ run_fault (with_items
        (run_over (definition_base base.now.formula base.now.definition) proving.old)
        (map derived steps.now))) }
{
    for k in 0..steps.len() {
        let step = steps.get(k);
        proving.line(base, step.id, step.lits, step.hints)?;
    }
    Ok(())
}
