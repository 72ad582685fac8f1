//! The judgement of a block.
//!
//! A block is judged when it was read, and isn't kept: memory follows the longest block. Behind the
//! first fault the text is read on, since a refusal comes first.

ghost use Rattle.std.specs.Prelude.{◌≡◌, ℕ, IsSome, IfOk, Some};
ghost use Rattle.dq_lits.specs.Formula.{Existential, existential_of};
ghost use Rattle.cert_text.specs.AllowedDefinitions.{IsBlockOf, IsDefinitionOf, IsValuationOf};
ghost use Rattle.cert_text.specs.DefinitionBlocks.{defined, free};
ghost use Rattle.cert_text.specs.DefinitionsRead.{block_seen, definition_seen, pair_seen, valuation_seen};
ghost use Rattle.rup_core.specs.ProofVerdict.{proof_fault_in};
ghost use Rattle.defined_checker.specs.Answers.{named_fault};
ghost use Rattle.defined_checker.specs.Judging.{IsJudged};

use crate::faults::DefinitionFault;
use crate::pairs::is_free_pair;
use crate::reads::first_foreign;
use crate::steps::steps_fault;
use cert_text::{Definition, DefinitionBlock, FreePair};
use dq_formula::Formula;
use dq_lits::Memory;
use rup_core::ProofFault;
use std::alloc::Global;

/// What is wrong first with the block of the existential `y`.
pub(crate) fn judge_block(
    alloc: Global,
    f: &Formula,
    y: u64,
    block: &DefinitionBlock,
) -> Result<Option<DefinitionFault>, Memory>
    requires existential { IsSome (existential_of f.now y) }
    requires lawful { IsBlockOf f.now y (block_seen block.now) }
    ensures { IfOk result (IsJudged f.now (block_seen block.now)) }
{
    match block {
        DefinitionBlock::Defined(d) => judge_definition(alloc, f, d),
        DefinitionBlock::Free(p) => Ok(judge_pair(f, p)),
    }
}

fn judge_definition(
    alloc: Global,
    f: &Formula,
    d: &Definition,
) -> Result<Option<DefinitionFault>, Memory>
    requires existential { IsSome (existential_of f.now d.now.existential) }
    requires lawful { IsDefinitionOf f.now (definition_seen d.now) }
    ensures { IfOk result (IsJudged f.now (defined (definition_seen d.now))) }
{
    match first_foreign(alloc, f, d)? {
        Some(variable) => Ok(Some(DefinitionFault::Reads(d.existential, variable))),
        None => {
            let fault = steps_fault(alloc, f, d)?;
            Ok(named_fault(d.existential, fault))
        }
    }
}

fn named_fault(y: u64, fault: Option<ProofFault>) -> Option<DefinitionFault>
    ensures { result ≡ named_fault y (proof_fault_in fault) }
{
    match fault {
        Some(ProofFault::Underived(id)) => Some(DefinitionFault::Step(y, id)),
        Some(ProofFault::Unfinished) => Some(DefinitionFault::Unfinished(y)),
        None => None,
    }
}

fn judge_pair(f: &Formula, p: &FreePair) -> Option<DefinitionFault>
    requires existential { IsSome (existential_of f.now p.now.existential) }
    requires first { IsValuationOf f.now (valuation_seen p.now.first) }
    requires second { IsValuationOf f.now (valuation_seen p.now.second) }
    ensures { IsJudged f.now (free (pair_seen p.now)) result }
{
    if is_free_pair(f, p) {
        None
    } else {
        Some(DefinitionFault::Pair(p.existential))
    }
}
