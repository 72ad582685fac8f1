//! Judging a text of definitions.

ghost use Rattle.std.specs.Prelude.{◌≡◌, ◌≤◌, IfOk};
ghost use Rattle.cert_text.specs.DefinitionText.{definitions_of};
ghost use Rattle.cert_judge.specs.Judgement.{IsDefinitionsAnswer};

use crate::answers::{CertificateFault, Judgement, refused};
use defined_checker::{DefStop, check};
use dq_formula::Formula;
use dq_lits::Memory;
use std::alloc::Global;

/// Judges definitions, whose header line begins the text and has the number `first`.
pub(crate) fn judge_definitions(
    alloc: Global,
    f: &Formula,
    first: u64,
    text: Vec<u8>,
) -> Result<Judgement, Memory>
    requires early { first ≤ 2 }
    ensures { IfOk result (IsDefinitionsAnswer f.now (definitions_of f.now text.items first)) }
{
    match check(alloc, f, &text, first) {
        Ok(counts) => Ok(Judgement::ValidDefinitions { counts }),
        Err(DefStop::Invalid(fault)) => Ok(Judgement::BadBlock { fault }),
        Err(DefStop::Refused(refusal)) => {
            Ok(refused(refusal.line, CertificateFault::Text(refusal.name)))
        }
        Err(DefStop::Memory) => Err(Memory),
    }
}
