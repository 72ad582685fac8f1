//! The search on a formula that is known to be true, and the judgement of its certificate.

ghost use Rattle.std.specs.Prelude.{◌≡◌, [], IfOk};
ghost use Rattle.dq_lits.specs.Formula.{IsWellFormed};
ghost use Rattle.dq_lits.specs.Henkin.{IsTrueFormula};
ghost use Rattle.hint_log.specs.ProductiveLog.{IsProductiveLog};
ghost use Rattle.cert_export.specs.ExportedCircuit.{IsDecidedTrue};
ghost use Rattle.dq_verdicts.specs.Shown.{IsDemonstrated};

use crate::verdicts::{Decision, search};
use cert_export::laws::productive_answers_can_be_exported;
use cert_judge::laws::one_judgement;
use cert_judge::{Judgement, judge};
use dq_formula::Formula;
use dq_lits::Memory;
use dq_lits::laws::{expansion_lifts, no_formula_is_both};
use hint_log::{Log, Stop};
use std::alloc::Global;
use verdict_texts::{Form, true_text};

/// The judge numbers the lines of a text by bytes, for texts of fewer bytes than this. No run comes
/// there.
const MAX_TEXT: usize = 1 << 61;

/// What was shown of a true formula.
#[derive(Clone, Copy)]
pub enum Demonstration {
    /// It is true, and the checker accepts its certificate.
    Valid,
    /// It is true, and its certificate is beyond the formats' limits.
    Large,
    /// The step limit came first.
    CutOff,
}

/// Searches a true formula, in as many steps as the log allows, and has the certificate judged.
pub fn demonstrate(alloc: Global, f: &Formula, log: &mut Log) -> Result<Demonstration, Memory>
    requires well_formed { IsWellFormed f.now }
    requires is_true { IsTrueFormula f.now }
    requires empty { log.old.entries ≡ [] }
    ensures shown { IfOk result (IsDemonstrated f.now log.new) }
    ensures productive { IsProductiveLog f.now log.new.entries }
    ensures limit { log.new.limit ≡ log.old.limit }
{
    expansion_lifts();
    no_formula_is_both();
    match search(alloc, f, log) {
        Ok(Decision::Shown(id)) => judged(alloc, log, id, f),
        Ok(Decision::Refuted(_)) => unreachable!(),
        Err(Stop::Limit) => Ok(Demonstration::CutOff),
        Err(Stop::Memory) => Err(Memory),
    }
}

// What the checker says of the certificate of an answer.
fn judged(alloc: Global, log: &Log, id: u64, f: &Formula) -> Result<Demonstration, Memory>
    requires formula { IsWellFormed f.now }
    requires productive { IsProductiveLog f.now log.now.entries }
    requires is_true { IsTrueFormula f.now }
    requires decided { IsDecidedTrue f.now log.now.entries id }
    ensures { IfOk result (IsDemonstrated f.now log.now) }
{
    one_judgement();
    log.every_log_is_lawful();
    productive_answers_can_be_exported();
    let form = Form {
        bare: false,
        deletes: false,
        binary: false,
    };
    let text = true_text(alloc, log, id, f, form)?;
    if text.len() >= MAX_TEXT {
        return Err(Memory);
    }
    match judge(alloc, f, text)? {
        Judgement::ValidTrue => Ok(Demonstration::Valid),
        _ => Ok(Demonstration::Large),
    }
}
