//! What a run writes of a certificate that was judged.

ghost use Rattle.std.specs.Prelude.{◌≡◌, ◌++◌, codes, IfOk, OnOk};
ghost use Rattle.dq_runs.specs.Printed.{line, printed};
ghost use Rattle.dqcheck_core.specs.Report.{judged, row_text, block_text, answer_text, answer_status, printed_report};
ghost use Rattle.dqcheck_core.specs.Statuses.{code};

use crate::fault_names::certificate_fault_name;
use crate::statuses::CheckStatus;
use cert_judge::Judgement;
use defined_checker::DefinitionFault;
use dq_formula::Formula;
use dq_lits::Memory;
use dq_runs::Output;
use dq_text::push_natural;
use std::alloc::Global;

/// The line on a certificate that was judged.
pub fn judged_output(alloc: Global, f: &Formula, answer: Judgement) -> Result<Output, Memory>
    ensures { IfOk result (λ output. printed output ≡ printed_report (judged f.now answer)) }
{
    let text = answer_line(alloc, f, answer)?;
    let status = answer_status(answer).code();
    Ok(Output { status, text })
}

fn answer_status(answer: Judgement) -> CheckStatus
    ensures { code result ≡ answer_status answer }
{
    match answer {
        Judgement::Refused { .. } => CheckStatus::RefusedCertificate,
        Judgement::UndeclaredRead { .. } => CheckStatus::WrongCertificate,
        Judgement::BadRow { .. } => CheckStatus::WrongCertificate,
        Judgement::Unproved { .. } => CheckStatus::Unproved,
        Judgement::UnderivedStep { .. } => CheckStatus::WrongCertificate,
        Judgement::NoEmptyClause => CheckStatus::WrongCertificate,
        Judgement::ValidTrue => CheckStatus::Accepted,
        Judgement::ValidFalse => CheckStatus::Accepted,
        Judgement::BadBlock { .. } => CheckStatus::WrongCertificate,
        Judgement::ValidDefinitions { .. } => CheckStatus::Accepted,
    }
}

fn answer_line(alloc: Global, f: &Formula, answer: Judgement) -> Result<Vec<u8>, Memory>
    ensures { IfOk result (λ bytes. bytes.items ≡ line (answer_text f.now answer)) }
{
    let text = match answer {
        Judgement::Refused { line, name } => {
            let name = certificate_fault_name(name);
            format!(in alloc; "certificate {line} {name}\n")?
        }
        Judgement::BadRow { number } => return row_line(alloc, f, number),
        Judgement::UndeclaredRead {
            existential,
            universal,
        } => format!(in alloc; "INVALID reads {existential} {universal}\n")?,
        Judgement::Unproved { universals } => format!(in alloc; "UNPROVED {universals}\n")?,
        Judgement::UnderivedStep { id } => format!(in alloc; "INVALID step {id}\n")?,
        Judgement::NoEmptyClause => format!(in alloc; "INVALID end\n")?,
        Judgement::ValidTrue => format!(in alloc; "VALID TRUE\n")?,
        Judgement::ValidFalse => format!(in alloc; "VALID FALSE\n")?,
        Judgement::BadBlock { fault } => return block_line(alloc, fault),
        Judgement::ValidDefinitions { counts } => {
            let defined = counts.defined;
            let free = counts.free;
            format!(in alloc; "VALID DEFINED {defined} FREE {free}\n")?
        }
    };
    Ok(text.into_bytes())
}

// What is wrong with a block of definitions.
fn block_line(alloc: Global, fault: DefinitionFault) -> Result<Vec<u8>, Memory>
    ensures { IfOk result (λ bytes. bytes.items ≡ line (block_text fault)) }
{
    let text = match fault {
        DefinitionFault::Reads(y, x) => format!(in alloc; "INVALID reads {y} {x}\n")?,
        DefinitionFault::Step(y, id) => format!(in alloc; "INVALID definition {y} {id}\n")?,
        DefinitionFault::Unfinished(y) => format!(in alloc; "INVALID definition {y} end\n")?,
        DefinitionFault::Pair(y) => format!(in alloc; "INVALID pair {y}\n")?,
    };
    Ok(text.into_bytes())
}

// The universals, each with the sign that it has under the row of a number.
fn row_line(alloc: Global, f: &Formula, number: u32) -> Result<Vec<u8>, Memory>
    ensures { IfOk result
        (λ bytes. bytes.items ≡ line (codes "INVALID row" ++ row_text number f.now.universals)) }
{
    let mut text = Vec::new(alloc);
    push_text(&mut text, "INVALID row")?;
    push_row(&mut text, number, f.universals())?;
    push_text(&mut text, "\n")?;
    Ok(text)
}

fn push_text(text: &mut Vec<u8>, piece: &str) -> Result<(), Memory>
    ensures { OnOk result (text.new.items ≡ text.old.items ++ piece.now) }
{
    text.extend_from_slice(piece.as_bytes())?;
    Ok(())
}

fn push_row(text: &mut Vec<u8>, number: u32, universals: &[u64]) -> Result<(), Memory>
    ensures { OnOk result (text.new.items ≡ text.old.items ++ row_text number universals.now) }
{
    let mut rest = universals;
    let mut bits = number;
    while let Some((x, behind)) = rest.split_first() {
        push_text(text, if bits % 2 == 1 { " " } else { " -" })?;
        push_natural(text, *x)?;
        rest = behind;
        bits /= 2;
    }
    Ok(())
}
