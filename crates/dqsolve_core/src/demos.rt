//! What is written of a planted formula.
//!
//! The text is judged as `solve` writes it, with the line with the verdict.

ghost use Rattle.std.specs.Prelude.{◌≡◌, ◌≤◌, [], IfOk};
ghost use Rattle.dq_lits.specs.Formula.{IsWellFormed};
ghost use Rattle.hint_log.specs.ProductiveLog.{IsProductiveLog};
ghost use Rattle.planted_formulas.specs.Planted.{planted_formula};
ghost use Rattle.dq_runs.specs.Printed.{line};
ghost use Rattle.dq_verdicts.specs.Statuses.{code};
ghost use Rattle.dqsolve_words.specs.Words.{planting_of};
ghost use Rattle.dqsolve_core.specs.Outputs.{IsDemoOutput};
ghost use Rattle.dqsolve_core.specs.Report.{demo_text, demonstration_text, demonstration_status};

use dq_formula::Formula;
use dq_lits::Memory;
use dq_runs::Output;
use dq_verdicts::{Demonstration, SolveStatus, demonstrate};
use dqsolve_words::DemoWords;
use hint_log::Log;
use planted_formulas::laws::planted_formulas_are_true;
use std::alloc::Global;

/// Decides a planted formula in as many steps as the log allows, and has its certificate judged.
pub fn demo_output(
    alloc: Global,
    asked: DemoWords,
    f: &Formula,
    log: &mut Log,
) -> Result<Output, Memory>
    requires planted { f.now ≡ planted_formula asked.seed asked.size }
    requires well_formed { IsWellFormed f.now }
    requires some { 1 ≤ asked.size }
    requires empty { log.old.entries ≡ [] }
    ensures demonstrated { IfOk result (IsDemoOutput (planting_of asked) log.new) }
    ensures productive { IsProductiveLog f.now log.new.entries }
    ensures limit { log.new.limit ≡ log.old.limit }
{
    planted_formulas_are_true();
    let shown = demonstrate(alloc, f, log)?;
    let text = demo_line(alloc, asked, f.clauses(), shown)?;
    let status = demonstration_status(shown).code();
    Ok(Output { status, text })
}

fn demonstration_status(shown: Demonstration) -> SolveStatus
    ensures { code result ≡ demonstration_status shown }
{
    match shown {
        Demonstration::Valid => SolveStatus::True,
        Demonstration::Large => SolveStatus::True,
        Demonstration::CutOff => SolveStatus::Unknown,
    }
}

fn demonstration_text(shown: Demonstration) -> &'static str
    ensures { result.now ≡ demonstration_text shown }
{
    match shown {
        Demonstration::Valid => " TRUE VALID",
        Demonstration::Large => " TRUE LARGE",
        Demonstration::CutOff => " UNKNOWN",
    }
}

fn demo_line(
    alloc: Global,
    asked: DemoWords,
    clauses: usize,
    shown: Demonstration,
) -> Result<Vec<u8>, Memory>
    ensures { IfOk result
        (λ text. text.items ≡ line (demo_text (planting_of asked) clauses shown)) }
{
    let seed = asked.seed;
    let size = asked.size;
    let shown = demonstration_text(shown);
    let text = format!(in alloc; "demo seed {seed} size {size} clauses {clauses}{shown}\n")?;
    Ok(text.into_bytes())
}
