//! The searches of the script in a file, over the formula in another one.

ghost use Rattle.std.specs.Prelude.{◌≡◌, ◌≤◌, [], length, IfOk};
ghost use Rattle.dq_io.specs.State.{state_of};
ghost use Rattle.dq_lits.specs.Formula.{IsWellFormed};
ghost use Rattle.dq_runs.specs.Printed.{printed};
ghost use Rattle.cert_text.specs.Header.{max_count};
ghost use Rattle.session_runs.specs.SessionFiles.{max_script, session_line, IsSessionOutput, IsSessionLog};
ghost use Rattle.session_runs.specs.ScriptFiles.{IsScriptRead, IsUnreadableScript, IsTextOutput, IsTextLog, IsBehindFormula, IsLogBehind, IsBehindFault};
ghost use Rattle.dq_runs.specs.declared.formulas.NoFormula.TheVariants.{Refused};

use crate::fault_names::script_fault_name;
use crate::sessions::session_text;
use dq_formula::Formula;
use dq_io::{Files, ReadStop, read_all};
use dq_lits::Memory;
use dq_runs::outputs::{Output, faulty, too_long, unreadable};
use dq_runs::{FormulaStop, NoFormula, read_formula};
use dqdimacs_reader::FormulaFault;
use hint_log::Log;
use script_text::laws::scripts_are_allowed;
use script_text::{ScriptFault, ScriptStop, read_script};
use std::alloc::Global;

/// The most bytes of a script.
const MAX_SCRIPT: u64 = 1 << 30;

/// The status where a script is refused.
const REFUSED: u8 = 7;

/// The status where all searches were made.
const MADE: u8 = 0;

/// What is said of files that give no formula with a script for it.
#[derive(Clone, Copy, PartialEq, Eq)]
pub enum NoSession {
    /// The formula's gives none.
    NoFormula(NoFormula),
    /// The script's can't be read: the files counted a fault.
    UnreadableScript,
    /// The script's gave more than 2^30 bytes.
    LongScript,
    /// The script's first refusal, by line and name.
    RefusedScript { line: u64, name: ScriptFault },
}

impl NoSession {
    /// The line that says so, and its status: 2, 3, 6 or 7.
    pub fn output(self, alloc: Global) -> Result<Output, Memory>
        ensures { IfOk result (λ output. printed output ≡ session_line self) }
    {
        match self {
            NoSession::NoFormula(said) => said.output(alloc),
            NoSession::UnreadableScript => unreadable(alloc),
            NoSession::LongScript => too_long(alloc, "script"),
            NoSession::RefusedScript { line, name } => {
                faulty(alloc, REFUSED, "script", line, script_fault_name(name))
            }
        }
    }
}

/// Why a file gave no script's text.
#[derive(Clone, Copy, PartialEq, Eq)]
pub(crate) enum SessionStop {
    Memory,
    Said(NoSession),
}

/// What is to be written where the searches of a script are asked for, over the formula in a file,
/// in as many steps as the log allows in all: a block for each search, with status 0; or what is
/// said of the files. Both are read to their ends before a refusal of a text counts, the formula's
/// first. The only error is want of memory.
pub fn session_files<F: Files>(
    alloc: Global,
    files: &mut F,
    file: &str,
    script: &str,
    log: &mut Log,
) -> Result<Output, Memory>
    requires empty { log.old.entries ≡ [] }
    requires limit { log.old.limit ≤ max_count }
    ensures due { IfOk result (IsSessionOutput (state_of F.Files files.old)
        (state_of F.Files files.new) log.new file.now script.now) }
    ensures log { IsSessionLog (state_of F.Files files.old) file.now script.now log.new }
    ensures limit { log.new.limit ≡ log.old.limit }
    ensures held { F.held files.new ≡ F.held files.old }
{
    match read_formula(alloc, files, file) {
        Ok(f) => behind_formula(alloc, files, &f, script, log),
        Err(FormulaStop::Memory) => Err(Memory),
        Err(FormulaStop::Said(NoFormula::Unreadable)) => NoFormula::Unreadable.output(alloc),
        Err(FormulaStop::Said(NoFormula::TooLong)) => NoFormula::TooLong.output(alloc),
        Err(FormulaStop::Said(NoFormula::Refused { line, name })) => {
            behind_fault(alloc, files, line, name, script)
        }
    }
}

// What is due where the formula was read.
fn behind_formula<F: Files>(
    alloc: Global,
    files: &mut F,
    f: &Formula,
    script: &str,
    log: &mut Log,
) -> Result<Output, Memory>
    requires formula { IsWellFormed f.now }
    requires empty { log.old.entries ≡ [] }
    requires limit { log.old.limit ≤ max_count }
    ensures due { IfOk result (IsBehindFormula (state_of F.Files files.old)
        (state_of F.Files files.new) f.now log.new script.now) }
    ensures log { IsLogBehind (state_of F.Files files.old) script.now f.now log.new }
    ensures limit { log.new.limit ≡ log.old.limit }
    ensures held { F.held files.new ≡ F.held files.old }
{
    match read_text(alloc, files, script) {
        Ok(text) => text_output(alloc, f, &text, log),
        Err(SessionStop::Memory) => Err(Memory),
        Err(SessionStop::Said(said)) => said.output(alloc),
    }
}

// What is due where the formula's text has a fault.
fn behind_fault<F: Files>(
    alloc: Global,
    files: &mut F,
    line: u64,
    name: FormulaFault,
    script: &str,
) -> Result<Output, Memory>
    ensures due { IfOk result (IsBehindFault (state_of F.Files files.old)
        (state_of F.Files files.new) (Refused line name) script.now) }
    ensures held { F.held files.new ≡ F.held files.old }
{
    match read_text(alloc, files, script) {
        Ok(_) => NoFormula::Refused { line, name }.output(alloc),
        Err(SessionStop::Memory) => Err(Memory),
        Err(SessionStop::Said(said)) => said.output(alloc),
    }
}

// What is due of a script's text.
fn text_output(alloc: Global, f: &Formula, text: &[u8], log: &mut Log) -> Result<Output, Memory>
    requires formula { IsWellFormed f.now }
    requires short { length text.now ≤ max_script }
    requires empty { log.old.entries ≡ [] }
    requires limit { log.old.limit ≤ max_count }
    ensures due { IfOk result (IsTextOutput f.now text.now log.new) }
    ensures log { IsTextLog f.now text.now log.new }
    ensures limit { log.new.limit ≡ log.old.limit }
{
    scripts_are_allowed();
    match read_script(alloc, text, f) {
        Ok(script) => {
            let text = session_text(alloc, f, &script, log)?;
            Ok(Output { status: MADE, text })
        }
        Err(ScriptStop::Memory) => Err(Memory),
        Err(ScriptStop::Refused { line, name }) => {
            NoSession::RefusedScript { line, name }.output(alloc)
        }
    }
}

// The text of the script's file.
fn read_text<F: Files>(alloc: Global, files: &mut F, name: &str) -> Result<Vec<u8>, SessionStop>
    ensures read { IsScriptRead (state_of F.Files files.old) (state_of F.Files files.new) name.now
        result }
    ensures unfaulted { ¬ IsUnreadableScript result → F.faults files.new ≡ F.faults files.old }
    ensures later { F.faults files.old ≤ F.faults files.new }
    ensures held { F.held files.new ≡ F.held files.old }
    ensures still_reliable { F.reliable files.new ≡ F.reliable files.old }
{
    match read_all(alloc, files, name, MAX_SCRIPT) {
        Ok(text) => Ok(text),
        Err(ReadStop::Memory) => Err(SessionStop::Memory),
        Err(ReadStop::Fault) => Err(SessionStop::Said(NoSession::UnreadableScript)),
        Err(ReadStop::TooLong) => Err(SessionStop::Said(NoSession::LongScript)),
    }
}
