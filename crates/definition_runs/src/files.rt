//! The definitions of the formula in a file.

ghost use Rattle.std.specs.Prelude.{◌≡◌, [], IfOk};
ghost use Rattle.dq_io.specs.State.{state_of};
ghost use Rattle.definition_runs.specs.DefinedFiles.{IsDefinedLog, IsDefinedOutput};

use crate::defining::define;
use dq_io::Files;
use dq_lits::Memory;
use dq_runs::{FormulaStop, Output, read_formula};
use hint_log::Log;
use std::alloc::Global;

/// What is to be written where the definitions of the formula in a file are asked for, in as many
/// steps as the log allows: a text of definitions, with status 30; where the steps didn't suffice,
/// how many clauses were learned, with status 0; or what is said of the file. The only error is want
/// of memory.
pub fn define_file<F: Files>(
    alloc: Global,
    files: &mut F,
    file: &str,
    log: &mut Log,
) -> Result<Output, Memory>
    requires empty { log.old.entries ≡ [] }
    ensures defined { IfOk result (IsDefinedOutput (state_of F.Files files.old)
        (state_of F.Files files.new) log.new file.now) }
    ensures log { IsDefinedLog (state_of F.Files files.old) file.now log.new }
    ensures limit { log.new.limit ≡ log.old.limit }
    ensures held { F.held files.new ≡ F.held files.old }
{
    match read_formula(alloc, files, file) {
        Ok(f) => define(alloc, &f, log),
        Err(FormulaStop::Memory) => Err(Memory),
        Err(FormulaStop::Said(said)) => said.output(alloc),
    }
}
