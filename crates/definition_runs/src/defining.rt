//! The definitions of a formula's existentials, in as many steps as the log allows.

ghost use Rattle.std.specs.Prelude.{◌≡◌, [], IfOk, IsErrOf};
ghost use Rattle.dq_lits.specs.Formula.{IsWellFormed};
ghost use Rattle.dq_runs.specs.Printed.{printed};
ghost use Rattle.hint_log.specs.Entries.{steps_of};
ghost use Rattle.hint_log.specs.ProductiveLog.{IsProductiveLog};
ghost use Rattle.oracle.specs.Limits.{IsAtSomeLimit};
ghost use Rattle.definition_search.specs.Texts.{GoesOn, IsTextOfDefinitions};
ghost use Rattle.definition_runs.specs.Definitions.{IsDefinitionsOutput, printed_definitions, cut_off};

use cdcl_core::Cdcl;
use definition_search::write_definitions;
use dq_formula::Formula;
use dq_lits::Memory;
use dq_runs::Output;
use hint_log::{Log, Stop};
use std::alloc::Global;

/// The status where definitions are written.
const WRITTEN: u8 = 30;

/// The status where the steps didn't suffice.
const CUT_OFF: u8 = 0;

/// A text of definitions of a formula, with status 30; or, with status 0, how many clauses were
/// learned where the log's steps didn't suffice. The only error is want of memory.
pub(crate) fn define(alloc: Global, f: &Formula, log: &mut Log) -> Result<Output, Memory>
    requires formula { IsWellFormed f.now }
    requires empty { log.old.entries ≡ [] }
    ensures found { IfOk result (IsDefinitionsOutput f.now log.new) }
    ensures productive { IsProductiveLog f.now log.new.entries }
    ensures limit { log.new.limit ≡ log.old.limit }
{
    match definitions(alloc, f, log) {
        Ok(text) => Ok(Output {
            status: WRITTEN,
            text,
        }),
        Err(Stop::Limit) => unknown(alloc, log),
        Err(Stop::Memory) => Err(Memory),
    }
}

// The text, by a solver of its own.
fn definitions(alloc: Global, f: &Formula, log: &mut Log) -> Result<Vec<u8>, Stop>
    requires formula { IsWellFormed f.now }
    requires empty { log.old.entries ≡ [] }
    ensures goes_on { GoesOn f.now log.old log.new }
    ensures text { IfOk result (λ text. IsTextOfDefinitions f.now text.items) }
    ensures limit { IsErrOf result Stop.Limit → IsAtSomeLimit log.new }
{
    let mut oracle = Cdcl::new(alloc);
    write_definitions(alloc, &mut oracle, f, log)
}

// What is written where the limit came first.
fn unknown(alloc: Global, log: &Log) -> Result<Output, Memory>
    ensures { IfOk result (λ output. (f : _)
        → printed output ≡ printed_definitions f (cut_off (steps_of log.now.entries))) }
{
    let learned = log.steps();
    let text = format!(in alloc; "s UNKNOWN\nc rounds 0 learned {learned}\n")?;
    Ok(Output {
        status: CUT_OFF,
        text: text.into_bytes(),
    })
}
