//! The text of all definitions.

ghost use Rattle.std.specs.Prelude.{◌≡◌, ℕ, IfOk, IsErrOf};
ghost use Rattle.dq_lits.specs.Formula.{IsWellFormed};
ghost use Rattle.hint_log.specs.ProductiveLog.{IsProductiveLog};
ghost use Rattle.log_laws.specs.Engines.{copies, HasNone};
ghost use Rattle.oracle.specs.Limits.{IsAtSomeLimit};
ghost use Rattle.definability.specs.Growing.{HasFewFaults};
ghost use Rattle.definition_search.specs.Searching.{IsSearch};
ghost use Rattle.definition_search.specs.Texts.{GoesOn, IsTextOfDefinitions};

use crate::searching::Search;
use cert_text::{write_block, write_definitions_header};
use dq_formula::Formula;
use hint_log::{Log, Stop};
use oracle::Oracle;
use std::alloc::Global;

/// A text of definitions for a formula, with a block for each existential, none of which is at
/// fault. It stops for want of memory or at the log's limit.
pub fn write_definitions<O: Oracle>(
    alloc: Global,
    oracle: &mut O,
    f: &Formula,
    log: &mut Log,
) -> Result<Vec<u8>, Stop>
    requires fit { O.Fits oracle.old log.old }
    requires formula { IsWellFormed f.now }
    requires productive { IsProductiveLog f.now log.old.entries }
    requires none { HasNone copies log.old.entries }
    requires few { HasFewFaults log.old.entries }
    ensures fit { O.Fits oracle.new log.new }
    ensures goes_on { GoesOn f.now log.old log.new }
    ensures text { IfOk result (λ text. IsTextOfDefinitions f.now text.items) }
    ensures limit { IsErrOf result Stop.Limit → IsAtSomeLimit log.new }
{
    let mut search = Search::new(alloc, oracle, f, log)?;
    text_by(alloc, oracle, f, &mut search, log)
}

// The text, by a search that wasn't asked for anything. It is lent, since a search that goes out of
// scope at each `?` costs the prover more than all else here.
fn text_by<O: Oracle>(
    alloc: Global,
    oracle: &mut O,
    f: &Formula,
    search: &mut Search,
    log: &mut Log,
) -> Result<Vec<u8>, Stop>
    requires fit { O.Fits oracle.old log.old }
    requires formula { IsWellFormed f.now }
    requires search { IsSearch f.now search.old 0 log.old.entries }
    ensures fit { O.Fits oracle.new log.new }
    ensures goes_on { GoesOn f.now log.old log.new }
    ensures text { IfOk result (λ text. IsTextOfDefinitions f.now text.items) }
    ensures limit { IsErrOf result Stop.Limit → IsAtSomeLimit log.new }
{
    f.every_formula_is_lawful();
    let mut text = Vec::new(alloc);
    write_definitions_header(f, &mut text)?;
    for place in 0..f.existentials().len() {
        let block = search.block(oracle, f, place, log)?;
        write_block(f, &block, &mut text)?;
    }
    Ok(text)
}
