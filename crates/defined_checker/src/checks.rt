//! Checking a text of definitions.

ghost use Rattle.std.specs.Prelude.{◌≡◌, ◌+◌, ◌<◌, ◌^◌, [], length, IsSome, IfOk, OnOk};
ghost use Rattle.dq_formula.specs.Prefix.{existential_variables};
ghost use Rattle.dq_text.specs.Line.{lines_from};
ghost use Rattle.cert_text.specs.DefinitionText.{read_block, read_blocks};
ghost use Rattle.cert_text.specs.DefinitionsRead.{block_seen};
ghost use Rattle.dq_lits.specs.Formula.{existential_of};
ghost use Rattle.cert_text.specs.AllowedDefinitions.{IsBlockOf};
ghost use Rattle.defined_checker.specs.Judging.{AcceptsFaultless, IsChecked, counted, no_counts};
ghost use Rattle.defined_checker.specs.Tallies.{AreTaken, AreTallied, IsOneMore, IsTaken, IsTallied, IsTalliedWith, concluded};
ghost use Rattle.defined_checker.specs.Answers.{IsFaultWith};

use crate::faults::{DefStop, DefinitionFault, text_stop};
use crate::judging::judge_block;
use cert_text::laws::{definitions_are_lawful, definitions_or_first_fault};
use cert_text::{
    CertFault, CertRefusal, DefinitionBlock, read_blank_lines, read_block, read_definitions_header,
};
use dq_formula::Formula;
use dq_lits::Memory;
use dq_text::Lines;
use std::alloc::Global;

/// How many existentials are defined, and how many are shown to have no definition.
#[derive(Clone, Copy, Debug, PartialEq, Eq)]
pub struct DefinedCounts {
    pub defined: u64,
    pub free: u64,
}

/// What was found in the blocks so far.
#[derive(Clone, Copy)]
pub(crate) struct Tally {
    pub counts: DefinedCounts,
    pub fault: Option<DefinitionFault>,
}

/// Checks a text of definitions for a formula, whose first line has the number `first`: how many
/// blocks of each kind it has where none is at fault, or the first refusal of the text, or else the
/// first fault of a block.
pub fn check(alloc: Global, f: &Formula, bytes: &[u8], first: u64) -> Result<DefinedCounts, DefStop>
    requires { first + length bytes.now < 2 ^ 64 }
    ensures checked { IsChecked f.now bytes.now first result }
    ensures accepted { AcceptsFaultless f.now bytes.now result }
{
    definitions_or_first_fault();
    f.every_formula_is_lawful();
    check_text(alloc, f, bytes, first)
}

// The same, by the readers of its lines.
fn check_text(
    alloc: Global,
    f: &Formula,
    bytes: &[u8],
    first: u64,
) -> Result<DefinedCounts, DefStop>
    requires { first + length bytes.now < 2 ^ 64 }
    ensures { IsChecked f.now bytes.now first result }
{
    let mut lines = Lines::new(bytes, first);
    let Some(line) = lines.next() else {
        return Err(refused(first, CertFault::BadHeader));
    };
    if let Err(name) = read_definitions_header(f, line.text) {
        return Err(refused(line.number, name));
    }
    let tally = check_blocks(alloc, f, &mut lines)?;
    conclude(tally)
}

fn refused(line: u64, name: CertFault) -> DefStop
    ensures { result ≡ DefStop.Refused (record { line = line; name = name }) }
{
    DefStop::Refused(CertRefusal { line, name })
}

fn conclude(tally: Tally) -> Result<DefinedCounts, DefStop>
    ensures { result ≡ concluded tally }
{
    match tally.fault {
        Some(fault) => Err(DefStop::Invalid(fault)),
        None => Ok(tally.counts),
    }
}

// Checks the blocks of all existentials, and that nothing stands behind them.
fn check_blocks(alloc: Global, f: &Formula, lines: &mut Lines) -> Result<Tally, DefStop>
    ensures { AreTallied f.now (read_blocks f.now (existential_variables f.now)
        (lines_from lines.old.number lines.old.rest) lines.old.number) result }
{
    let mut tally = Tally {
        counts: DefinedCounts {
            defined: 0,
            free: 0,
        },
        fault: None,
    };
    take_blocks(alloc, f, lines, &mut tally)?;
    read_blank_lines(lines)?;
    Ok(tally)
}

// Checks the blocks of all existentials.
fn take_blocks(
    alloc: Global,
    f: &Formula,
    lines: &mut Lines,
    tally: &mut Tally,
) -> Result<(), DefStop>
    requires none { IsTallied f.now [] tally.old }
    requires zero { tally.old.counts ≡ no_counts }
    ensures { AreTaken f.now (read_blocks f.now (existential_variables f.now)
        (lines_from lines.old.number lines.old.rest) lines.old.number) result tally.new lines.new }
{
    f.every_formula_is_lawful();
    let count = f.existentials().len();
    for k in 0..count {
        take_block(alloc, f, f.existentials()[k], lines, tally)?;
    }
    Ok(())
}

// Checks the next block, that of the existential `y`.
fn take_block(
    alloc: Global,
    f: &Formula,
    y: u64,
    lines: &mut Lines,
    tally: &mut Tally,
) -> Result<(), DefStop>
    requires existential { IsSome (existential_of f.now y) }
    requires few { tally.old.counts.defined + tally.old.counts.free < 18446744073709551615 }
    ensures taken { IsTaken f.now (read_block f.now y
        (lines_from lines.old.number lines.old.rest) lines.old.number) tally.old result tally.new
        lines.new }
    ensures one { OnOk result (IsOneMore tally.old.counts tally.new.counts) }
{
    definitions_are_lawful();
    match read_block(alloc, f, y, lines) {
        Ok(block) => Ok(tally_block(alloc, f, y, &block, tally)?),
        Err(stop) => Err(text_stop(stop)),
    }
}

// Puts a block behind those before it.
fn tally_block(
    alloc: Global,
    f: &Formula,
    y: u64,
    block: &DefinitionBlock,
    tally: &mut Tally,
) -> Result<(), Memory>
    requires existential { IsSome (existential_of f.now y) }
    requires lawful { IsBlockOf f.now y (block_seen block.now) }
    requires few { tally.old.counts.defined + tally.old.counts.free < 18446744073709551615 }
    ensures tallied { OnOk result (IsTalliedWith f.now (block_seen block.now) tally.old tally.new) }
    ensures one { OnOk result (IsOneMore tally.old.counts tally.new.counts) }
{
    let fault = fault_with(alloc, f, y, block, tally.fault)?;
    tally.counts = with_block(tally.counts, block);
    tally.fault = fault;
    Ok(())
}

// The first fault with one more block.
fn fault_with(
    alloc: Global,
    f: &Formula,
    y: u64,
    block: &DefinitionBlock,
    fault: Option<DefinitionFault>,
) -> Result<Option<DefinitionFault>, Memory>
    requires existential { IsSome (existential_of f.now y) }
    requires lawful { IsBlockOf f.now y (block_seen block.now) }
    ensures { IfOk result (IsFaultWith f.now (block_seen block.now) fault) }
{
    match fault {
        Some(_) => Ok(fault),
        None => judge_block(alloc, f, y, block),
    }
}

fn with_block(counts: DefinedCounts, block: &DefinitionBlock) -> DefinedCounts
    requires { counts.defined + counts.free < 18446744073709551615 }
    ensures counts { result ≡ counted (block_seen block.now) counts }
    ensures one { IsOneMore counts result }
{
    match block {
        DefinitionBlock::Defined(_) => DefinedCounts {
            defined: counts.defined + 1,
            free: counts.free,
        },
        DefinitionBlock::Free(_) => DefinedCounts {
            defined: counts.defined,
            free: counts.free + 1,
        },
    }
}
