//! A formula's file, read piece by piece, so that its text doesn't stand in memory.

ghost use Rattle.std.specs.Prelude.{◌≡◌, ◌≤◌, ℕ, List, vec_len, IfOk, IsErrOf};
ghost use Rattle.dq_io.specs.State.{state_of};
ghost use Rattle.dqdimacs_reader.specs.Pieces.{StandsFor};
ghost use Rattle.dq_runs.specs.FormulaFiles.{IsTextRead, IsFormulaRead, formula_line, IsUnreadableStop};
ghost use Rattle.dq_runs.specs.Printed.{printed};

use crate::fault_names::formula_fault_name;
use crate::outputs::{Output, faulty, too_long, unreadable};
use crate::statuses::Failure;
use dq_formula::Formula;
use dq_io::{FeedStop, Files, feed_all};
use dq_lits::Memory;
use dqdimacs_reader::{FormulaFault, ReadStop, Reader};
use std::alloc::{AllocError, Global};

/// The most bytes of a formula.
const MAX_FORMULA: u64 = 1 << 30;

/// How many bytes are asked for at once.
const PIECE: usize = 65536;

/// What is said of a file that gives no formula.
#[derive(Clone, Copy, PartialEq, Eq)]
pub enum NoFormula {
    /// It can't be read: the files counted a fault.
    Unreadable,
    /// It gave more than 2^30 bytes.
    TooLong,
    /// Its text spells no formula: the first fault, by line and name.
    Refused { line: u64, name: FormulaFault },
}

impl NoFormula {
    /// The line that says so, and its status: 3, 6 or 2.
    pub fn output(self, alloc: Global) -> Result<Output, Memory>
        ensures { IfOk result (λ output. printed output ≡ formula_line self) }
    {
        match self {
            NoFormula::Unreadable => unreadable(alloc),
            NoFormula::TooLong => too_long(alloc, "formula"),
            NoFormula::Refused { line, name } => {
                let status = Failure::RefusedFormula.code();
                faulty(alloc, status, "refused", line, formula_fault_name(name))
            }
        }
    }
}

/// Why a file gave no formula.
#[derive(Clone, Copy, PartialEq, Eq)]
pub enum FormulaStop {
    Memory,
    Said(NoFormula),
}

/// Reads the formula in the file of that name. The file is read to its end before a fault of its
/// text counts.
pub fn read_formula<F: Files>(
    alloc: Global,
    files: &mut F,
    name: &str,
) -> Result<Formula, FormulaStop>
    ensures read { IsFormulaRead (state_of F.Files files.old) (state_of F.Files files.new) name.now
        result }
    ensures unfaulted { ¬ IsUnreadableStop result → F.faults files.new ≡ F.faults files.old }
    ensures later { F.faults files.old ≤ F.faults files.new }
    ensures held { F.held files.new ≡ F.held files.old }
    ensures still_reliable { F.reliable files.new ≡ F.reliable files.old }
{
    let Ok(mut buffer) = zeros(alloc, PIECE) else {
        return Err(FormulaStop::Memory);
    };
    let mut reader = Reader::new(alloc);
    match feed_all(files, name, MAX_FORMULA, &mut reader, &mut buffer) {
        Ok(()) => formula_of(reader),
        Err(FeedStop::Fault) => Err(FormulaStop::Said(NoFormula::Unreadable)),
        Err(FeedStop::TooLong) => Err(FormulaStop::Said(NoFormula::TooLong)),
    }
}

fn zeros(alloc: Global, count: usize) -> Result<Vec<u8>, AllocError>
    ensures { IfOk result (λ v. vec_len v ≡ count) }
{
    vec![in alloc; 0u8; count]
}

// The formula of the text that was fed.
fn formula_of(reader: Reader) -> Result<Formula, FormulaStop>
    ensures { (text : List ℕ) → StandsFor reader text → IsTextRead text result }
{
    match reader.end() {
        Ok(formula) => Ok(formula),
        Err(ReadStop::Refused { line, name }) => {
            Err(FormulaStop::Said(NoFormula::Refused { line, name }))
        }
        Err(ReadStop::Memory) => Err(FormulaStop::Memory),
    }
}
