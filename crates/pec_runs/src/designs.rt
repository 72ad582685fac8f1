//! The formula of the design in two files, or what is said of them.
//!
//! A refusal of a text waits until both files were read.

ghost use Rattle.std.specs.Prelude.{◌≡◌, ◌≤◌, length, IfOk};
ghost use Rattle.dq_io.specs.State.{state_of};
ghost use Rattle.dq_runs.specs.Printed.{printed};
ghost use Rattle.pec_runs.specs.DesignFiles.{max_circuit, IsDesignRead, IsUnreadableStop, design_line};
ghost use Rattle.pec_runs.specs.TextFiles.{IsTextRead, IsUnreadableText, IsReadBehind};

use crate::refusal_names::imp_fault_name;
use crate::texts::formula_of_texts;
use aiger_text::AagFault;
use dq_formula::Formula;
use dq_io::{Files, ReadStop, read_all};
use dq_lits::Memory;
use dq_runs::outputs::{Output, faulty, too_long, unreadable};
use pec_front::PecFault;
use std::alloc::Global;

/// The most bytes of a circuit.
const MAX_CIRCUIT: u64 = 1 << 30;

/// The status where a circuit or a design is refused.
const REFUSED: u8 = 7;

/// Why an implementation is refused: as a circuit, or as one with boxes for the specification.
#[derive(Clone, Copy, PartialEq, Eq)]
pub enum ImpFault {
    Circuit(AagFault),
    Design(PecFault),
}

/// What is said of files that make no design whose formula is within the limits.
#[derive(Clone, Copy, PartialEq, Eq)]
pub enum NoDesign {
    /// One of them can't be read: the files counted a fault.
    Unreadable,
    /// The specification's gave more than 2^30 bytes.
    LongSpec,
    /// The implementation's gave more than 2^30 bytes.
    LongImp,
    /// The specification's text spells no circuit: the first fault, by line and name.
    RefusedSpec { line: u64, name: AagFault },
    /// The implementation's first refusal, by line and name.
    RefusedImp { line: u64, name: ImpFault },
}

impl NoDesign {
    /// The line that says so, and its status: 3, 6 or 7.
    pub fn output(self, alloc: Global) -> Result<Output, Memory>
        ensures { IfOk result (λ output. printed output ≡ design_line self) }
    {
        match self {
            NoDesign::Unreadable => unreadable(alloc),
            NoDesign::LongSpec => too_long(alloc, "spec"),
            NoDesign::LongImp => too_long(alloc, "impl"),
            NoDesign::RefusedSpec { line, name } => {
                faulty(alloc, REFUSED, "spec", line, name.name())
            }
            NoDesign::RefusedImp { line, name } => {
                faulty(alloc, REFUSED, "impl", line, imp_fault_name(name))
            }
        }
    }
}

/// Why files gave no formula.
#[derive(Clone, Copy, PartialEq, Eq)]
pub enum DesignStop {
    Memory,
    Said(NoDesign),
}

/// Reads a specification and an implementation with boxes from the files of these names, and makes
/// the formula of their design. Both files are read to their ends before a refusal of a text counts.
pub fn read_design_formula<F: Files>(
    alloc: Global,
    files: &mut F,
    spec: &str,
    imp: &str,
) -> Result<Formula, DesignStop>
    ensures read { IsDesignRead (state_of F.Files files.old) (state_of F.Files files.new) spec.now
        imp.now result }
    ensures unfaulted { ¬ IsUnreadableStop result → F.faults files.new ≡ F.faults files.old }
    ensures held { F.held files.new ≡ F.held files.old }
{
    let spec = read_text(alloc, files, spec, NoDesign::LongSpec)?;
    read_behind(alloc, files, &spec, imp)
}

// The same behind the specification's text.
fn read_behind<F: Files>(
    alloc: Global,
    files: &mut F,
    spec: &[u8],
    imp: &str,
) -> Result<Formula, DesignStop>
    requires { length spec.now ≤ max_circuit }
    ensures read { IsReadBehind (state_of F.Files files.old) (state_of F.Files files.new) spec.now
        imp.now result }
    ensures unfaulted { ¬ IsUnreadableStop result → F.faults files.new ≡ F.faults files.old }
    ensures held { F.held files.new ≡ F.held files.old }
{
    let imp = read_text(alloc, files, imp, NoDesign::LongImp)?;
    formula_of_texts(alloc, spec, &imp)
}

// The text of the file of that name, or what is to be said of it.
fn read_text<F: Files>(
    alloc: Global,
    files: &mut F,
    name: &str,
    long: NoDesign,
) -> Result<Vec<u8>, DesignStop>
    ensures read { IsTextRead (state_of F.Files files.old) (state_of F.Files files.new) name.now
        long result }
    ensures unfaulted { ¬ IsUnreadableText result → F.faults files.new ≡ F.faults files.old }
    ensures later { F.faults files.old ≤ F.faults files.new }
    ensures held { F.held files.new ≡ F.held files.old }
    ensures still_reliable { F.reliable files.new ≡ F.reliable files.old }
{
    match read_all(alloc, files, name, MAX_CIRCUIT) {
        Ok(text) => Ok(text),
        Err(ReadStop::Memory) => Err(DesignStop::Memory),
        Err(ReadStop::Fault) => Err(DesignStop::Said(NoDesign::Unreadable)),
        Err(ReadStop::TooLong) => Err(DesignStop::Said(long)),
    }
}
