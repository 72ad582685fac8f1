//! What is written of a design: its formula.

ghost use Rattle.std.specs.Prelude.{◌≡◌, IfOk};
ghost use Rattle.dq_io.specs.State.{state_of};
ghost use Rattle.dq_runs.specs.Printed.{printed};
ghost use Rattle.pec_runs.specs.Encoded.{IsEncodeOutput, printed_formula};

use crate::designs::{DesignStop, read_design_formula};
use dq_formula::Formula;
use dq_io::Files;
use dq_lits::Memory;
use dq_runs::Output;
use dqdimacs_reader::write;
use std::alloc::Global;

/// The status where the formula is written.
const ENCODED: u8 = 0;

/// The formula of the design in the files of these names, as it is written, or what is said of them.
pub fn encode<F: Files>(
    alloc: Global,
    files: &mut F,
    spec: &str,
    imp: &str,
) -> Result<Output, Memory>
    ensures encoded { IfOk result
        (IsEncodeOutput (state_of F.Files files.old) (state_of F.Files files.new) spec.now imp.now) }
    ensures held { F.held files.new ≡ F.held files.old }
{
    match read_design_formula(alloc, files, spec, imp) {
        Ok(f) => encoded(alloc, &f),
        Err(DesignStop::Memory) => Err(Memory),
        Err(DesignStop::Said(said)) => said.output(alloc),
    }
}

// The formula's canonical text.
fn encoded(alloc: Global, f: &Formula) -> Result<Output, Memory>
    ensures { IfOk result (λ output. printed output ≡ printed_formula f.now) }
{
    let text = write(alloc, f)?;
    Ok(Output {
        status: ENCODED,
        text,
    })
}
