//! The formula of the design in two texts.

ghost use Rattle.std.specs.Prelude.{◌≤◌, length};
ghost use Rattle.pec_runs.specs.DesignFiles.{max_circuit};
ghost use Rattle.pec_runs.specs.DesignTexts.{IsSpecStop, IsImpStop, IsTextReading, IsImplementationReading, IsCircuitReading};
ghost use Rattle.skolem_checker.specs.SkolemCircuit.{IsComplete};
ghost use Rattle.pec_front.specs.Reading.{CanNumber};

use crate::designs::{DesignStop, ImpFault, NoDesign};
use aiger_text::{AagFile, AagStop, ReadCircuit};
use dq_formula::Formula;
use pec_front::{PecStop, formula};
use std::alloc::Global;

/// The line on which a file begins.
const FIRST_LINE: u64 = 1;

// Why the specification's text gives no circuit.
fn spec_stopped(stop: AagStop) -> DesignStop
    ensures { IsSpecStop stop result }
{
    match stop {
        AagStop::Memory => DesignStop::Memory,
        AagStop::Refused { line, name } => DesignStop::Said(NoDesign::RefusedSpec { line, name }),
    }
}

// Why the implementation's text gives no circuit.
fn imp_stopped(stop: AagStop) -> DesignStop
    ensures { IsImpStop stop result }
{
    match stop {
        AagStop::Memory => DesignStop::Memory,
        AagStop::Refused { line, name } => DesignStop::Said(NoDesign::RefusedImp {
            line,
            name: ImpFault::Circuit(name),
        }),
    }
}

/// The formula of the design of two texts, or the first refusal.
pub(crate) fn formula_of_texts(
    alloc: Global,
    spec: &[u8],
    imp: &[u8],
) -> Result<Formula, DesignStop>
    requires spec { length spec.now ≤ max_circuit }
    requires imp { length imp.now ≤ max_circuit }
    ensures { IsTextReading spec.now imp.now result }
{
    match aiger_text::read(alloc, spec, FIRST_LINE) {
        Ok(read) => formula_behind(alloc, &read.file, imp),
        Err(stop) => Err(spec_stopped(stop)),
    }
}

// The same where the specification was read.
fn formula_behind(alloc: Global, spec: &AagFile, imp: &[u8]) -> Result<Formula, DesignStop>
    requires complete { IsComplete spec.now.circuit }
    requires imp { length imp.now ≤ max_circuit }
    ensures { IsImplementationReading spec.now.circuit imp.now result }
{
    match aiger_text::read(alloc, imp, FIRST_LINE) {
        Ok(read) => formula_of_circuits(alloc, spec, &read),
        Err(stop) => Err(imp_stopped(stop)),
    }
}

// The same where both circuits were read.
fn formula_of_circuits(
    alloc: Global,
    spec: &AagFile,
    imp: &ReadCircuit,
) -> Result<Formula, DesignStop>
    requires specification { IsComplete spec.now.circuit }
    requires implementation { IsComplete imp.now.file.circuit }
    requires lines { CanNumber imp.now 1 }
    ensures { IsCircuitReading spec.now.circuit imp.now result }
{
    match formula(alloc, spec, imp, FIRST_LINE) {
        Ok(f) => Ok(f),
        Err(PecStop::Memory) => Err(DesignStop::Memory),
        Err(PecStop::Refused { line, name }) => {
            let name = ImpFault::Design(name);
            Err(DesignStop::Said(NoDesign::RefusedImp { line, name }))
        }
    }
}
