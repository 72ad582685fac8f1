//! Where a reading stops.

ghost use Rattle.std.specs.Prelude.{◌≡◌};
ghost use Rattle.aiger_text.specs.declared.faults.AagStop.TheVariants.{Refused};
ghost use Rattle.aiger_text.specs.Steps.{StopsAt};

use aiger_text::{AagFault, AagStop, LineStop};

/// The text has this fault at this line.
pub fn refused(line: u64, name: AagFault) -> AagStop
    ensures { result ≡ Refused line name }
{
    AagStop::Refused { line, name }
}

/// What stopped the reading of a line stops that of the text.
pub fn at_line(line: u64, stop: LineStop) -> AagStop
    ensures { StopsAt line stop result }
{
    match stop {
        LineStop::Fault(name) => refused(line, name),
        LineStop::Memory => AagStop::Memory,
    }
}
