//! How a run ends: its output is written, or the sink fails, or memory was wanted.

ghost use Rattle.dq_runs.specs.Ending.{IsEnd};
ghost use Rattle.dq_runs.specs.Sinks.{sink_of};

use crate::outputs::Output;
use crate::statuses::Failure;
use dq_io::{Sink, write_all};
use dq_lits::Memory;

/// Writes a run's output, and gives the status to end with: the output's own, 4 where the sink
/// failed before the text's end, and 5 where memory was wanted, so that there is none.
pub fn deliver<K: Sink>(out: &mut K, output: Result<Output, Memory>) -> u8
    ensures { IsEnd output (sink_of K.Sink out.old) (sink_of K.Sink out.new) result }
{
    let Ok(output) = output else {
        return Failure::WantOfMemory.code();
    };
    match write_all(out, &output.text) {
        Ok(()) => output.status,
        Err(_) => Failure::SinkFault.code(),
    }
}
