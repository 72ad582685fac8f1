//! A text, written whole.

ghost use Rattle.std.specs.Prelude.{◌≡◌, OnOk, OnErr};
ghost use Rattle.std.specs.Io.KnownBytes.{append_known};
ghost use Rattle.dq_io.specs.Causes.{HasCause};
ghost use Rattle.dq_io.specs.Sinks.{TakesPart};

use crate::errors::SinkFault;
use crate::sinks::Sink;

/// Writes all bytes, in as many writes as the sink needs. It takes no memory.
pub fn write_all<K: Sink>(sink: &mut K, bytes: &[u8]) -> Result<(), SinkFault>
    ensures ok { OnOk result (K.taken sink.new ≡ append_known (K.taken sink.old) bytes.now) }
    ensures err { OnErr result (TakesPart (K.taken sink.old) (K.taken sink.new) bytes.now) }
    ensures cause { HasCause (K.faults sink.old) (K.faults sink.new) result }
{
    let mut written = 0;
    while written < bytes.len() {
        written += sink.write(&bytes[written..])?;
    }
    Ok(())
}
