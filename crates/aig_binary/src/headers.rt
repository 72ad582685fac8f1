//! The header line of the binary form.

ghost use Rattle.std.specs.Prelude.{◌≡◌, ◌+◌, IfOk};
ghost use Rattle.dq_text.specs.Line.{line_tokens};
ghost use Rattle.aiger_text.specs.LineStop.{IsLineOf};
ghost use Rattle.aiger_text.specs.ReaderState.{IsSmall};
ghost use Rattle.aig_binary.specs.Scan.{binary_header};

use aiger_text::{AagFault, Header, LineStop, read_header};

/// Reads the header line. The buffer has its numbers afterwards.
pub fn read_binary_header(line: &[u8], numbers: &mut Vec<u64>) -> Result<Header, LineStop>
    ensures header { IsLineOf (binary_header (line_tokens line.now)) result }
    ensures small { IfOk result IsSmall }
    ensures all_defined { IfOk result (λ h. h.max_var ≡ h.inputs + h.gates) }
{
    let header = read_header(line, b"aig", numbers)?;
    if header.max_var != header.inputs + header.gates {
        return Err(LineStop::Fault(AagFault::BadHeader));
    }
    Ok(header)
}
