//! The lines behind the gates.

ghost use Rattle.std.specs.Prelude.{◌≡◌, true, false, OnOk};
ghost use Rattle.aiger_text.specs.Lines.{add_symbol, symbol_of, symbol_line};
ghost use Rattle.aiger_text.specs.SymbolEntry.{entry_symbol};
ghost use Rattle.aiger_text.specs.ReaderState.{IsCircuitReader, IsTableOf, SameButSymbols};

use crate::body::CircuitReader;
use crate::faults::{AagFault, LineStop};
use crate::symbol_lines::{SymbolEntry, symbol_entry};

/// Reads the line of a symbol.
pub fn take_symbol(reader: &mut CircuitReader, line: &[u8]) -> Result<(), LineStop>
    requires { IsCircuitReader reader.old }
    ensures symbols { IsTableOf
        (symbol_line reader.old.header reader.old.symbols (symbol_of line.now)) result
        reader.new.symbols }
    ensures same { SameButSymbols reader.old reader.new }
    ensures ready { OnOk result (IsCircuitReader reader.new) }
{
    let Some(entry) = symbol_entry(line) else {
        return Err(LineStop::Fault(AagFault::BadSymbol));
    };
    if entry.of_input {
        name_input(reader, entry)
    } else {
        name_output(reader, entry)
    }
}

fn name_input(reader: &mut CircuitReader, entry: SymbolEntry) -> Result<(), LineStop>
    requires ready { IsCircuitReader reader.old }
    requires of_input { entry.of_input ≡ true }
    ensures symbols { IsTableOf
        (add_symbol reader.old.header reader.old.symbols (entry_symbol entry.entry)) result
        reader.new.symbols }
    ensures same { SameButSymbols reader.old reader.new }
    ensures ready { OnOk result (IsCircuitReader reader.new) }
{
    if entry.place >= reader.header.inputs || reader.symbols.input(entry.place as usize).is_some() {
        return Err(LineStop::Fault(AagFault::BadSymbol));
    }
    reader.symbols.name_input(entry.place, entry.name)?;
    Ok(())
}

fn name_output(reader: &mut CircuitReader, entry: SymbolEntry) -> Result<(), LineStop>
    requires ready { IsCircuitReader reader.old }
    requires of_output { entry.of_input ≡ false }
    ensures symbols { IsTableOf
        (add_symbol reader.old.header reader.old.symbols (entry_symbol entry.entry)) result
        reader.new.symbols }
    ensures same { SameButSymbols reader.old reader.new }
    ensures ready { OnOk result (IsCircuitReader reader.new) }
{
    if entry.place >= reader.header.outputs
        || reader.symbols.output(entry.place as usize).is_some()
    {
        return Err(LineStop::Fault(AagFault::BadSymbol));
    }
    reader.symbols.name_output(entry.place, entry.name)?;
    Ok(())
}
