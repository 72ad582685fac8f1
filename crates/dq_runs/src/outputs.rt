//! What a run writes, and the status that it ends with.

ghost use Rattle.std.specs.Prelude.{◌≡◌, IfOk};
ghost use Rattle.dq_runs.specs.Printed.{printed, usage_line, unreadable_line, long_line, fault_line};

use crate::statuses::Failure;
use dq_lits::Memory;
use std::alloc::Global;

/// A text to be written, and the status to end with.
#[derive(Drop)]
pub struct Output {
    pub status: u8,
    pub text: Vec<u8>,
}

/// The words aren't the program's: the commands that it has.
pub fn usage(alloc: Global, commands: &str) -> Result<Output, Memory>
    ensures { IfOk result (λ output. printed output ≡ usage_line commands.now) }
{
    let text = format!(in alloc; "usage: {commands}\n")?;
    Ok(Output {
        status: Failure::Usage.code(),
        text: text.into_bytes(),
    })
}

/// A file can't be read.
pub fn unreadable(alloc: Global) -> Result<Output, Memory>
    ensures { IfOk result (λ output. printed output ≡ unreadable_line) }
{
    let text = format!(in alloc; "source fault\n")?;
    Ok(Output {
        status: Failure::SourceFault.code(),
        text: text.into_bytes(),
    })
}

/// A file is too long.
pub fn too_long(alloc: Global, file: &str) -> Result<Output, Memory>
    ensures { IfOk result (λ output. printed output ≡ long_line file.now) }
{
    let text = format!(in alloc; "too long {file}\n")?;
    Ok(Output {
        status: Failure::TooLong.code(),
        text: text.into_bytes(),
    })
}

/// A text has a fault: a word that says which text, the number of the line, and the fault's name.
pub fn faulty(
    alloc: Global,
    status: u8,
    word: &str,
    number: u64,
    name: &str,
) -> Result<Output, Memory>
    ensures { IfOk result
        (λ output. printed output ≡ fault_line status word.now number name.now) }
{
    let text = format!(in alloc; "{word} {number} {name}\n")?;
    Ok(Output {
        status,
        text: text.into_bytes(),
    })
}
