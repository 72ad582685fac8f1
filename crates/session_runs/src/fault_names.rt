//! The names of the faults of a script, as they are written.

ghost use Rattle.std.specs.Prelude.{◌≡◌};
ghost use Rattle.session_runs.specs.FaultNames.{script_fault_name};

use script_text::ScriptFault;

pub(crate) fn script_fault_name(fault: ScriptFault) -> &'static str
    ensures { result.now ≡ script_fault_name fault }
{
    match fault {
        ScriptFault::BadCommand => "BadCommand",
        ScriptFault::NoFrame => "NoFrame",
        ScriptFault::BadNumber => "BadNumber",
        ScriptFault::TooBig => "TooBig",
        ScriptFault::VarRange => "VarRange",
        ScriptFault::Undeclared => "Undeclared",
        ScriptFault::MissingZero => "MissingZero",
        ScriptFault::Limit => "Limit",
    }
}
