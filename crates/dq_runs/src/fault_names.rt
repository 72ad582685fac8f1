//! The names of the faults of a formula's text, as they are written.

ghost use Rattle.std.specs.Prelude.{◌≡◌};
ghost use Rattle.dq_runs.specs.FaultNames.{formula_fault_name};

use dqdimacs_reader::FormulaFault;

pub fn formula_fault_name(fault: FormulaFault) -> &'static str
    ensures { result.now ≡ formula_fault_name fault }
{
    match fault {
        FormulaFault::NoHeader => "NoHeader",
        FormulaFault::BadNumber => "BadNumber",
        FormulaFault::TooBig => "TooBig",
        FormulaFault::VarRange => "VarRange",
        FormulaFault::DeclaredTwice => "DeclaredTwice",
        FormulaFault::NotUniversal => "NotUniversal",
        FormulaFault::EmptyD => "EmptyD",
        FormulaFault::PrefixLate => "PrefixLate",
        FormulaFault::HeaderTwice => "HeaderTwice",
        FormulaFault::TooFewClauses => "TooFewClauses",
        FormulaFault::TooManyClauses => "TooManyClauses",
        FormulaFault::MissingZero => "MissingZero",
        FormulaFault::Limit => "Limit",
        FormulaFault::XorRepeat => "XorRepeat",
        FormulaFault::XorSize => "XorSize",
    }
}
