//! The names of the refusals of designs, as they are written.

ghost use Rattle.std.specs.Prelude.{◌≡◌};
ghost use Rattle.pec_runs.specs.RefusalNames.{pec_fault_name, imp_fault_name};

use crate::designs::ImpFault;
use pec_front::PecFault;

fn pec_fault_name(fault: PecFault) -> &'static str
    ensures { result.now ≡ pec_fault_name fault }
{
    match fault {
        PecFault::InputShort => "InputShort",
        PecFault::OutputCount => "OutputCount",
        PecFault::NoPec => "NoPec",
        PecFault::Limit => "Limit",
        PecFault::Truncated => "Truncated",
        PecFault::BadBox => "BadBox",
        PecFault::BoxTwice => "BoxTwice",
        PecFault::BoxMissing => "BoxMissing",
        PecFault::BoxOrder => "BoxOrder",
    }
}

pub(crate) fn imp_fault_name(fault: ImpFault) -> &'static str
    ensures { result.now ≡ imp_fault_name fault }
{
    match fault {
        ImpFault::Circuit(name) => name.name(),
        ImpFault::Design(name) => pec_fault_name(name),
    }
}
