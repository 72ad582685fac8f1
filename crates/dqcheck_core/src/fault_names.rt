//! The names of a certificate's faults, as they are written.

ghost use Rattle.std.specs.Prelude.{◌≡◌};
ghost use Rattle.dqcheck_core.specs.CertificateNames.{text_fault_name, mapping_fault_name, certificate_fault_name};

use cert_judge::CertificateFault;
use cert_text::CertFault;
use skolem_checker::MapName;

fn mapping_fault_name(fault: MapName) -> &'static str
    ensures { result.now ≡ mapping_fault_name fault }
{
    match fault {
        MapName::InputCount => "InputCount",
        MapName::OutputCount => "OutputCount",
        MapName::SymbolMissing => "SymbolMissing",
        MapName::SymbolNumber => "SymbolNumber",
        MapName::SymbolTwice => "SymbolTwice",
    }
}

fn text_fault_name(fault: CertFault) -> &'static str
    ensures { result.now ≡ text_fault_name fault }
{
    match fault {
        CertFault::BadHeader => "BadHeader",
        CertFault::BadLine => "BadLine",
        CertFault::RowIncomplete => "RowIncomplete",
        CertFault::IdOrder => "IdOrder",
        CertFault::UnknownHint => "UnknownHint",
        CertFault::TooBig => "TooBig",
        CertFault::Truncated => "Truncated",
        CertFault::BadVariable => "BadVariable",
        CertFault::WrongVerdict => "WrongVerdict",
        CertFault::NotLive => "NotLive",
        CertFault::BlockOrder => "BlockOrder",
        CertFault::BadGate => "BadGate",
    }
}

pub fn certificate_fault_name(fault: CertificateFault) -> &'static str
    ensures { result.now ≡ certificate_fault_name fault }
{
    match fault {
        CertificateFault::Text(name) => text_fault_name(name),
        CertificateFault::Circuit(name) => name.name(),
        CertificateFault::Mapping(name) => mapping_fault_name(name),
    }
}
