//! The lines of a certificate up to its header line, which says what it is.

ghost use Rattle.std.specs.Prelude.{◌≡◌, ◌++◌, ◌≤◌, Ok, OnOk, IfOk, None, Some};
ghost use Rattle.std.specs.Option.{option_map};
ghost use Rattle.dq_lits.specs.Formula.{IsWellFormed};
ghost use Rattle.cert_text.specs.Beginning.{header_number};
ghost use Rattle.cert_judge.specs.Beginnings.{BeginsAs, Starts, StartsCircuit};
ghost use Rattle.cert_judge.specs.Phases.{line_end, HasNoEnd, IsBeginning, IsLawful};
ghost use Rattle.cert_judge.specs.declared.phases.Phase.TheVariants.{Beginning};

use crate::answers::{CertificateFault, refused};
use crate::binary::start_binary;
use crate::comments::stopped_phase;
use crate::phases::{Phase, boxed, gather};
use aiger_text::AagLines;
use aiger_text::laws::circuit_or_first_fault;
use cert_stream::RefutationStream;
use cert_text::{CertRefusal, Kind, kind};
use dq_formula::Formula;
use dq_lits::Memory;
use std::alloc::Global;

/// Takes a line before the header line, or that line: the phase that follows, if it says which kind
/// of certificate this is.
#[inline(never)]
pub(crate) fn take_first_line<'f>(
    alloc: Global,
    f: &'f Formula,
    lines: &mut Vec<u8>,
    missing: &mut CertRefusal,
    line: &[u8],
    ended: bool,
) -> Result<Option<Box<Phase<'f>>>, Memory>
    requires one_line { HasNoEnd line.now }
    requires lawful { IsBeginning lines.old.items missing.old }
    ensures { IfOk result (λ next. BeginsAs f.now lines.old.items line.now ended lines.new.items
        missing.new (option_map (λ b. b.value) next)) }
{
    match begin(alloc, f, lines, missing, line, ended)? {
        Some(next) => Ok(Some(boxed(alloc, next)?)),
        None => Ok(None),
    }
}

// The same, as it is.
fn begin<'f>(
    alloc: Global,
    f: &'f Formula,
    lines: &mut Vec<u8>,
    missing: &mut CertRefusal,
    line: &[u8],
    ended: bool,
) -> Result<Option<Phase<'f>>, Memory>
    requires one_line { HasNoEnd line.now }
    requires lawful { IsBeginning lines.old.items missing.old }
    ensures { IfOk result
        (λ next. BeginsAs f.now lines.old.items line.now ended lines.new.items missing.new next) }
{
    gather(lines, line, ended)?;
    match kind(lines) {
        Ok(kind) => Ok(Some(start(alloc, f, kind, line, ended)?)),
        Err(refusal) => {
            if ended && refusal.line > missing.line {
                *missing = refusal;
                return Ok(None);
            }
            let name = CertificateFault::Text(refusal.name);
            Ok(Some(Phase::Decided(refused(refusal.line, name))))
        }
    }
}

// Takes the header line of a certificate of a kind.
fn start<'f>(
    alloc: Global,
    f: &'f Formula,
    kind: Kind,
    header: &[u8],
    ended: bool,
) -> Result<Phase<'f>, Memory>
    requires one_line { HasNoEnd header.now }
    requires early { header_number kind ≤ 2 }
    ensures starts { IfOk result (λ phase. Starts f.now kind header.now ended phase) }
    ensures lawful { IfOk result IsLawful }
{
    match kind {
        Kind::Refutation { line, .. } => {
            let mut refutation = RefutationStream::new(alloc, f, line);
            refutation.line(header);
            Ok(Phase::Refutation(refutation))
        }
        Kind::Circuit { line, .. } => start_circuit(alloc, line, header),
        Kind::BinaryCircuit { line, .. } => start_binary(alloc, line, header),
        Kind::Definitions { line, .. } => {
            let mut text = Vec::new(alloc);
            gather(&mut text, header, ended)?;
            Ok(Phase::Definitions { first: line, text })
        }
    }
}

// Takes the header line of a circuit.
fn start_circuit<'f>(alloc: Global, first: u64, header: &[u8]) -> Result<Phase<'f>, Memory>
    requires one_line { HasNoEnd header.now }
    requires early { first ≤ 2 }
    ensures { IfOk result (StartsCircuit first header.now) }
{
    circuit_or_first_fault();
    let mut lines = AagLines::new(alloc, first);
    match lines.line(header) {
        Ok(()) => Ok(Phase::Circuit { first, lines }),
        Err(stop) => {
            drop(lines);
            stopped_phase(stop)
        }
    }
}
