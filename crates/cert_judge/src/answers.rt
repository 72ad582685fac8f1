//! What the checker says of a certificate.

ghost use Rattle.std.specs.Prelude.{◌≡◌};
ghost use Rattle.cert_judge.specs.declared.answers.Judgement.TheVariants.{Refused};

use aiger_text::AagFault;
use cert_text::CertFault;
use defined_checker::{DefinedCounts, DefinitionFault};
use skolem_checker::MapName;

/// What is wrong with a certificate's text.
#[derive(Clone, Copy, PartialEq, Eq)]
pub enum CertificateFault {
    /// Its first lines, its lines as a refutation or as definitions, or those of the proof in its
    /// comment have this fault.
    Text(CertFault),
    /// It isn't a circuit file.
    Circuit(AagFault),
    /// Its inputs and outputs don't stand for the formula's variables.
    Mapping(MapName),
}

/// The answer to a formula and a certificate.
#[derive(Clone, Copy, PartialEq, Eq)]
pub enum Judgement {
    /// The certificate's text has a fault at this line.
    Refused { line: u64, name: CertificateFault },
    /// The output for this existential reaches the input for this universal, which it may not see.
    UndeclaredRead { existential: u64, universal: u64 },
    /// Under the row with this number a clause is false. Bit i of the number is that of the
    /// universal at place i.
    BadRow { number: u32 },
    /// There is no proof, and too many universals to try all rows.
    Unproved { universals: usize },
    /// The step with this id isn't derived, and all before it are.
    UnderivedStep { id: u64 },
    /// Every step is derived, and the last one isn't the empty clause, or there is none.
    NoEmptyClause,
    /// The circuit's outputs are Skolem functions, by its proof or by all rows, so the formula is
    /// true.
    ValidTrue,
    /// The derivation shows that no choice of functions solves the formula, so it is false.
    ValidFalse,
    /// A block of definitions is at fault in this way, and no block before it is at fault.
    BadBlock { fault: DefinitionFault },
    /// Each block of definitions is right: so many existentials are functions of what they may read,
    /// wherever the matrix is true, and so many aren't.
    ValidDefinitions { counts: DefinedCounts },
}

/// The certificate's text has this fault.
pub(crate) fn refused(line: u64, name: CertificateFault) -> Judgement
    ensures { result ≡ Refused line name }
{
    Judgement::Refused { line, name }
}
