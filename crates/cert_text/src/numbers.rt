//! The numbers of a line.

ghost use Rattle.std.specs.Prelude.{◌≡◌, ◌++◌, ◌∷◌, [], OnOk};
ghost use Rattle.cert_text.specs.Numbers.{line_integers};
ghost use Rattle.cert_text.specs.LineStop.{IsMadeOf};

use crate::faults::{CertFault, LineStop};
use dq_lits::Memory;
use dq_text::{LineTokens, Number, read_number};

/// Puts the numbers that the tokens are in place of those in the buffer. A token that isn't a
/// number is named before one that is too big, wherever they stand.
pub fn take_integers(tokens: &mut LineTokens, integers: &mut Vec<i64>) -> Result<(), LineStop>
    ensures { IsMadeOf (line_integers tokens.old) result integers.new.items }
{
    integers.clear();
    let mut too_big = false;
    while let Some(token) = tokens.next() {
        match read_number(token) {
            Number::NotANumber => return Err(LineStop::Fault(CertFault::BadLine)),
            Number::TooBig => too_big = true,
            Number::Int(n) => push_integer(integers, n)?,
        }
    }
    if too_big {
        return Err(LineStop::Fault(CertFault::TooBig));
    }
    Ok(())
}

fn push_integer(integers: &mut Vec<i64>, n: i64) -> Result<(), Memory>
    ensures { OnOk result (integers.new.items ≡ integers.old.items ++ n ∷ []) }
{
    integers.push(n)?;
    Ok(())
}
