//! Judging a certificate whose text is at hand.

ghost use Rattle.std.specs.Prelude.{◌<◌, ◌^◌, length, IfOk};
ghost use Rattle.dq_lits.specs.Formula.{IsWellFormed};
ghost use Rattle.cert_judge.specs.Judgement.{IsJudgement};

use crate::answers::Judgement;
use crate::streams::Stream;
use dq_formula::Formula;
use dq_io::Feed;
use dq_lits::Memory;
use std::alloc::Global;

/// Judges a certificate: the first fault that it has, or that it proves the formula true or false, or
/// what it shows of its existentials.
/// Its text is let go as soon as it was read.
pub fn judge(alloc: Global, f: &Formula, text: Vec<u8>) -> Result<Judgement, Memory>
    requires well_formed { IsWellFormed f.now }
    requires length { length text.items < 2 ^ 61 }
    ensures { IfOk result (IsJudgement f.now text.items) }
{
    let mut stream = Stream::new(alloc, f);
    stream.feed(&text);
    drop(text);
    stream.end()
}
