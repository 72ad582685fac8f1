//! A line's hints, propagated once more.
//!
//! No hint is left out; each line's node is noted by its id. No text chooses ids, so these maps may
//! hash.

ghost use Rattle.std.specs.Prelude.{◌≡◌, [], map, IfOk};
ghost use Rattle.dq_lits.specs.Literal.{opposite};
ghost use Rattle.dq_lits.specs.Derivation.{IsDerived, AreSame};
ghost use Rattle.hint_log.specs.Conditions.{AreIds};
ghost use Rattle.hint_log.specs.Entries.{clause_at};
ghost use Rattle.interpolants.specs.Replay.{IsReplay, is_open};
ghost use Rattle.std.specs.List.{find};

use crate::chains::{Chain, Link};
use crate::literal_sets::LiteralSet;
use dq_lits::{Lit, Memory};
use hint_log::Log;
use std::alloc::Global;

/// The first literal that isn't false.
pub(crate) fn open_literal(trues: &LiteralSet, clause: &[Lit]) -> Option<Lit>
    ensures { result ≡ find (is_open trues.now) clause.now }
{
    for l in clause {
        if !trues.has(l.not()) {
            return Some(*l);
        }
    }
    None
}

/// Replays a derived line by its hints, and answers the hint whose clause became false.
pub(crate) fn replay(
    alloc: Global,
    log: &Log,
    clause: &[Lit],
    hints: &[u64],
    chain: &mut Chain,
) -> Result<u64, Memory>
    requires ids { AreIds log.now.entries hints.now }
    requires none { chain.old ≡ [] }
    requires derived { IsDerived (clause_at log.now.entries) clause.now hints.now }
    ensures { IfOk result
        (λ last.
        IsReplay (clause_at log.now.entries) (map opposite clause.now) hints.now chain.new
        last) }
{
    let mut trues = LiteralSet::new(alloc);
    replay_over(log, &mut trues, chain, clause, hints)
}

// Replays a line, with an empty set.
fn replay_over(
    log: &Log,
    trues: &mut LiteralSet,
    chain: &mut Chain,
    clause: &[Lit],
    hints: &[u64],
) -> Result<u64, Memory>
    requires ids { AreIds log.now.entries hints.now }
    requires none { chain.old ≡ [] }
    requires empty { trues.old ≡ [] }
    requires derived { IsDerived (clause_at log.now.entries) clause.now hints.now }
    ensures { IfOk result
        (λ last.
        IsReplay (clause_at log.now.entries) (map opposite clause.now) hints.now chain.new
        last) }
{
    assume_false(trues, clause)?;
    propagate(log, trues, chain, clause, hints)
}

// Makes a line's literals false.
fn assume_false(trues: &mut LiteralSet, clause: &[Lit]) -> Result<(), Memory>
    requires { trues.old ≡ [] }
    ensures { IfOk result (λ _. AreSame trues.new (map opposite clause.now)) }
{
    for l in clause {
        trues.add(l.not())?;
    }
    Ok(())
}

// Propagates by a derived line's hints, and answers the hint whose clause became false.
fn propagate(
    log: &Log,
    trues: &mut LiteralSet,
    chain: &mut Chain,
    clause: &[Lit],
    hints: &[u64],
) -> Result<u64, Memory>
    requires ids { AreIds log.now.entries hints.now }
    requires none { chain.old ≡ [] }
    requires same { AreSame trues.old (map opposite clause.now) }
    requires derived { IsDerived (clause_at log.now.entries) clause.now hints.now }
    ensures { IfOk result
        (λ last.
        IsReplay (clause_at log.now.entries) (map opposite clause.now) hints.now chain.new
        last) }
{
    // Only the contract speaks of it.
    let _ = clause;
    for hint in hints {
        match open_literal(trues, log.clause(*hint)) {
            Some(pivot) => {
                trues.add(pivot)?;
                chain.push(Link { pivot, hint: *hint })?;
            }
            None => return Ok(*hint),
        }
    }
    unreachable!()
}
