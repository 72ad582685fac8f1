//! The expansion refutation of a formula, from an answer that rests on instances.
//!
//! The rows listed are those of the rounds of which the answer reaches an instance, in their order.
//! A line's hints are cut where its fault is found, which is the first hint that is falsified too
//! early; by which rows the pairs are named doesn't move that place.

ghost use Rattle.std.specs.Prelude.{◌≡◌, ◌≤◌, ℕ, List, None, length, IfOk};
ghost use Rattle.std.specs.List.{range_with_len};
ghost use Rattle.dq_lits.specs.Formula.{IsWellFormed};
ghost use Rattle.dq_formula.specs.declared.formula.TheConstants.{MAX_CLAUSES};
ghost use Rattle.hint_log.specs.Entries.{count};
ghost use Rattle.hint_log.specs.Reached.{AreReached};
ghost use Rattle.cert_text.specs.Grammar.{IsDqrOf};
ghost use Rattle.cert_text.specs.Header.{max_count};
ghost use Rattle.refutation_checker.specs.Refutation.{refutation_fault};
ghost use Rattle.cert_export.specs.Expansion.{instance_id, used_rounds, rows_among};
ghost use Rattle.cert_export.specs.Lines.{is_lemma};
ghost use Rattle.cert_export.specs.Exported.{CanExportFalse};
ghost use Rattle.cert_export.specs.Exportable.{IsKnownInstance, AreExportable, AreExported, AreExportedItems, AreRounds};

use crate::bases::Ground;
use crate::lines::place;
use crate::pairs::Pairs;
use crate::rounds::used_rounds;
use crate::written::{LineSource, write_lines};
use cert_text::{Dqr, ItemList};
use dq_formula::Formula;
use dq_lits::{Memory, RowList};
use hint_log::laws::{reached_are_ids, rounds_are_steps};
use hint_log::{Log, Origin};
use std::alloc::Global;

/// The expansion refutation that an answer stands for: the rows of the rounds that it reaches an
/// instance of, and for each learned clause and answer that it reaches a line. The formula's clauses
/// have these numbers in the log, in order. It takes time and memory for the rounds and for what the
/// answer reaches, and for each instance the logarithm of the rounds and of the clauses.
pub fn export_false(
    alloc: Global,
    log: &Log,
    id: u64,
    f: &Formula,
    live: &[u64],
) -> Result<Dqr, Memory>
    requires formula { IsWellFormed f.now }
    requires refuted { CanExportFalse f.now live.now log.now.entries id }
    requires limit { log.now.limit ≤ max_count }
    ensures accepted { IfOk result (λ d. refutation_fault f.now d ≡ None) }
    ensures few { IfOk result (λ d. length d.items ≤ count is_lemma log.now.entries) }
    ensures spelled { IfOk result (λ d. length d.items ≤ max_count → IsDqrOf f.now d) }
    // Every row is that of an instance that the answer reaches, and every item is the line of an id
    // that it reaches.
    ensures lines { IfOk result (λ d. (ids : List ℕ) × AreReached log.now.entries id ids
        × AreExported f.now live.now log.now.entries ids d) }
{
    f.every_formula_is_lawful();
    log.every_log_is_lawful();
    rounds_are_steps();
    reached_are_ids();
    log.steps();
    let ids = log.trim(id)?;
    refutation(alloc, log, ids.items(), f, live)
}

/// The numbers of a formula's clauses in a log that is about no other: from 1 on, without gaps.
pub fn clause_numbers(alloc: Global, f: &Formula) -> Result<Vec<u64>, Memory>
    ensures { IfOk result
        (λ numbers. numbers.items ≡ range_with_len 1 (length f.now.matrix)) }
{
    let mut numbers = Vec::new(alloc);
    for place in 0..f.clauses() {
        numbers.push(place as u64 + 1)?;
    }
    Ok(numbers)
}

// The refutation by some ids.
fn refutation(
    alloc: Global,
    log: &Log,
    ids: &[u64],
    f: &Formula,
    live: &[u64],
) -> Result<Dqr, Memory>
    requires { AreExportable f.now live.now log.now.entries ids.now }
    ensures { IfOk result (AreExported f.now live.now log.now.entries ids.now) }
{
    let rounds = used_rounds(alloc, log, ids)?;
    let rows = round_rows(alloc, log, &rounds)?;
    let items = refutation_items(alloc, log, ids, &rounds, f, live)?;
    Ok(Dqr { rows, items })
}

// The rows of some rounds.
fn round_rows(alloc: Global, log: &Log, rounds: &[u64]) -> Result<RowList, Memory>
    requires { AreRounds log.now.entries rounds.now }
    ensures { IfOk result (λ rows. rows ≡ rows_among log.now.entries rounds.now) }
{
    let mut rows = RowList::new(alloc);
    for k in rounds {
        rows.push(log.row(*k).copy()?)?;
    }
    Ok(rows)
}

// The lines of the derived clauses among some ids, over the instances under the rows of these
// rounds.
fn refutation_items(
    alloc: Global,
    log: &Log,
    ids: &[u64],
    rounds: &[u64],
    f: &Formula,
    live: &[u64],
) -> Result<ItemList, Memory>
    requires can { AreExportable f.now live.now log.now.entries ids.now }
    requires used { rounds.now ≡ used_rounds log.now.entries ids.now }
    ensures { IfOk result (AreExportedItems f.now live.now log.now.entries ids.now) }
{
    let names = Pairs { log, f, rounds }.names(alloc, ids)?;
    let base = Instances {
        rounds,
        clauses: f.clauses(),
        live,
    };
    let last = rounds.len() as u64 * f.clauses() as u64;
    let source = LineSource {
        log,
        ids,
        names: &names,
        base: &base,
        last,
    };
    let steps = write_lines(alloc, &source)?;
    Ok(ItemList::of_lines(steps))
}

// The instances of so many clauses, which have these numbers in the log, under the rows of these
// rounds.
#[derive(Drop)]
struct Instances<'a, 'r> {
    rounds: &'r [u64],
    clauses: usize,
    live: &'a [u64],
    ghost few_rounds: { length rounds.now ≤ max_count },
    ghost few: { clauses ≤ MAX_CLAUSES },
    ghost few_live: { length live.now ≤ MAX_CLAUSES },
}

impl<'a, 'r> Ground for Instances<'a, 'r> {
    ghost ids = { λ i. instance_id i.rounds.now i.live.now i.clauses };

    ghost Knows = { λ i. IsKnownInstance i.rounds.now i.live.now };

    fn id(&self, origin: Origin) -> u64 {
        match origin {
            Origin::Instance { round, clause } => {
                let row = place(self.rounds, round) as u64;
                row * self.clauses as u64 + (place(self.live, clause) as u64 + 1)
            }
            _ => unreachable!(),
        }
    }
}
