//! Which rows of a table are one pair for existentials with one dependency set.

ghost use Rattle.std.specs.Prelude.{◌≡◌, ◌≤◌, ◌-◌, length, All, IfOk, OnOk, IsTrue};
ghost use Rattle.dq_lits.specs.Row.{bit_of};
ghost use Rattle.row_pairs.specs.Pairs.{HasPlaces, agrees, HasRound, ArePairRounds};

use dq_lits::{Memory, Row};
use expansion::Table;
use std::alloc::Global;
use std::collections::BTreeMap;

/// The pairs of existentials that see the inputs at these places, by their rounds: the first one of
/// all rows that have the same bits there. It takes time for the rows and the places that they see.
pub fn pair_rounds(alloc: Global, table: &Table, places: &[usize]) -> Result<Vec<u64>, Memory>
    requires whole { All (HasPlaces places.now) table.now.rows }
    ensures { IfOk result
        (λ rounds.
        ArePairRounds table.now.rows places.now (length table.now.rows) rounds.items) }
{
    let mut list = RoundList {
        alloc,
        rounds: Vec::new(alloc),
        known: BTreeMap::new(alloc),
    };
    for k in 0..table.rows() {
        list.add(table, k + 1, places)?;
    }
    Ok(list.rounds)
}

// The rounds so far, and what is known of where the bits of a row have their pair.
#[derive(Drop)]
struct RoundList {
    alloc: Global,
    rounds: Vec<u64>,
    known: BTreeMap<Vec<u64>, usize>,
}

impl RoundList {
    // Adds a round, unless an earlier row has the same bits at these places.
    fn add(&mut self, table: &Table, round: u64, places: &[usize]) -> Result<(), Memory>
        requires from_one { 1 ≤ round }
        requires last { round ≤ length table.now.rows }
        requires whole { All (HasPlaces places.now) table.now.rows }
        requires rounds { ArePairRounds table.now.rows places.now (round - 1) self.old.rounds.items }
        ensures { OnOk result (ArePairRounds table.now.rows places.now round self.new.rounds.items) }
    {
        let row = table.row(round);
        let next = self.rounds.len();
        let first = first_with(&mut self.known, key(self.alloc, places, row)?, next)?;
        if is_round_of(table, places, &self.rounds, first, row) {
            return Ok(());
        }
        self.rounds.push(round)?;
        Ok(())
    }
}

// What is known of a key; else the key is known as the next one. It promises nothing of what it
// finds, since each answer is compared.
fn first_with(
    known: &mut BTreeMap<Vec<u64>, usize>,
    key: Vec<u64>,
    next: usize,
) -> Result<usize, Memory> {
    if let Some(first) = known.get(&key) {
        return Ok(*first);
    }
    known.insert(key, next)?;
    Ok(next)
}

// The bits of a row at these places, 64 a word.
fn key(alloc: Global, places: &[usize], row: &Row) -> Result<Vec<u64>, Memory>
    requires { HasPlaces places.now row.now }
{
    let mut words = Vec::new(alloc);
    for (i, p) in places.iter().enumerate() {
        if i % 64 == 0 {
            words.push(0)?;
        }
        append_bit(&mut words, row.get(*p));
    }
    Ok(words)
}

fn append_bit(words: &mut Vec<u64>, bit: bool) {
    if let Some(last) = words.last_mut() {
        *last = (*last << 1) | bit as u64;
    }
}

// Whether there is a round at this place, and its row has the same bits as this one.
fn is_round_of(table: &Table, places: &[usize], rounds: &[u64], at: usize, row: &Row) -> bool
    requires rounds { All (λ r. (1 ≤ r) × (r ≤ length table.now.rows)) rounds.now }
    requires whole { All (HasPlaces places.now) table.now.rows }
    requires places { HasPlaces places.now row.now }
    ensures { IsTrue result → HasRound table.now.rows places.now rounds.now row.now }
{
    if at >= rounds.len() {
        return false;
    }
    have_same_bits(places, table.row(rounds[at]), row)
}

fn have_same_bits(places: &[usize], a: &Row, b: &Row) -> bool
    requires a { HasPlaces places.now a.now }
    requires b { HasPlaces places.now b.now }
    ensures { result ≡ agrees places.now a.now (bit_of b.now) }
{
    places.iter().all(|p| a.get(*p) == b.get(*p))
}
