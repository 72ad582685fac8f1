//! The values of nodes under the rows of a table, 64 rows at a time.
//!
//! Rows stand side by side in words, so that the gates are gone over once for 64 of them. The walks
//! stop at 2^23 gates of rows in a call.

ghost use Rattle.std.specs.Prelude.{◌≡◌, ◌≢◌, ◌≤◌, ◌<◌, ◌+◌, ◌^◌, ℕ, List, Bool, [], length, map, slice_index_or, All, IfOk, OnOk, false};
ghost use Rattle.dq_lits.specs.Row.{bit_of};
ghost use Rattle.aig_graph.specs.Graph.{AigGraph, IsNode};
ghost use Rattle.aig_graph.specs.Words.{word_bit, row_at};
ghost use Rattle.aig_graph.specs.declared.nodes.Node.{Node as GraphNode};
ghost use Rattle.candidate_functions.specs.Differing.{AreValues, AreWordsFrom};

use aig_graph::{Graph, Node};
use dq_lits::{Memory, Row, RowList};
use expansion::Table;
use std::alloc::Global;

// The most gates that are gone over: rows times gates have no bound. At rows behind these, nodes are
// patched without a look.
const MOST_WORK: usize = 1 << 23;

// How many rows stand side by side.
const ROWS: u64 = 64;

// The bits of nodes at the first rows of a table.
pub(crate) fn values_at_rows(
    alloc: Global,
    table: &Table,
    nodes: &[Node],
    graph: &Graph,
) -> Result<RowList, Memory>
    requires short { All (λ row. length row ≤ graph.now.inputs) table.now.rows }
    requires nodes { All (IsNode graph.now) nodes.now }
    ensures { IfOk result (AreValues table.now.rows graph.now nodes.now) }
{
    let mut values = RowList::new(alloc);
    let rows = rows_to_see(table, graph);
    for part in 0..rows.div_ceil(ROWS) {
        let first = part * ROWS;
        let words = words_from(alloc, table, nodes, graph, first)?;
        push_rows(alloc, &mut values, &words, ROWS.min(rows - first))?;
    }
    Ok(values)
}

// How many rows there is work for.
fn rows_to_see(table: &Table, graph: &Graph) -> u64
    ensures few { result ≤ length table.now.rows }
    ensures bounded { result ≤ 2 ^ 23 }
{
    let most = MOST_WORK / graph.len().max(1);
    table.rows().min(most as u64)
}

// By node, its bits in 64 rows from a place on.
fn words_from(
    alloc: Global,
    table: &Table,
    nodes: &[Node],
    graph: &Graph,
    first: u64,
) -> Result<Vec<u64>, Memory>
    requires few { first ≤ 2 ^ 23 }
    requires short { All (λ row. length row ≤ graph.now.inputs) table.now.rows }
    requires nodes { All (IsNode graph.now) nodes.now }
    ensures { IfOk result
        (λ words. AreWordsFrom table.now.rows graph.now nodes.now first words.items) }
{
    let inputs = input_words(alloc, table, first, graph.inputs())?;
    let mut buf = vec![in alloc; 0u64; graph.len()]?;
    let mut words = vec![in alloc; 0u64; nodes.len()]?;
    graph.values_by_words(nodes, &inputs, &mut buf, &mut words);
    Ok(words)
}

// By input, its bits in 64 rows from a place on.
fn input_words(alloc: Global, table: &Table, first: u64, inputs: usize) -> Result<Vec<u64>, Memory>
    requires { first ≤ 2 ^ 23 }
    ensures long { IfOk result (λ words. length words.items ≡ inputs) }
    ensures bits { IfOk result (λ words. (b i : ℕ) → b < 64 → i < inputs
        → row_at words.items b i ≡ bit_of (slice_index_or table.now.rows (first + b) []) i) }
{
    let mut words = Vec::new(alloc);
    for place in 0..inputs {
        words.push(input_word(table, first, place))?;
    }
    Ok(words)
}

// The bits at a place in 64 rows.
fn input_word(table: &Table, first: u64, place: usize) -> u64
    requires { first ≤ 2 ^ 23 }
    ensures { (b : ℕ) → b < 64
        → word_bit b result ≡ bit_of (slice_index_or table.now.rows (first + b) []) place }
{
    let mut word = 0;
    for b in 0..ROWS {
        word = with_bit(word, b, bit_at(table, first + b, place));
    }
    word
}

// The word with this bit where none was.
fn with_bit(word: u64, b: u64, is_set: bool) -> u64
    requires within { b < 64 }
    requires clear { word_bit b word ≡ false }
    ensures here { word_bit b result ≡ is_set }
    ensures others { (j : ℕ) → j ≢ b → word_bit j result ≡ word_bit j word }
{
    if is_set { word | 1 << b } else { word }
}

// The bit at a place of a row; false, where there is none.
pub(crate) fn bit_at(table: &Table, k: u64, place: usize) -> bool
    ensures { result ≡ bit_of (slice_index_or table.now.rows k []) place }
{
    if k >= table.rows() {
        return false;
    }
    let row = table.row(k + 1);
    place < row.len() && row.get(place)
}

// Adds the first rows that stand side by side.
fn push_rows(alloc: Global, values: &mut RowList, words: &[u64], count: u64) -> Result<(), Memory>
    requires { count ≤ 64 }
    ensures long { OnOk result (length values.new ≡ length values.old + count) }
    ensures values { OnOk result ((rows : List (List Bool)) (graph : AigGraph)
        (nodes : List GraphNode) → AreValues rows graph nodes values.old
        → AreWordsFrom rows graph nodes (length values.old) words.now
        → length values.old + count ≤ length rows → AreValues rows graph nodes values.new) }
{
    for b in 0..count {
        values.push(row_of(alloc, words, b)?)?;
    }
    Ok(())
}

// One of the rows.
fn row_of(alloc: Global, words: &[u64], b: u64) -> Result<Row, Memory>
    requires { b < 64 }
    ensures { IfOk result (λ row. row ≡ map (word_bit b) words.now) }
{
    let mut row = Row::new(alloc, words.len())?;
    for (place, word) in words.iter().enumerate() {
        row.set(place, (*word >> b) % 2 == 1);
    }
    Ok(row)
}
