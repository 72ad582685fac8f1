//! Reading a circuit's proof.

ghost use Rattle.std.specs.Prelude.{◌≡◌, ◌+◌, ◌≤◌, ◌<◌, ◌^◌, length, IfOk};
ghost use Rattle.std.specs.List.{sum_by};
ghost use Rattle.dq_text.specs.Line.{lines_from};
ghost use Rattle.cert_text.specs.CircuitProof.{circuit_proof_of, first_proof_id, read_proof_lines};
ghost use Rattle.cert_text.specs.Lines.{IsReading};
ghost use Rattle.cert_text.specs.ProofGrammar.{IsDqpOf};

use crate::circuit_proofs::Dqp;
use crate::faults::{CertFault, CertStop, refused};
use crate::headers::{ItemCount, read_proof_header};
use crate::item_lines::ProofLines;
use crate::item_lists::{Announced, read_items};
use crate::variables::Variables;
use circuit_plain::Circuit;
use dq_formula::Formula;
use dq_text::Lines;
use std::alloc::Global;

/// Reads a circuit's proof for a formula and a circuit, from the line `dqp N` or `dqp2 N` on, which has
/// the number `first`: exactly the proof that the text spells, or its first fault by line and name.
/// What stands behind the N lines is free text.
///
/// The variables are those of the circuit, 1 to M, and M + j for 'clause j is false'. Which clauses
/// have the ids before the first line's, the definition `negated_matrix` says.
pub fn read_dqp(
    alloc: Global,
    bytes: &[u8],
    first: u64,
    f: &Formula,
    c: &Circuit,
) -> Result<Dqp, CertStop>
    requires { first + length bytes.now < 2 ^ 64 }
    ensures reading { IsReading (circuit_proof_of f.now c.now bytes.now first) result }
    ensures allowed { IfOk result (IsDqpOf f.now c.now) }
{
    let mut lines = Lines::new(bytes, first);
    let Some(line) = lines.next() else {
        return Err(refused(first, CertFault::BadHeader));
    };
    let count = match read_proof_header(line.text) {
        Ok(count) => count,
        Err(name) => return Err(refused(line.number, name)),
    };
    read_proof_lines(alloc, f, c, count, &mut lines)
}

// Reads the lines behind the header.
fn read_proof_lines(
    alloc: Global,
    f: &Formula,
    c: &Circuit,
    count: ItemCount,
    lines: &mut Lines,
) -> Result<Dqp, CertStop>
    ensures { IsReading
        (read_proof_lines f.now c.now count (lines_from lines.old.number lines.old.rest)
        lines.old.number) result }
{
    let announced = Announced {
        lines: ProofLines {
            version: count.version,
            variables: Variables::UpTo(last_variable(f, c)),
        },
        first_id: first_proof_id(f, c),
        count: count.items,
    };
    let items = read_items(alloc, &announced, lines)?;
    Ok(Dqp { items })
}

/// The last variable of a circuit's proof, that of the formula's last clause.
pub fn last_variable(f: &Formula, c: &Circuit) -> u64
    ensures { result ≡ c.now.max_var + length f.now.matrix }
{
    c.every_circuit_is_a_netlist();
    c.max_var() + f.clauses() as u64
}

/// The id of the first line of a circuit's proof, behind the negated matrix.
// No contract says how long the clauses are in all, but 128 bits hold any such sum.
pub fn first_proof_id(f: &Formula, c: &Circuit) -> u128
    ensures id { result ≡ first_proof_id f.now c.now }
    ensures from_one { 1 ≤ result }
    ensures small { result < 2 ^ 127 }
{
    3 * c.gates() as u128 + literals_in_all(f) + 2
}

fn literals_in_all(f: &Formula) -> u128
    ensures sum { result ≡ sum_by length f.now.matrix }
    ensures small { result < 2 ^ 100 }
{
    let mut sum = 0;
    for j in 0..f.clauses() {
        sum += f.clause(j).len() as u128;
    }
    sum
}
