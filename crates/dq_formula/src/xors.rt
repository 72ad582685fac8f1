//! The clauses of XOR lines.
//!
//! Room for all clauses of a line is taken first, so that all come or none.

ghost use Rattle.std.specs.Prelude.{◌≡◌, ◌≤◌, ◌+◌, ◌*◌, ◌++◌, length, map, drop};
ghost use Rattle.dq_lits.specs.Literal.{Literal};
ghost use Rattle.dq_formula.specs.Blocks.{clauses_of, AreArranged, HasRoom, ArePut};
ghost use Rattle.dq_formula.specs.Xor.{first_parity_clauses};

use crate::blocks::Blocks;
use crate::formula::{MAX_CLAUSES, MAX_XOR};
use dq_lits::Lit;

// Puts the clauses over the first `n` literals in which an even number of these is negated, or an
// odd one, each with what stands behind the first `n` literals of `clause`, behind the others. It
// is `clause` in which they are made.
pub(crate) fn put_parity(
    blocks: &mut Blocks,
    lits: &[Lit],
    n: usize,
    clause: &mut [Lit],
    even: bool,
)
    requires arranged { AreArranged blocks.old }
    requires within { n ≤ length lits.now }
    requires size { length clause.old ≡ length lits.now }
    requires short { length lits.now ≤ MAX_XOR }
    requires few { length (clauses_of blocks.old)
        + length (first_parity_clauses even lits.now n) ≤ MAX_CLAUSES }
    requires room { HasRoom blocks.old (length (first_parity_clauses even lits.now n))
        (MAX_XOR * length (first_parity_clauses even lits.now n))
        (MAX_XOR * length (first_parity_clauses even lits.now n)) }
    ensures put { ArePut blocks.old blocks.new
        (map (λ c. c ++ drop n clause.old) (first_parity_clauses even lits.now n))
        (MAX_XOR * length (first_parity_clauses even lits.now n)) }
    ensures size { length clause.new ≡ length clause.old }
    ensures behind { drop n clause.new ≡ drop n clause.old }
{
    if n == 0 {
        if even {
            blocks.put(clause);
        }
        return;
    }
    let l = lits[n - 1];
    clause[n - 1] = l;
    put_parity(blocks, lits, n - 1, clause, even);
    clause[n - 1] = l.not();
    put_parity(blocks, lits, n - 1, clause, !even);
}
