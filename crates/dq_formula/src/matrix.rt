//! The matrix: clauses in blocks of memory that don't move.

ghost use Rattle.std.specs.Prelude.{◌≡◌, ◌≤◌, ◌<◌, ◌+◌, ◌∷◌, ◌++◌, [], length, slice_index_or, OnOk, OnErr};
ghost use Rattle.dq_formula.specs.Xor.{xor_clauses};

use crate::blocks::Blocks;
use crate::formula::{MAX_CLAUSES, MAX_XOR};
use crate::xors::put_parity;
use dq_lits::{Lit, Memory};
use std::alloc::Global;
use std::marker::Model;

// The clauses of a formula, which a contract sees as a list of lists.
#[derive(Drop)]
pub(crate) struct Matrix {
    blocks: Blocks,
}

impl Model for Matrix {
    ghost use Rattle.std.specs.Prelude.{List};
    ghost use Rattle.dq_lits.specs.Literal.{Literal};
    ghost use Rattle.dq_formula.specs.Blocks.{clauses_of, AreArranged};

    ghost Value = { List (List Literal) };

    ghost view = { λ m. clauses_of m.blocks };

    ghost invariant = { λ m. AreArranged m.blocks };
}

impl Matrix {
    // No clauses. It takes no memory.
    pub(crate) fn new(alloc: Global) -> Matrix
        ensures { result ≡ [] }
    {
        Matrix {
            blocks: Blocks::new(alloc),
        }
    }

    pub(crate) fn alloc(&self) -> Global {
        self.blocks.alloc()
    }

    pub(crate) fn len(&self) -> usize
        ensures { result ≡ length self.now }
    {
        self.blocks.len()
    }

    pub(crate) fn clause(&self, j: usize) -> &[Lit]
        requires { j < length self.now }
        ensures { result.now ≡ slice_index_or self.now j [] }
    {
        self.blocks.clause(j)
    }

    // Makes room for so many clauses, with so many literals in all.
    pub(crate) fn reserve(&mut self, clauses: usize, literals: usize) -> Result<(), Memory>
        ensures { self.new ≡ self.old }
    {
        self.blocks.make_room(clauses, literals)?;
        Ok(())
    }

    // Adds a clause behind the others.
    #[inline(always)]
    pub(crate) fn push(&mut self, clause: &[Lit]) -> Result<(), Memory>
        requires { length self.old < MAX_CLAUSES }
        ensures ok { OnOk result (self.new ≡ self.old ++ clause.now ∷ []) }
        ensures err { OnErr result (self.new ≡ self.old) }
    {
        self.blocks.make_room(1, clause.len())?;
        self.blocks.put(clause);
        Ok(())
    }

    // Adds the clauses of an XOR line behind the others.
    pub(crate) fn push_xor(&mut self, lits: &[Lit]) -> Result<(), Memory>
        requires some { 1 ≤ length lits.now }
        requires short { length lits.now ≤ MAX_XOR }
        requires few { length self.old + length (xor_clauses lits.now) ≤ MAX_CLAUSES }
        ensures ok { OnOk result (self.new ≡ self.old ++ xor_clauses lits.now) }
        ensures err { OnErr result (self.new ≡ self.old) }
    {
        self.blocks.make_room(16, 80)?;
        let mut clause = [lits[0]; MAX_XOR];
        put_parity(
            &mut self.blocks,
            lits,
            lits.len(),
            &mut clause[..lits.len()],
            true,
        );
        Ok(())
    }
}
