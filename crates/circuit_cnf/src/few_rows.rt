//! Which variables a check decides first: a policy, of which no contract speaks.
//!
//! A check refutes each clause's falsity by itself, with what stands near it. Where very many clauses
//! or gates stand on one universal, each of these searches passes them all, and n of them take a time
//! that grows with n^2. Where there are far fewer rows than clauses, the search goes by rows: the
//! universals are decided first, a pass over all clauses shows that none is false there, and the
//! proof has a line for each row.

ghost use Rattle.hint_log.specs.Entries.{ProofLog};

use crate::checkers::Checker;
use dq_formula::Formula;
use dq_lits::Memory;
use oracle::Oracle;

// At most so many universals have few rows.
const FEW: usize = 3;

// So many clauses are far more than these rows.
const MANY: usize = 512;

impl Checker {
    // Has the next search decide the inputs first, where there are few rows and many clauses. Where
    // memory is refused, it goes by clauses.
    pub(crate) fn focus_on_rows<O: Oracle>(&self, oracle: &mut O, f: &Formula)
        ensures { (log : ProofLog) → O.Fits oracle.old log → O.Fits oracle.new log }
    {
        if self.inputs.len() <= FEW && f.clauses() >= MANY {
            let _focused = self.focus_on_inputs(oracle);
        }
    }

    // Has the next search decide the inputs first.
    fn focus_on_inputs<O: Oracle>(&self, oracle: &mut O) -> Result<(), Memory>
        ensures { (log : ProofLog) → O.Fits oracle.old log → O.Fits oracle.new log }
    {
        let mut variables = Vec::new(self.alloc);
        for l in &self.inputs {
            variables.push(l.var())?;
        }
        oracle.focus(&variables)
    }
}
