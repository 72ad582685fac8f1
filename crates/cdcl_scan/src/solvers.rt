//! The solver as a value, and its calls as an oracle.

ghost use Rattle.std.specs.Prelude.{◌≡◌, ◌≤◌, ◌<◌, ◌-◌, ◌^◌, false};

use crate::calls::{find, grow, keep_given};
use crate::clauses::ClauseStore;
use crate::searchers::Searcher;
use dq_lits::{Lit, Memory};
use hint_log::{Log, Name, Origin, Stop};
use learning_trail::{Activities, Notes, Restarts, Trail, group_clause};
use oracle::{Answer, Group, Oracle, Tenant};
use std::alloc::Global;
use std::marker::Model;

/// A solver that learns clauses.
#[derive(Drop)]
pub struct Scan {
    searcher: Searcher,
    // The value of variable v at place v - 1.
    model: Vec<bool>,
    is_told: bool,
}

impl Model for Scan {
    ghost use Rattle.cdcl_scan.specs.Solver.{Shown, shown_in, IsAtRest};

    ghost Value = { Shown };

    ghost view = { shown_in };

    ghost invariant = { IsAtRest };
}

impl Scan {
    ghost use Rattle.std.specs.Prelude.{[]};
    ghost use Rattle.learning_trail.specs.Resting.{HeldFit};

    /// No clauses and no variables. It takes no memory.
    pub fn new(alloc: Global) -> Scan
        ensures fit { HeldFit result.held [] result.variables [] }
    {
        Scan {
            searcher: Searcher {
                alloc,
                variables: 0,
                clauses: ClauseStore::new(alloc),
                trail: Trail::new(alloc),
                notes: Notes::new(alloc),
                activities: Activities::new(alloc),
                restarts: Restarts::new(),
            },
            model: Vec::new(alloc),
            is_told: false,
        }
    }
}

impl Oracle for Scan {
    ghost use Rattle.std.specs.Prelude.{[], slice_index_or};
    ghost use Rattle.learning_trail.specs.Resting.{HeldFit};
    ghost use Rattle.learning_trail.specs.FitLaws.{held_searched, held_round, held_begun};

    ghost Fits = { λ s log. HeldFit s.held [] s.variables log.entries };

    ghost HasVariable = { λ s v. (1 ≤ v) × (v ≤ s.variables) };

    ghost is_told = { λ s. s.is_told };

    ghost values = { λ s v. slice_index_or s.model (v - 1) false };

    fn tenant(&mut self) -> Result<Tenant, Memory> {
        Ok(Tenant)
    }

    fn focus(&mut self, _variables: &[u64]) -> Result<(), Memory> {
        Ok(())
    }

    fn new_var(&mut self, name: Name, log: &mut Log) -> Result<u64, Memory> {
        let var = grow(&mut self.searcher, &mut self.model)?;
        log.named(var, name)?;
        self.model.push(false).unwrap();
        self.searcher.variables = var;
        self.is_told = false;
        Ok(var)
    }

    fn group(&mut self, _who: &Tenant, log: &mut Log) -> Result<Group, Memory> {
        let var = grow(&mut self.searcher, &mut self.model)?;
        log.named(var, Name::Selector { group: var })?;
        self.model.push(false).unwrap();
        self.searcher.variables = var;
        self.is_told = false;
        Ok(Group {
            selector: Lit::pos(var),
        })
    }

    fn add(
        &mut self,
        g: &Group,
        lits: &[Lit],
        origin: Origin,
        log: &mut Log,
    ) -> Result<u64, Memory> {
        let clause = group_clause(self.searcher.alloc, g.selector, lits)?;
        let id = keep_given(&mut self.searcher.clauses, &clause, origin, log)?;
        self.is_told = false;
        Ok(id)
    }

    fn solve(&mut self, active: &[Group], assume: &[Lit], log: &mut Log) -> Result<Answer, Stop> {
        self.is_told = false;
        match find(&mut self.searcher, &mut self.model, active, assume, log)? {
            Answer::Sat => {
                self.is_told = true;
                Ok(Answer::Sat)
            }
            Answer::Unsat(id) => Ok(Answer::Unsat(id)),
        }
    }

    fn value(&self, v: u64) -> bool {
        self.model[v as usize - 1]
    }

    ghost searched = { λ s log fit. held_searched s.held [] s.variables log.entries fit };

    ghost made = { λ s log v fit named. fit.fit.in_range v named };

    ghost round = { λ s log row values j fit.
        held_round s.held [] s.variables log.entries row values j fit };

    ghost limit = { λ s log limit fit. fit };

    ghost begun = { λ s log live fit. held_begun s.held [] s.variables log.entries live fit };
}
