//! The solver as a value, and its calls as an oracle.

ghost use Rattle.std.specs.Prelude.{◌≡◌, ◌≤◌, ◌<◌};
ghost use Rattle.cdcl_core.specs.Solver.{is_on};

use crate::calls::{find, grow, keep_given};
use crate::clauses::ClauseStore;
use crate::delays::Delays;
use crate::focus::Focus;
use crate::positions::Positions;
use crate::resting::Resting;
use crate::searchers::Searcher;
use dq_lits::{Lit, Memory, TruthValue};
use hint_log::{Log, Name, Origin, Stop};
use learning_trail::{Activities, Notes, Restarts, Trail, group_clause};
use oracle::{Answer, Group, Oracle, Tenant};
use std::alloc::Global;
use std::marker::Model;

/// A solver that learns clauses.
#[derive(Drop)]
pub struct Cdcl {
    searcher: Searcher,
    // Whether its trail stands as the last search found it.
    is_told: bool,
}

impl Model for Cdcl {
    ghost use Rattle.cdcl_core.specs.Solver.{Shown, shown_in, IsAtRest};

    ghost Value = { Shown };

    ghost view = { shown_in };

    ghost invariant = { IsAtRest };
}

impl Cdcl {
    ghost use Rattle.std.specs.Prelude.{[]};
    ghost use Rattle.learning_trail.specs.Resting.{HeldFit};

    /// No clauses and no variables. It takes no memory.
    pub fn new(alloc: Global) -> Cdcl
        ensures fit { HeldFit result.held result.resting result.variables [] }
    {
        Cdcl {
            searcher: Searcher {
                alloc,
                variables: 0,
                clauses: ClauseStore::new(alloc),
                trail: Trail::new(alloc),
                notes: Notes::new(alloc),
                activities: Activities::new(alloc),
                restarts: Restarts::new(),
                positions: Positions::new(alloc),
                focus: Focus::new(alloc),
                resting: Resting::new(alloc),
                delays: Delays::new(),
            },
            is_told: false,
        }
    }
}

impl Oracle for Cdcl {
    ghost use Rattle.learning_trail.specs.Resting.{HeldFit};
    ghost use Rattle.learning_trail.specs.FitLaws.{held_searched, held_round, held_begun};
    ghost use Rattle.cdcl_core.specs.Solver.{value_on};

    ghost Fits = { λ s log. HeldFit s.held s.resting s.variables log.entries };

    ghost HasVariable = { λ s v. (1 ≤ v) × (v ≤ s.variables) };

    ghost is_told = { λ s. s.is_told };

    ghost values = { λ s v. value_on s.steps v };

    fn tenant(&mut self) -> Result<Tenant, Memory> {
        Ok(Tenant)
    }

    fn focus(&mut self, variables: &[u64]) -> Result<(), Memory> {
        self.searcher.focus.set(variables)
    }

    fn new_var(&mut self, name: Name, log: &mut Log) -> Result<u64, Memory> {
        let var = grow(&mut self.searcher)?;
        log.named(var, name)?;
        self.searcher.variables = var;
        self.is_told = false;
        Ok(var)
    }

    fn group(&mut self, _who: &Tenant, log: &mut Log) -> Result<Group, Memory> {
        let var = grow(&mut self.searcher)?;
        self.searcher.resting.made(var)?;
        log.named(var, Name::Selector { group: var })?;
        self.searcher.variables = var;
        self.is_told = false;
        Ok(Group {
            selector: Lit::pos(var),
        })
    }

    fn add(
        &mut self,
        g: &Group,
        lits: &[Lit],
        origin: Origin,
        log: &mut Log,
    ) -> Result<u64, Memory> {
        self.searcher.delays.note(g, &origin);
        let clause = group_clause(self.searcher.alloc, g.selector, lits)?;
        let id = keep_given(&mut self.searcher.clauses, &clause, origin, log)?;
        self.is_told = false;
        Ok(id)
    }

    fn solve(&mut self, active: &[Group], assume: &[Lit], log: &mut Log) -> Result<Answer, Stop> {
        self.is_told = false;
        match find(&mut self.searcher, active, assume, log)? {
            Answer::Sat => {
                self.is_told = true;
                Ok(Answer::Sat)
            }
            Answer::Unsat(id) => Ok(Answer::Unsat(id)),
        }
    }

    fn value(&self, v: u64) -> bool {
        is_on(self.searcher.trail.value(Lit::pos(v)))
    }

    ghost searched = { λ s log fit. held_searched s.held s.resting s.variables log.entries fit };

    ghost made = { λ s log v fit named. fit.fit.in_range v named };

    ghost round = { λ s log row values j fit.
        held_round s.held s.resting s.variables log.entries row values j fit };

    ghost limit = { λ s log limit fit. fit };

    ghost begun = { λ s log live fit. held_begun s.held s.resting s.variables log.entries live fit };
}

fn is_on(value: TruthValue) -> bool
    ensures { result ≡ is_on value }
{
    match value {
        TruthValue::True => true,
        TruthValue::False => false,
        TruthValue::Unassigned => false,
    }
}
