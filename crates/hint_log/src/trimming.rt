//! What an answer rests on.
//!
//! The greatest id that is still to be looked at is taken out, and its hints are added. Since a
//! hint is a smaller id, each id is taken out once, and no id is looked at that isn't reached.

ghost use Rattle.std.specs.Prelude.{reverse, IfOk};
ghost use Rattle.hint_log.specs.Conditions.{IsId};
ghost use Rattle.hint_log.specs.Reached.{AreReached};

use crate::logs::Log;
use crate::pending::Pending;
use dq_lits::{Ids, Memory};

impl Log {
    /// The ids that the clause with an id rests on: its own, and all that are reached from it by
    /// hints, ascending.
    pub fn trim(&self, id: u64) -> Result<Ids, Memory>
        requires { IsId self.now.entries id }
        ensures { IfOk result (AreReached self.now.entries id) }
    {
        let mut ids = self.reached(id)?;
        ids.reverse();
        Ok(Ids::from_vec(ids))
    }

    // The ids that are reached, descending.
    fn reached(&self, id: u64) -> Result<Vec<u64>, Memory>
        requires { IsId self.now.entries id }
        ensures { IfOk result (λ ids. AreReached self.now.entries id (reverse ids.items)) }
    {
        self.every_log_is_lawful();
        let mut reached = Vec::new(self.alloc());
        let mut pending = Pending::new(self.alloc());
        pending.insert(id)?;
        while let Some(at) = pending.pop() {
            pending.insert_all(self.hints(at))?;
            reached.push(at)?;
        }
        Ok(reached)
    }
}
