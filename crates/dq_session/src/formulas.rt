//! The formula of now.

ghost use Rattle.std.specs.Prelude.{◌≡◌, ◌≤◌, [], List, length, OnOk};
ghost use Rattle.dq_formula.specs.declared.formula.TheConstants.{MAX_CLAUSES};
ghost use Rattle.hint_log.specs.Entries.{Entry};
ghost use Rattle.hint_log.specs.Live.{with_matrix};
ghost use Rattle.dq_session.specs.Databases.{all_of, now_of, IsDatabase};

use crate::databases::ClauseDatabase;
use dq_formula::Formula;
use dq_lits::Memory;

impl<'f> ClauseDatabase<'f> {
    /// Adds the live clauses, in order, to a formula that has the file's prefix and no clauses.
    pub fn write_now(&self, f: &mut Formula) -> Result<(), Memory>
        requires database { (entries : List Entry) × IsDatabase self.now entries }
        requires few { length (all_of self.now).matrix ≤ MAX_CLAUSES }
        requires empty { f.old ≡ with_matrix self.now.file [] }
        ensures { OnOk result (f.new ≡ now_of self.now) }
    {
        for live in &self.live {
            f.add_clause(self.clause(live.clause))?;
        }
        Ok(())
    }
}
