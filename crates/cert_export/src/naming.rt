//! New names for the variables that given clauses stand on.

ghost use Rattle.std.specs.Prelude.{◌≡◌, ℕ, List, Some, All, Contains, IfSome, IfOk, OnOk};
ghost use Rattle.dq_lits.specs.Literal.{Literal, variable_of};
ghost use Rattle.hint_log.specs.Conditions.{IsId};
ghost use Rattle.hint_log.specs.Entries.{Given, has_id, numbered};
ghost use Rattle.hint_log.specs.declared.origins.Origin.{Origin};
ghost use Rattle.cert_export.specs.Names.{renaming, IsVariable};
ghost use Rattle.cert_export.specs.Renaming.{Renaming, IsPartOf, IsNamed, AreNamedIn, IsRenamingOf};

use crate::new_names::Names;
use dq_lits::{Lit, Memory};
use hint_log::Log;
use std::alloc::Global;

/// The names that a certificate has for a log's variables.
pub trait Naming {
    /// The names.
    ghost target: { Self → Renaming };

    /// The variables whose names can be asked for.
    ghost Knows: { Self → ℕ → Type 0 };

    /// The name of a variable, if the certificate speaks of it.
    fn name(&self, variable: u64) -> Option<u64>
        requires { Knows self.now variable }
        ensures value { result ≡ target self.now variable }
        ensures range { IfSome result IsVariable };
}

/// The names of the variables that the given clauses among some ids stand on. They take memory for
/// these variables alone.
pub fn given_names<N: Naming>(
    alloc: Global,
    log: &Log,
    ids: &[u64],
    naming: &N,
) -> Result<Names, Memory>
    requires ids { All (IsId log.now.entries) ids.now }
    requires known { (id : ℕ) (origin : Origin) (c : List Literal) → Contains ids.now id
        → numbered has_id log.now.entries id ≡ Some (Given origin c)
        → All (λ l. N.Knows naming.now (variable_of l)) c }
    ensures { IfOk result
        (λ names. IsRenamingOf (N.target naming.now) log.now.entries ids.now (renaming names)) }
{
    let mut names = Names::new(alloc);
    for id in ids {
        if log.origin(*id).is_some() {
            name_variables(log.clause(*id), naming, &mut names)?;
        }
    }
    Ok(names)
}

// Names the variables of a clause.
fn name_variables<N: Naming>(clause: &[Lit], naming: &N, names: &mut Names) -> Result<(), Memory>
    requires known { All (λ l. N.Knows naming.now (variable_of l)) clause.now }
    requires right { IsPartOf (renaming names.old) (N.target naming.now) }
    ensures kept { OnOk result (IsPartOf (renaming names.old) (renaming names.new)) }
    ensures named { OnOk result (AreNamedIn (N.target naming.now) (renaming names.new) clause.now) }
{
    for l in clause {
        name_variable(l, naming, names)?;
    }
    Ok(())
}

// Names the variable of a literal.
fn name_variable<N: Naming>(l: &Lit, naming: &N, names: &mut Names) -> Result<(), Memory>
    requires known { N.Knows naming.now (variable_of l.now) }
    requires right { IsPartOf (renaming names.old) (N.target naming.now) }
    ensures kept { OnOk result (IsPartOf (renaming names.old) (renaming names.new)) }
    ensures right { OnOk result (IsPartOf (renaming names.new) (N.target naming.now)) }
    ensures named { OnOk result (IsNamed (N.target naming.now) (renaming names.new) l.now) }
{
    if let Some(name) = naming.name(l.var()) {
        names.insert(l.var(), name)?;
    }
    Ok(())
}
