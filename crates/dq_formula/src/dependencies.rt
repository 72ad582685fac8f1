//! Dependency sets: the first so many universals, or a list.

ghost use Rattle.std.specs.Prelude.{◌≡◌};

use std::marker::Model;

/// Universal variables, in order of declaration.
#[derive(Drop)]
pub struct Vars {
    vars: Vec<u64>,
}

impl Model for Vars {
    ghost use Rattle.std.specs.Prelude.{ℕ, List};

    ghost Value = { List ℕ };

    ghost view = { λ v. v.vars.items };
}

impl Vars {
    pub(crate) fn from_vec(vars: Vec<u64>) -> Vars
        ensures { result ≡ vars.items }
    {
        Vars { vars }
    }

    /// The variables in order.
    pub fn items(&self) -> &[u64]
        ensures { result.now ≡ self.now }
    {
        &self.vars
    }
}

/// The dependency set of an existential: the universals whose bits its value is a function of. The
/// same set may have either form.
#[derive(Drop)]
pub enum Deps {
    /// The universals declared first, so many of them.
    FirstOf(usize),
    /// These universals.
    Listed(Vars),
}

impl Deps {
    ghost use Rattle.dq_formula.specs.Dependencies.{dependency_count};

    // How many universals are in the set.
    pub(crate) fn count(&self) -> usize
        ensures { result ≡ dependency_count self.now }
    {
        match self {
            Deps::FirstOf(n) => *n,
            Deps::Listed(vars) => vars.items().len(),
        }
    }
}
