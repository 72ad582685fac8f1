//! What a literal of a clause is while units are taken, and what the literals of a clause are.

ghost use Rattle.std.specs.Prelude.{◌≡◌};
ghost use Rattle.dq_prep.specs.Roles.{is_true_role, is_false_role, role_by, with_role};

use dq_lits::{Lit, TruthValue};

/// What a literal is where some literals were taken.
#[derive(Clone, Copy)]
pub(crate) enum Role {
    /// It is on a universal.
    Universal,
    /// It was taken.
    True,
    /// Its negation was taken.
    False,
    /// It is on an existential, and neither was taken.
    Open,
}

impl Role {
    pub(crate) fn is_true(&self) -> bool
        ensures { result ≡ is_true_role self.now }
    {
        match self {
            Role::Universal => false,
            Role::True => true,
            Role::False => false,
            Role::Open => false,
        }
    }

    pub(crate) fn is_false(&self) -> bool
        ensures { result ≡ is_false_role self.now }
    {
        match self {
            Role::Universal => false,
            Role::True => false,
            Role::False => true,
            Role::Open => false,
        }
    }
}

/// What the literals of a clause are.
#[derive(Clone, Copy)]
pub(crate) enum Opens {
    /// One of them was taken.
    Satisfied,
    /// None of them was, and none is open.
    Nothing,
    /// None of them was taken, and this one alone is open.
    One(Lit),
    /// Two or more are open.
    More,
}

/// The role of a literal on an existential with this value.
pub(crate) fn role_by(value: TruthValue, is_negative: bool) -> Role
    ensures { result ≡ role_by value is_negative }
{
    match value {
        TruthValue::Unassigned => Role::Open,
        TruthValue::True => signed(is_negative),
        TruthValue::False => signed(!is_negative),
    }
}

fn signed(is_false: bool) -> Role
    ensures { result ≡ role_by TruthValue.True is_false }
{
    if is_false { Role::False } else { Role::True }
}

/// With one more literal, of this role.
pub(crate) fn with_role(opens: Opens, role: Role, l: Lit) -> Opens
    ensures { result ≡ with_role opens role l }
{
    match role {
        Role::Universal => opens,
        Role::False => opens,
        Role::True => Opens::Satisfied,
        Role::Open => with_open(opens, l),
    }
}

fn with_open(opens: Opens, l: Lit) -> Opens
    ensures { result ≡ with_role opens Role.Open l }
{
    match opens {
        Opens::Satisfied => Opens::Satisfied,
        Opens::Nothing => Opens::One(l),
        Opens::One(_) => Opens::More,
        Opens::More => Opens::More,
    }
}
