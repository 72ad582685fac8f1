//! Groups of clauses that are switched on together, and who makes them.

ghost use Rattle.std.specs.Prelude.{◌≡◌};

use dq_lits::Lit;

/// Clauses that are switched on together, by their selector.
#[derive(Clone, Copy)]
pub struct Group {
    pub selector: Lit,
}

impl Group {
    /// The literal that switches the group on.
    pub fn selector(&self) -> Lit
        ensures { result ≡ self.now.selector }
    {
        self.selector
    }
}

/// Who makes groups. A tenant's groups are its own: every group has a selector that no group had
/// before, so that the token needs nothing to tell it from others.
#[derive(Drop)]
pub struct Tenant;
