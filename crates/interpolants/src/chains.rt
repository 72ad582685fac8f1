//! The hints of a line that made a literal true, newest first.

ghost use Rattle.std.specs.Prelude.{◌≡◌, [], ◌∷◌, OnOk, None, Some, IfSome};

use dq_lits::{Lit, Memory};
use std::alloc::Global;
use std::marker::Model;

/// A hint, and the literal that it made true.
#[derive(Clone, Copy)]
pub(crate) struct Link {
    pub(crate) pivot: Lit,
    pub(crate) hint: u64,
}

/// The hints of a line that made a literal true, newest first.
#[derive(Drop)]
pub(crate) struct Chain {
    links: Vec<Link>,
}

impl Model for Chain {
    ghost use Rattle.std.specs.Prelude.{List, reverse};
    ghost use Rattle.interpolants.specs.declared.chains.Link.{Link};

    ghost Value = { List Link };

    ghost view = { λ c. reverse c.links.items };
}

impl Chain {
    pub(crate) fn new(alloc: Global) -> Chain
        ensures { result ≡ [] }
    {
        Chain {
            links: Vec::new(alloc),
        }
    }

    pub(crate) fn push(&mut self, link: Link) -> Result<(), Memory>
        ensures { OnOk result (self.new ≡ link ∷ self.old) }
    {
        self.links.push(link)?;
        Ok(())
    }

    pub(crate) fn pop(&mut self) -> Option<Link>
        ensures some { IfSome result (λ link. self.old ≡ link ∷ self.new) }
        ensures none { result ≡ None → self.old ≡ [] }
    {
        self.links.pop()
    }
}
