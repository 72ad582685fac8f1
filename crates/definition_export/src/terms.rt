//! The gates over first copies that a log names, in the order of naming.

ghost use Rattle.std.specs.Prelude.{◌≡◌, OnOk, OnErr, []};
ghost use Rattle.hint_log.specs.Entries.{Entry, names_of};
ghost use Rattle.definition_export.specs.TermOrder.{HasRead, IsTermOrder, with_term};

use dq_lits::Memory;
use hint_log::{Log, Name};
use number_tables::NumberSet;
use std::alloc::Global;

/// The gates over first copies among the names of a log that were read so far, in the order of
/// naming, so that each stands behind those that it reads.
#[derive(Drop)]
pub struct TermOrder {
    pub(crate) read: usize,
    pub(crate) terms: NumberSet,
}

impl TermOrder {
    /// No name was read. It takes no memory.
    pub fn new(alloc: Global) -> TermOrder
        ensures { (entries : _) → HasRead result entries }
    {
        TermOrder {
            read: 0,
            terms: NumberSet::new(alloc),
        }
    }

    /// Reads the names that the log has besides those that were read. It takes time for these, and
    /// memory for the gates over first copies among them. After an error it may be called again.
    pub fn read_on(&mut self, log: &Log) -> Result<(), Memory>
        requires { HasRead self.old log.now.entries }
        ensures read { HasRead self.new log.now.entries }
        ensures all { OnOk result (IsTermOrder self.new log.now.entries) }
    {
        for place in self.read..log.names() {
            let (variable, name) = log.name_at(place);
            add_term(&mut self.terms, variable, name)?;
            self.read = place + 1;
        }
        Ok(())
    }
}

// Adds a variable that stands for a gate over first copies.
fn add_term(terms: &mut NumberSet, variable: u64, name: Name) -> Result<(), Memory>
    ensures ok { OnOk result (terms.new ≡ with_term terms.old (variable, name)) }
    ensures err { OnErr result (terms.new ≡ terms.old) }
{
    if let Name::Term { .. } = name {
        terms.insert(variable)?;
    }
    Ok(())
}
