//! A script's commands in order.

ghost use Rattle.std.specs.Prelude.{◌≡◌, ◌+◌, ◌<◌, ◌++◌, ◌∷◌, [], length, Some, IfOk, OnOk, OnErr, slice_get};
ghost use Rattle.script_text.specs.Commands.{command_by, command_seen, commands_of};

use dq_lits::{Lit, Memory};
use flat_lists::FlatLists;
use std::alloc::Global;
use std::marker::Model;

/// A command of a script.
#[derive(Clone, Copy)]
pub enum Command<'a> {
    /// Opens a frame.
    Push,
    /// Adds a clause to the newest frame: distinct literals.
    Add(&'a [Lit]),
    /// Closes the newest frame, and takes its clauses away.
    Pop,
    /// Decides the formula with the clauses of all open frames.
    Solve,
}

/// The word with which a command begins.
#[derive(Clone, Copy, PartialEq, Eq)]
pub(crate) enum Keyword {
    Push,
    Add,
    Pop,
    Solve,
}

/// The commands of a script in order. Clauses lie end to end, so that no command takes a block of
/// memory of its own.
#[derive(Drop)]
pub struct Script {
    words: Vec<Keyword>,
    // A list for each command, without literals where it isn't a clause.
    clauses: FlatLists<Lit>,
}

impl Model for Script {
    ghost use Rattle.std.specs.Prelude.{List, length, ◌≡◌};
    ghost use Rattle.script_text.specs.Commands.{ScriptCommand, commands_of};

    ghost Value = { List ScriptCommand };

    ghost view = { λ s. commands_of s.words.items s.clauses };

    ghost invariant = { λ s. length s.words.items ≡ length s.clauses };
}

// The command at a place.
fn command_at<'a>(words: &[Keyword], clauses: &'a FlatLists<Lit>, place: usize) -> Command<'a>
    requires whole { length words.now ≡ length clauses.now }
    requires within { place < length words.now }
    ensures { slice_get (commands_of words.now clauses.now) place ≡ Some (command_seen result) }
{
    match words[place] {
        Keyword::Push => Command::Push,
        Keyword::Add => Command::Add(clauses.get(place)),
        Keyword::Pop => Command::Pop,
        Keyword::Solve => Command::Solve,
    }
}

// Adds a command behind the others.
fn append(
    words: &mut Vec<Keyword>,
    clauses: &mut FlatLists<Lit>,
    word: Keyword,
    clause: &[Lit],
) -> Result<(), Memory>
    ensures words { OnOk result (words.new.items ≡ words.old.items ++ word ∷ []) }
    ensures clauses { OnOk result (clauses.new ≡ clauses.old ++ clause.now ∷ []) }
    ensures err { OnErr result
        ((words.new.items ≡ words.old.items) × (clauses.new ≡ clauses.old)) }
{
    words.reserve(1)?;
    clauses.push(clause)?;
    words.push(word).unwrap();
    Ok(())
}

impl Script {
    /// No command. It takes no memory.
    pub(crate) fn new(alloc: Global) -> Script
        ensures { result ≡ [] }
    {
        Script {
            words: Vec::new(alloc),
            clauses: FlatLists::new(alloc),
        }
    }

    /// How many commands there are.
    pub fn len(&self) -> usize
        ensures { result ≡ length self.now }
    {
        self.words.len()
    }

    /// The command at a place, from 0.
    pub fn get(&self, place: usize) -> Command<'_>
        requires { place < length self.now }
        ensures { slice_get self.now place ≡ Some (command_seen result) }
    {
        command_at(&self.words, &self.clauses, place)
    }

    /// Adds a command, with its clause if it has one. Answers how many there are then.
    pub(crate) fn push(&mut self, word: Keyword, clause: &[Lit]) -> Result<usize, Memory>
        ensures ok { OnOk result (self.new ≡ self.old ++ command_by word clause.now ∷ []) }
        ensures many { IfOk result (λ many. many ≡ length self.old + 1) }
        ensures err { OnErr result (self.new ≡ self.old) }
    {
        append(&mut self.words, &mut self.clauses, word, clause)?;
        Ok(self.words.len())
    }
}
