//! Copies of variables that come to stand in a clause, and equations between them, part by part.

ghost use Rattle.std.specs.Prelude.{◌≡◌, ◌⊎◌, ◌≤◌, ◌<◌, ◌+◌, List, true, All, length, set, OnOk};
ghost use Rattle.dq_lits.specs.Formula.{declared};
ghost use Rattle.dq_lits.specs.Literal.{variable_of};
ghost use Rattle.hint_log.specs.Entries.{Entry};
ghost use Rattle.hint_log.specs.Naming.{AreNamedAs};
ghost use Rattle.hint_log.specs.Origins.{link_names};
ghost use Rattle.definability.specs.Copies.{AreTwins, IsCopied, is_copied_at};
ghost use Rattle.definability.specs.Following.{CanFollow, HasMore};
ghost use Rattle.definability.specs.Making.{AreCopiedFrom};
ghost use Rattle.definability.specs.Store.{parts_at, store_of};

use crate::copies::Twins;
use crate::definability::Definability;
use crate::seeing::{declared_at, declared_count};
use dq_formula::Formula;
use dq_lits::{Lit, Memory};
use hint_log::{Log, Name, Origin};
use oracle::Oracle;

impl Definability {
    /// Makes the copies of the declared variables from a place on that have none yet, with their
    /// equations.
    pub(crate) fn copy_places<O: Oracle>(
        &mut self,
        oracle: &mut O,
        f: &Formula,
        from: usize,
        log: &mut Log,
    ) -> Result<(), Memory>
        requires fit { O.Fits oracle.old log.old }
        requires standing { CanFollow f.now self.old log.old.entries }
        ensures fit { O.Fits oracle.new log.new }
        ensures more { HasMore f.now self.old log.old self.new log.new }
        ensures copied { OnOk result (AreCopiedFrom from self.new) }
    {
        for place in from..declared_count(f) {
            self.copy_place(oracle, f, place, log)?;
        }
        Ok(())
    }

    /// Makes the copies of a clause's universals that have none yet, with their equations.
    pub(crate) fn copy_variables<O: Oracle>(
        &mut self,
        oracle: &mut O,
        f: &Formula,
        clause: &[Lit],
        log: &mut Log,
    ) -> Result<(), Memory>
        requires fit { O.Fits oracle.old log.old }
        requires standing { CanFollow f.now self.old log.old.entries }
        ensures fit { O.Fits oracle.new log.new }
        ensures more { HasMore f.now self.old log.old self.new log.new }
        ensures covered { OnOk result
            (All (λ l. IsCopied f.now self.new.copied.items (variable_of l)) clause.now) }
    {
        for l in clause {
            self.copy_variable(oracle, f, l.var(), log)?;
        }
        Ok(())
    }

    // Makes the copies of a variable, if it is a universal.
    fn copy_variable<O: Oracle>(
        &mut self,
        oracle: &mut O,
        f: &Formula,
        v: u64,
        log: &mut Log,
    ) -> Result<(), Memory>
        requires fit { O.Fits oracle.old log.old }
        requires standing { CanFollow f.now self.old log.old.entries }
        ensures fit { O.Fits oracle.new log.new }
        ensures more { HasMore f.now self.old log.old self.new log.new }
        ensures covered { OnOk result (IsCopied f.now self.new.copied.items v) }
    {
        f.every_formula_is_lawful();
        match f.universal_place(v) {
            Some(place) => {
                self.copy_place(oracle, f, place, log)?;
                Ok(())
            }
            None => Ok(()),
        }
    }

    // Makes the parts that the copies of the variable at a place lack.
    fn copy_place<O: Oracle>(
        &mut self,
        oracle: &mut O,
        f: &Formula,
        place: usize,
        log: &mut Log,
    ) -> Result<(), Memory>
        requires fit { O.Fits oracle.old log.old }
        requires standing { CanFollow f.now self.old log.old.entries }
        requires place { place < length (declared f.now) }
        ensures fit { O.Fits oracle.new log.new }
        ensures more { HasMore f.now self.old log.old self.new log.new }
        ensures parts { OnOk result (5 ≤ parts_at (store_of self.new) place) }
        ensures copied { OnOk result (is_copied_at self.new.copied.items place ≡ true) }
    {
        for part in self.parts[place]..5 {
            self.add_part(oracle, f, place, part, log)?;
        }
        self.flag(place);
        Ok(())
    }

    // Notes that the variable at a place has copies: existentials have no flags.
    fn flag(&mut self, place: usize)
        ensures same { self.new ≡ record self.old { copied = self.new.copied } }
        ensures flag { place < length self.old.copied.items
            → self.new.copied.items ≡ set self.old.copied.items place true }
        ensures none { length self.old.copied.items ≤ place → self.new ≡ self.old }
    {
        if place < self.copied.len() {
            self.copied[place] = true;
        }
    }

    // Makes the part behind so many.
    fn add_part<O: Oracle>(
        &mut self,
        oracle: &mut O,
        f: &Formula,
        place: usize,
        part: u8,
        log: &mut Log,
    ) -> Result<(), Memory>
        requires fit { O.Fits oracle.old log.old }
        requires standing { CanFollow f.now self.old log.old.entries }
        requires place { place < length (declared f.now) }
        requires so_far { parts_at (store_of self.old) place ≡ part }
        requires few { part < 5 }
        ensures fit { O.Fits oracle.new log.new }
        ensures more { HasMore f.now self.old log.old self.new log.new }
        ensures part { OnOk result (parts_at (store_of self.new) place ≡ part + 1) }
    {
        match part {
            0 => self.name_first(oracle, f, place, log),
            1 => self.name_second(oracle, f, place, log),
            2 => self.open_link(oracle, f, place, log),
            3 => self.give_half(oracle, f, place, 1, log),
            _ => self.give_half(oracle, f, place, 2, log),
        }
    }

    // Names the first copy of the variable at a place.
    fn name_first<O: Oracle>(
        &mut self,
        oracle: &mut O,
        f: &Formula,
        place: usize,
        log: &mut Log,
    ) -> Result<(), Memory>
        requires fit { O.Fits oracle.old log.old }
        requires standing { CanFollow f.now self.old log.old.entries }
        requires place { place < length (declared f.now) }
        requires so_far { parts_at (store_of self.old) place ≡ 0 }
        ensures fit { O.Fits oracle.new log.new }
        ensures more { HasMore f.now self.old log.old self.new log.new }
        ensures part { OnOk result (parts_at (store_of self.new) place ≡ 1) }
    {
        f.every_formula_is_lawful();
        let name = Name::Copy {
            side: 1,
            variable: declared_at(f, place),
        };
        let v = oracle.new_var(name, log)?;
        self.first.put(place, Lit::pos(v));
        self.parts[place] = 1;
        Ok(())
    }

    // Names the second copy of the variable at a place.
    fn name_second<O: Oracle>(
        &mut self,
        oracle: &mut O,
        f: &Formula,
        place: usize,
        log: &mut Log,
    ) -> Result<(), Memory>
        requires fit { O.Fits oracle.old log.old }
        requires standing { CanFollow f.now self.old log.old.entries }
        requires place { place < length (declared f.now) }
        requires so_far { parts_at (store_of self.old) place ≡ 1 }
        ensures fit { O.Fits oracle.new log.new }
        ensures more { HasMore f.now self.old log.old self.new log.new }
        ensures part { OnOk result (parts_at (store_of self.new) place ≡ 2) }
    {
        f.every_formula_is_lawful();
        let name = Name::Copy {
            side: 2,
            variable: declared_at(f, place),
        };
        let v = oracle.new_var(name, log)?;
        self.second.put(place, Lit::pos(v));
        self.parts[place] = 2;
        Ok(())
    }

    // Makes the group of an equation, for the variable at a place.
    fn open_link<O: Oracle>(
        &mut self,
        oracle: &mut O,
        f: &Formula,
        place: usize,
        log: &mut Log,
    ) -> Result<(), Memory>
        requires fit { O.Fits oracle.old log.old }
        requires standing { CanFollow f.now self.old log.old.entries }
        requires place { place < length (declared f.now) }
        requires so_far { parts_at (store_of self.old) place ≡ 2 }
        ensures fit { O.Fits oracle.new log.new }
        ensures more { HasMore f.now self.old log.old self.new log.new }
        ensures part { OnOk result (parts_at (store_of self.new) place ≡ 3) }
    {
        f.every_formula_is_lawful();
        let who = oracle.tenant()?;
        let group = oracle.group(&who, log)?;
        self.links[place] = group;
        self.parts[place] = 3;
        Ok(())
    }

    // Gives half of an equation, for the variable at a place.
    fn give_half<O: Oracle>(
        &mut self,
        oracle: &mut O,
        f: &Formula,
        place: usize,
        half: u8,
        log: &mut Log,
    ) -> Result<(), Memory>
        requires fit { O.Fits oracle.old log.old }
        requires standing { CanFollow f.now self.old log.old.entries }
        requires place { place < length (declared f.now) }
        requires half { (half ≡ 1) ⊎ (half ≡ 2) }
        requires so_far { parts_at (store_of self.old) place ≡ half + 2 }
        ensures fit { O.Fits oracle.new log.new }
        ensures more { HasMore f.now self.old log.old self.new log.new }
        ensures part { OnOk result (parts_at (store_of self.new) place ≡ half + 3) }
    {
        f.every_formula_is_lawful();
        let twins = Twins {
            variable: declared_at(f, place),
            first: self.first.copy_at(place),
            second: self.second.copy_at(place),
        };
        let group = self.links[place];
        let origin = Origin::Link {
            variable: twins.variable,
            part: half as u64,
        };
        let lits = half_of(twins, half);
        oracle.add(&group, &lits, origin, log)?;
        self.parts[place] = half + 3;
        Ok(())
    }
}

// One half of the equation between a variable's copies.
fn half_of(twins: Twins, half: u8) -> [Lit; 2]
    requires { (half ≡ 1) ⊎ (half ≡ 2) }
    ensures { (entries : List Entry) → AreTwins entries twins
        → AreNamedAs entries result (link_names twins.variable half) }
{
    if half == 1 {
        [twins.first.not(), twins.second]
    } else {
        [twins.first, twins.second.not()]
    }
}
