//! A circuit's gates as clauses, each given once (Tseitin's encoding).
//!
//! Gates are found by an ordered map from the codes of their two literals, and it is exact: a gate
//! that it doesn't know has no name and no clauses.

ghost use Rattle.std.specs.Prelude.{◌≡◌, ◌≤◌, ◌<◌, ◌+◌, ◌^◌, ℕ, length, OnOk, OnErr, IfOk, Some, None};
ghost use Rattle.dq_lits.specs.Literal.{variable_of, literal_code};
ghost use Rattle.hint_log.specs.declared.names.Name.TheVariants.{And};
ghost use Rattle.hint_log.specs.declared.origins.Origin.TheVariants.{Gate};
ghost use Rattle.hint_log.specs.Conditions.{HasSides};
ghost use Rattle.hint_log.specs.Entries.{name_of, rounds_of};
ghost use Rattle.hint_log.specs.ProductiveLog.{fault_groups, fault_room};
ghost use Rattle.oracle.specs.Calls.{IsMade};
ghost use Rattle.circuit_cnf.specs.Gates.{AreKnown, AreBadsStill, HasBegunGroup, IsPartGiven, GrewByGates};

use dq_lits::{Lit, Memory};
use hint_log::{Log, Name, Origin};
use oracle::{Group, Oracle, Tenant};
use std::collections::BTreeMap;

/// The gates that were given to the oracle, by their sides.
#[derive(Drop)]
pub(crate) struct Gates {
    // Gates go to this group.
    pub(crate) group: Group,
    // The groups to which earlier ones went.
    pub(crate) earlier: Vec<Group>,
    pub(crate) variables: BTreeMap<(u64, u64), u64>,
    // The gate that was named last, where memory was refused before it had all its clauses.
    pub(crate) unfinished: Option<Unfinished>,
}

/// A gate that was named, and how many of its clauses were given.
#[derive(Clone, Copy)]
pub(crate) struct Unfinished {
    pub(crate) left: Lit,
    pub(crate) right: Lit,
    pub(crate) variable: u64,
    pub(crate) parts: u64,
}

impl Gates {
    // The variable of a gate over these literals: its clauses are given where they weren't yet.
    pub(crate) fn variable<O: Oracle>(
        &mut self,
        oracle: &mut O,
        a: Lit,
        b: Lit,
        log: &mut Log,
    ) -> Result<u64, Memory>
        requires fit { O.Fits oracle.old log.old }
        requires known { AreKnown self.old log.old.entries }
        requires ready { self.old.unfinished ≡ None }
        requires sides { HasSides log.old.entries (And a b) }
        requires few { length (fault_groups log.old.entries) ≤ fault_room log.old.entries }
        ensures fit { O.Fits oracle.new log.new }
        ensures grew { GrewByGates (variable_of self.old.group.selector) log.old log.new }
        ensures group { self.new.group ≡ self.old.group }
        ensures earlier { self.new.earlier ≡ self.old.earlier }
        ensures faults { fault_groups log.new.entries ≡ fault_groups log.old.entries }
        ensures bads { AreBadsStill log.old.entries log.new.entries }
        ensures known { AreKnown self.new log.new.entries }
        ensures ready { OnOk result (self.new.unfinished ≡ None) }
        ensures named { IfOk result (λ v. name_of log.new.entries v ≡ Some (And a b)) }
        ensures in_range { IfOk result (λ v. (1 ≤ v) × (v < 2 ^ 62)) }
    {
        let key = (code(&a), code(&b));
        if let Some(v) = self.variables.get(&key) {
            return Ok(*v);
        }
        let v = oracle.new_var(Name::And { left: a, right: b }, log)?;
        self.unfinished = Some(Unfinished {
            left: a,
            right: b,
            variable: v,
            parts: 0,
        });
        self.finish(oracle, log)?;
        Ok(v)
    }

    // Gates go to a new group from now on.
    pub(crate) fn begin_group<O: Oracle>(
        &mut self,
        oracle: &mut O,
        tenant: &Tenant,
        log: &mut Log,
    ) -> Result<(), Memory>
        requires fit { O.Fits oracle.old log.old }
        requires known { AreKnown self.old log.old.entries }
        requires ready { self.old.unfinished ≡ None }
        ensures fit { O.Fits oracle.new log.new }
        ensures begun { HasBegunGroup self.old self.new log.old log.new }
    {
        let group = oracle.group(tenant, log)?;
        self.earlier.push(self.group)?;
        self.group = group;
        Ok(())
    }

    // Gives the clauses that are missing of the gate that was named last, if any are.
    pub(crate) fn finish<O: Oracle>(&mut self, oracle: &mut O, log: &mut Log) -> Result<(), Memory>
        requires fit { O.Fits oracle.old log.old }
        requires known { AreKnown self.old log.old.entries }
        requires few { length (fault_groups log.old.entries) ≤ fault_room log.old.entries }
        ensures fit { O.Fits oracle.new log.new }
        ensures grew { GrewByGates (variable_of self.old.group.selector) log.old log.new }
        ensures group { self.new.group ≡ self.old.group }
        ensures earlier { self.new.earlier ≡ self.old.earlier }
        ensures names { (v : ℕ) → name_of log.new.entries v ≡ name_of log.old.entries v }
        ensures faults { fault_groups log.new.entries ≡ fault_groups log.old.entries }
        ensures known { AreKnown self.new log.new.entries }
        ensures ready { OnOk result (self.new.unfinished ≡ None) }
    {
        match self.unfinished {
            Some(gate) => self.finish_gate(oracle, &gate, log),
            None => Ok(()),
        }
    }

    fn finish_gate<O: Oracle>(
        &mut self,
        oracle: &mut O,
        gate: &Unfinished,
        log: &mut Log,
    ) -> Result<(), Memory>
        requires fit { O.Fits oracle.old log.old }
        requires known { AreKnown self.old log.old.entries }
        requires last { self.old.unfinished ≡ Some gate.now }
        requires few { length (fault_groups log.old.entries) ≤ fault_room log.old.entries }
        ensures fit { O.Fits oracle.new log.new }
        ensures grew { GrewByGates (variable_of self.old.group.selector) log.old log.new }
        ensures group { self.new.group ≡ self.old.group }
        ensures earlier { self.new.earlier ≡ self.old.earlier }
        ensures names { (v : ℕ) → name_of log.new.entries v ≡ name_of log.old.entries v }
        ensures faults { fault_groups log.new.entries ≡ fault_groups log.old.entries }
        ensures known { AreKnown self.new log.new.entries }
        ensures ready { OnOk result (self.new.unfinished ≡ None) }
    {
        self.give_parts(oracle, gate, log)?;
        let key = (code(&gate.left), code(&gate.right));
        self.variables.insert(key, gate.variable)?;
        self.unfinished = None;
        Ok(())
    }

    // Gives the missing clauses, and notes each.
    fn give_parts<O: Oracle>(
        &mut self,
        oracle: &mut O,
        gate: &Unfinished,
        log: &mut Log,
    ) -> Result<(), Memory>
        requires fit { O.Fits oracle.old log.old }
        requires known { AreKnown self.old log.old.entries }
        requires last { self.old.unfinished ≡ Some gate.now }
        requires few { length (fault_groups log.old.entries) ≤ fault_room log.old.entries }
        ensures fit { O.Fits oracle.new log.new }
        ensures grew { GrewByGates (variable_of self.old.group.selector) log.old log.new }
        ensures group { self.new.group ≡ self.old.group }
        ensures earlier { self.new.earlier ≡ self.old.earlier }
        ensures names { (v : ℕ) → name_of log.new.entries v ≡ name_of log.old.entries v }
        ensures faults { fault_groups log.new.entries ≡ fault_groups log.old.entries }
        ensures known { AreKnown self.new log.new.entries }
        ensures last { OnOk result (self.new.unfinished ≡ Some (record gate.now { parts = 3 })) }
    {
        for parts in gate.parts..3 {
            give_part(&self.group, oracle, gate, parts + 1, log)?;
            self.unfinished = Some(Unfinished {
                left: gate.left,
                right: gate.right,
                variable: gate.variable,
                parts: parts + 1,
            });
        }
        Ok(())
    }
}

// Gives a clause of a gate, by its number from 1 to 3.
fn give_part<O: Oracle>(
    group: &Group,
    oracle: &mut O,
    gate: &Unfinished,
    part: u64,
    log: &mut Log,
) -> Result<(), Memory>
    requires fit { O.Fits oracle.old log.old }
    requires made { IsMade log.old.entries group.now }
    requires first { 1 ≤ part }
    requires last { part ≤ 3 }
    requires from_one { 1 ≤ gate.now.variable }
    requires in_range { gate.now.variable < 2 ^ 62 }
    requires named { name_of log.old.entries gate.now.variable
        ≡ Some (And gate.now.left gate.now.right) }
    requires sides { HasSides log.old.entries (And gate.now.left gate.now.right) }
    ensures fit { O.Fits oracle.new log.new }
    ensures given { OnOk result
        (IsPartGiven log.old log.new (variable_of group.now.selector) part gate.now) }
    ensures err { OnErr result (log.new ≡ log.old) }
{
    let v = gate.variable;
    let origin = Origin::Gate { variable: v, part };
    if part == 1 {
        oracle.add(group, &[Lit::neg(v), gate.left], origin, log)?;
    } else if part == 2 {
        oracle.add(group, &[Lit::neg(v), gate.right], origin, log)?;
    } else {
        oracle.add(
            group,
            &[Lit::pos(v), gate.left.not(), gate.right.not()],
            origin,
            log,
        )?;
    }
    Ok(())
}

fn code(l: &Lit) -> u64
    ensures { result ≡ literal_code l.now }
{
    if l.is_neg() {
        2 * l.var() + 1
    } else {
        2 * l.var()
    }
}
