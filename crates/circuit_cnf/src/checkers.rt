//! What the check of circuits gave to the oracle once.

ghost use Rattle.std.specs.Prelude.{◌≡◌, ℕ, true, IfOk, None};
ghost use Rattle.hint_log.specs.Growth.{Grew};
ghost use Rattle.log_laws.specs.Engines.{circuits, IsAddedBy, HasNone};
ghost use Rattle.hint_log.specs.Entries.{name_of};
ghost use Rattle.hint_log.specs.ProductiveLog.{fault_groups};
ghost use Rattle.circuit_cnf.specs.Checking.{AreInputs, AreNewGroups, IsChecker, gate_groups};
ghost use Rattle.circuit_cnf.specs.Inputs.{HasNoGates};

use crate::gates::Gates;
use dq_formula::Formula;
use dq_lits::{Lit, Memory};
use hint_log::{Log, Name};
use oracle::{Oracle, Tenant};
use std::alloc::Global;
use std::collections::BTreeMap;

/// Checks circuits against the matrix: what was given to the oracle once.
#[derive(Drop)]
pub struct Checker {
    pub(crate) alloc: Global,
    pub(crate) tenant: Tenant,
    pub(crate) gates: Gates,
    pub(crate) inputs: Vec<Lit>,
    // How many gates the earlier groups have, and which of these have gates of the last outputs: no
    // contract speaks of it.
    pub(crate) batched: usize,
    pub(crate) live: Vec<bool>,
    // The number of the clause that was false at the last failure, from 1 on. No contract speaks of
    // it: it says how many faults are given first.
    pub(crate) last_false: u64,
}

impl Checker {
    /// A checker that was given no gate yet. It names an input for each universal.
    pub fn new<O: Oracle>(
        alloc: Global,
        oracle: &mut O,
        f: &Formula,
        log: &mut Log,
    ) -> Result<Checker, Memory>
        requires fit { O.Fits oracle.old log.old }
        requires none { HasNone circuits log.old.entries }
        ensures fit { O.Fits oracle.new log.new }
        ensures grew { (group : ℕ)
            → Grew (IsAddedBy f.now circuits group true log.old.entries) log.old log.new }
        ensures made { IfOk result (λ c. IsChecker f.now c log.new.entries) }
        ensures fresh { IfOk result (λ c. AreNewGroups (gate_groups c) log.old.entries) }
        ensures faults { fault_groups log.new.entries ≡ fault_groups log.old.entries }
    {
        let inputs = name_inputs(alloc, oracle, f, log)?;
        let tenant = oracle.tenant()?;
        let group = oracle.group(&tenant, log)?;
        let gates = Gates {
            group,
            earlier: Vec::new(alloc),
            variables: BTreeMap::new(alloc),
            unfinished: None,
        };
        Ok(Checker {
            alloc,
            tenant,
            gates,
            inputs,
            batched: 0,
            live: Vec::new(alloc),
            last_false: 0,
        })
    }
}

// Names an input for each universal.
fn name_inputs<O: Oracle>(
    alloc: Global,
    oracle: &mut O,
    f: &Formula,
    log: &mut Log,
) -> Result<Vec<Lit>, Memory>
    requires fit { O.Fits oracle.old log.old }
    requires none { HasNone circuits log.old.entries }
    ensures fit { O.Fits oracle.new log.new }
    ensures grew { (group : ℕ)
        → Grew (IsAddedBy f.now circuits group true log.old.entries) log.old log.new }
    ensures inputs { IfOk result
        (λ inputs. AreInputs f.now.universals inputs.items log.new.entries) }
    ensures none { HasNoGates log.new.entries }
    ensures faults { fault_groups log.new.entries ≡ fault_groups log.old.entries }
    ensures names { (v : ℕ) → name_of log.new.entries v ≡ None → name_of log.old.entries v ≡ None }
{
    f.every_formula_is_lawful();
    let mut inputs = Vec::new(alloc);
    for x in f.universals() {
        let v = oracle.new_var(Name::Input { universal: *x }, log)?;
        inputs.push(Lit::pos(v))?;
    }
    Ok(inputs)
}
