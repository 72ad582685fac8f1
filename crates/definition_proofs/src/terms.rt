//! Gates over first copies, each given once (Tseitin's encoding).
//!
//! Gates over first copies are shared by their sides, not by a graph's numbers, so that what is
//! known of them doesn't ask for the graph.

ghost use Rattle.std.specs.Prelude.{◌≡◌, ◌≤◌, ◌<◌, ◌^◌, ℕ, true, List, IfOk, OnOk, OnErr, Some};
ghost use Rattle.std.specs.List.{Contains};
ghost use Rattle.dq_lits.specs.Formula.{Dqbf};
ghost use Rattle.dq_lits.specs.Literal.{Literal, positive, literal_code};
ghost use Rattle.hint_log.specs.Conditions.{HasSides};
ghost use Rattle.hint_log.specs.Entries.{Named, Given, with_entry, name_of};
ghost use Rattle.hint_log.specs.Growth.{Grew};
ghost use Rattle.hint_log.specs.declared.names.Name.TheVariants.{Selector, Term};
ghost use Rattle.hint_log.specs.declared.origins.Origin.TheVariants.{TermGate};
ghost use Rattle.log_laws.specs.Engines.{copies, IsAddedBy};
ghost use Rattle.oracle.specs.Calls.{IsMade};
ghost use Rattle.definability.specs.Copies.{IsDefinability, IsWhole, group_variable};
ghost use Rattle.definability.specs.Growing.{Gives, HasFewFaults};
ghost use Rattle.definability.specs.declared.definability.Definability.{Definability as DefinabilityValue};
ghost use Rattle.definition_proofs.specs.Proving.{AreBeside};
ghost use Rattle.definition_proofs.specs.Shown.{IsDeclaredCopy, ReadDeclaredCopies};
ghost use Rattle.definition_proofs.specs.Terms.{is_gate_of, HasTermClauses, HasNoTerms, AreTerms, GrewByProof};

use dq_lits::{Lit, Memory};
use hint_log::{Log, Name, Origin};
use oracle::{Group, Oracle};
use std::alloc::Global;
use std::collections::BTreeMap;

/// The gates over first copies that were given to the oracle, by their sides, in a group of their
/// own. Definitions share them: a call that needs a gate that another one gave finds it here.
#[derive(Drop)]
pub struct Terms {
    pub(crate) alloc: Global,
    pub(crate) group: Group,
    pub(crate) literals: BTreeMap<(u64, u64), Lit>,
}

// A gate over first copies that was named.
#[derive(Clone, Copy)]
struct NewGate {
    variable: u64,
    left: Lit,
    right: Lit,
}

impl Terms {
    /// Makes the group; no gate is given yet.
    pub fn new<O: Oracle>(alloc: Global, oracle: &mut O, log: &mut Log) -> Result<Terms, Memory>
        requires fit { O.Fits oracle.old log.old }
        requires none { HasNoTerms log.old.entries }
        ensures fit { O.Fits oracle.new log.new }
        ensures ok { IfOk result (λ terms. log.new ≡ with_entry log.old
            (Named (group_variable terms.group) (Selector (group_variable terms.group)))) }
        ensures grew { (f : Dqbf) (group : ℕ)
            → Grew (IsAddedBy f copies group true log.old.entries) log.old log.new }
        ensures made { IfOk result (λ terms. AreTerms terms log.new.entries) }
        ensures beside { (f : Dqbf) (p : DefinabilityValue) → IsDefinability f p log.old.entries → IsWhole f p
            → HasFewFaults log.old.entries
            → IfOk result (λ terms. AreBeside f p terms log.new.entries) }
        ensures err { OnErr result (log.new ≡ log.old) }
    {
        let who = oracle.tenant()?;
        let group = oracle.group(&who, log)?;
        Ok(Terms {
            alloc,
            group,
            literals: BTreeMap::new(alloc),
        })
    }

    // The literal of a gate over these literals: its clauses are given where they weren't yet.
    pub(crate) fn gate<O: Oracle>(
        &mut self,
        oracle: &mut O,
        a: Lit,
        b: Lit,
        log: &mut Log,
    ) -> Result<Lit, Memory>
        requires fit { O.Fits oracle.old log.old }
        requires terms { AreTerms self.old log.old.entries }
        requires sides { HasSides log.old.entries (Term a b) }
        requires few { HasFewFaults log.old.entries }
        ensures fit { O.Fits oracle.new log.new }
        ensures grew { (f : Dqbf) (y : ℕ)
            → GrewByProof f (group_variable self.old.group) y log.old log.new }
        ensures group { self.new.group ≡ self.old.group }
        ensures terms { OnOk result (AreTerms self.new log.new.entries) }
        ensures sides { (f : Dqbf) → ReadDeclaredCopies f log.old.entries
            → IsDeclaredCopy f log.old.entries a → IsDeclaredCopy f log.old.entries b
            → OnOk result (ReadDeclaredCopies f log.new.entries) }
        ensures named { IfOk result (λ l. (v : ℕ) × (l ≡ positive v)
            × (name_of log.new.entries v ≡ Some (Term a b))) }
    {
        let key = (number(a), number(b));
        if let Some(l) = self.literals.get(&key) {
            return Ok(*l);
        }
        let v = oracle.new_var(Name::Term { left: a, right: b }, log)?;
        let gate = NewGate {
            variable: v,
            left: a,
            right: b,
        };
        give_clauses(&self.group, oracle, gate, log)?;
        let l = Lit::pos(v);
        self.literals.insert(key, l)?;
        Ok(l)
    }
}

// Gives the three clauses of a gate.
fn give_clauses<O: Oracle>(
    group: &Group,
    oracle: &mut O,
    gate: NewGate,
    log: &mut Log,
) -> Result<(), Memory>
    requires fit { O.Fits oracle.old log.old }
    requires made { IsMade log.old.entries group.now }
    requires from_one { 1 ≤ gate.variable }
    requires in_range { gate.variable < 2 ^ 62 }
    requires named { name_of log.old.entries gate.variable ≡ Some (Term gate.left gate.right) }
    requires sides { HasSides log.old.entries (Term gate.left gate.right) }
    requires few { HasFewFaults log.old.entries }
    requires none { (i : ℕ) (c : List Literal)
        → Contains log.old.entries (Given (TermGate gate.variable i) c) → ⊥ }
    ensures fit { O.Fits oracle.new log.new }
    ensures gives { (f : Dqbf)
        → Gives f (is_gate_of gate.variable) (group_variable group.now) log.old log.new }
    ensures given { OnOk result (HasTermClauses log.new.entries (group_variable group.now)
        gate.variable gate.left gate.right) }
{
    let v = gate.variable;
    oracle.add(group, &[Lit::neg(v), gate.left], part_of(v, 1), log)?;
    oracle.add(group, &[Lit::neg(v), gate.right], part_of(v, 2), log)?;
    oracle.add(
        group,
        &[Lit::pos(v), gate.left.not(), gate.right.not()],
        part_of(v, 3),
        log,
    )?;
    Ok(())
}

// The origin of a gate's clause.
fn part_of(variable: u64, part: u64) -> Origin
    ensures { result ≡ TermGate variable part }
{
    Origin::TermGate { variable, part }
}

// The number of a literal.
fn number(l: Lit) -> u64
    ensures { result ≡ literal_code l }
{
    if l.is_neg() {
        2 * l.var() + 1
    } else {
        2 * l.var()
    }
}
