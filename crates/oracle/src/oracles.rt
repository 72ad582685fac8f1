//! The trait of a solver that several tenants share.

ghost use Rattle.std.specs.Prelude.{◌≡◌, ◌≤◌, ◌<◌, ◌^◌, ◌∷◌, ℕ, Bool, true, false, List, Some, None, IsSome, Ok, Err, IfOk, OnOk, OnErr};
ghost use Rattle.std.specs.List.{All};
ghost use Rattle.dq_lits.specs.Literal.{Literal, Assignment, variable_of, opposite};
ghost use Rattle.dq_lits.specs.Derivation.{is_tautology};
ghost use Rattle.hint_log.specs.Entries.{Named, Given, Round, Begun};
ghost use Rattle.hint_log.specs.declared.names.Name.TheVariants.{Selector};
ghost use Rattle.hint_log.specs.Conditions.{HasSides};
ghost use Rattle.hint_log.specs.Entries.{ProofLog, with_entry, last_id, clause_at, name_of};
ghost use Rattle.hint_log.specs.Growth.{Grew};
ghost use Rattle.hint_log.specs.Naming.{is_selector_name};
ghost use Rattle.oracle.specs.Calls.{IsMade, IsPlain, assumed, IsLearnedEntry, IsModelUnder, IsRefutedUnder};
ghost use Rattle.oracle.specs.Limits.{IsAtLimit};
ghost use Rattle.oracle.specs.Searched.{IsSearched};

use crate::groups::{Group, Tenant};
use dq_lits::{Lit, Memory};
use hint_log::{Log, Name, Origin, Stop};

/// What a search found.
#[derive(Clone, Copy, PartialEq, Eq)]
pub enum Answer {
    /// Values that make the active groups' clauses and the assumptions true.
    Sat,
    /// There are none; the logged answer of this id shows it.
    Unsat(u64),
}

/// A solver that several tenants share. It goes with one log, to which it adds what it learns;
/// where it is handed that log, it has to fit, and fits again afterwards, whatever the answer is.
pub trait Oracle {
    /// The solver goes with the log: the clauses held are the log's, and the variables those that
    /// it names.
    ghost Fits: { Self → ProofLog → Type 0 };

    /// The variable was made here.
    ghost HasVariable: { Self → ℕ → Type 0 };

    /// Whether the last search found values, and no call changed the solver since.
    ghost is_told: { Self → Bool };

    /// The values found.
    ghost values: { Self → Assignment };

    /// A token that makes groups.
    fn tenant(&mut self) -> Result<Tenant, Memory>
        ensures fit { (log : ProofLog) → Fits self.old log → Fits self.new log }
        ensures err_self { OnErr result (self.new ≡ self.old) }
        ensures told { is_told self.new ≡ is_told self.old }
        ensures values { (v : ℕ) → values self.new v ≡ values self.old v };

    /// Variables that the next search may decide before all others, each with the value that it had
    /// in the last values found. Which values are found may change by it, and what is learned on
    /// the way: nothing is promised.
    fn focus(&mut self, variables: &[u64]) -> Result<(), Memory>
        ensures fit { (log : ProofLog) → Fits self.old log → Fits self.new log }
        ensures told { is_told self.new ≡ is_told self.old }
        ensures values { (v : ℕ) → values self.new v ≡ values self.old v };

    /// A variable of its own, with a name that no variable has and that isn't a selector's.
    fn new_var(&mut self, name: Name, log: &mut Log) -> Result<u64, Memory>
        requires fit { Fits self.old log.old }
        requires plain { is_selector_name (Some name) ≡ false }
        requires fresh { (v : ℕ) → name_of log.old.entries v ≡ Some name → ⊥ }
        requires sides { HasSides log.old.entries name }
        ensures fit { Fits self.new log.new }
        ensures unnamed { IfOk result (λ v. name_of log.old.entries v ≡ None) }
        ensures in_range { IfOk result (λ v. (1 ≤ v) × (v < 2 ^ 62)) }
        ensures ok { IfOk result (λ v. log.new ≡ with_entry log.old (Named v name)) }
        ensures err { OnErr result (log.new ≡ log.old) }
        ensures err_self { OnErr result (self.new ≡ self.old) };

    /// A group of the tenant's own, without clauses: no group had its selector before.
    fn group(&mut self, who: &Tenant, log: &mut Log) -> Result<Group, Memory>
        requires fit { Fits self.old log.old }
        ensures fit { Fits self.new log.new }
        ensures unnamed { IfOk result
            (λ g. name_of log.old.entries (variable_of g.selector) ≡ None) }
        ensures made { IfOk result (λ g. IsMade log.new.entries g) }
        ensures ok { IfOk result
            (λ g. log.new
            ≡ with_entry log.old
            (Named (variable_of g.selector) (Selector (variable_of g.selector)))) }
        ensures err { OnErr result (log.new ≡ log.old) }
        ensures err_self { OnErr result (self.new ≡ self.old) };

    /// Holds a clause of a group: its negated selector, and then these literals. Answers the
    /// clause's id.
    fn add(&mut self, g: &Group, lits: &[Lit], origin: Origin, log: &mut Log) -> Result<u64, Memory>
        requires fit { Fits self.old log.old }
        requires made { IsMade log.old.entries g.now }
        requires plain { All (IsPlain log.old.entries) lits.now }
        ensures fit { Fits self.new log.new }
        ensures ok { OnOk result
            (log.new ≡ with_entry log.old (Given origin (opposite g.now.selector ∷ lits.now))) }
        ensures id { IfOk result (λ id. id ≡ last_id log.new.entries) }
        ensures err { OnErr result (log.new ≡ log.old) }
        ensures err_self { OnErr result (self.new ≡ self.old) };

    /// Searches for values that make the clauses of the active groups and the assumptions true. It
    /// stops for want of memory, or at the log's limit: with a clause in hand that was to be
    /// learned next, and not before it looked. A further search is lawful then.
    fn solve(&mut self, active: &[Group], assume: &[Lit], log: &mut Log) -> Result<Answer, Stop>
        requires fit { Fits self.old log.old }
        requires made { All (IsMade log.old.entries) active.now }
        requires plain { All (IsPlain log.old.entries) assume.now }
        requires apart { is_tautology assume.now ≡ false }
        ensures fit { Fits self.new log.new }
        ensures told { result ≡ Ok Answer.Sat → is_told self.new ≡ true }
        ensures sat { result ≡ Ok Answer.Sat
            → Grew IsLearnedEntry log.old log.new
            × IsModelUnder (values self.new) (clause_at log.new.entries)
            (assumed active.now assume.now) }
        ensures unsat { (id : ℕ) → result ≡ Ok (Answer.Unsat id)
            → IsRefutedUnder log.old log.new (assumed active.now assume.now) id }
        ensures stop { OnErr result (Grew IsLearnedEntry log.old log.new) }
        ensures limit { result ≡ Err Stop.Limit
            → IsAtLimit log.new (assumed active.now assume.now) };

    /// The value of a variable that the last search found. It takes no memory.
    fn value(&self, v: u64) -> bool
        requires told { is_told self.now ≡ true }
        requires made { HasVariable self.now v }
        ensures { result ≡ values self.now v };

    /// What the solver keeps of its log.
    ghost searched: { (s : Self) (log : ProofLog) → Fits s log → IsSearched log.entries };

    /// The variables that have names were made here.
    ghost made: { (s : Self) (log : ProofLog) (v : ℕ) → Fits s log → IsSome (name_of log.entries v)
        → HasVariable s v };

    /// A round is none of the solver's business.
    ghost round: { (s : Self) (log : ProofLog) (row values : List Bool) (j : ℕ) → Fits s log
        → Fits s (with_entry log (Round row values j)) };

    /// Nor is how many steps the log may take.
    ghost limit: { (s : Self) (log : ProofLog) (limit : ℕ) → Fits s log
        → Fits s (record log { limit = limit }) };

    /// Nor is it when a search begins.
    ghost begun: { (s : Self) (log : ProofLog) (live : List ℕ) → Fits s log
        → Fits s (with_entry log (Begun live)) };
}
