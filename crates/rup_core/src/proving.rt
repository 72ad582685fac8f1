//! Proofs that are judged as their items come: lines, and ids that are deleted.
//!
//! A line is taken as its literals, its hinted clauses one by one, and its id, and no list of hints
//! is kept. Whether a proof ends on the empty clause is carried along, so that a proof without
//! lines and one that ends on another clause have one fault.

ghost use Rattle.std.specs.Prelude.{◌≡◌, ◌∷◌, ◌<◌, ◌≤◌, ℕ, [], false, not, All, Some, None, List, Option, map, max, IfOk, IfSome, IsOk, OnOk, OnErr};
ghost use Rattle.dq_lits.specs.Literal.{Literal};
ghost use Rattle.dq_lits.specs.Derivation.{LiveClauses};
ghost use Rattle.rup_core.specs.Extension.{seen, UnitIsFree, UnitStandsWithin};
ghost use Rattle.rup_core.specs.Range.{StandsWithin};
ghost use Rattle.rup_core.specs.Judging.{Hinted, derive_line, is_derived_by, is_faulty, no_line, refute_from, refute_next};
ghost use Rattle.rup_core.specs.Lines.{clause_of_id};
ghost use Rattle.rup_core.specs.Items.{is_among, derived, gone};
ghost use Rattle.rup_core.specs.ProofVerdict.{proof_fault_in};
ghost use Rattle.rup_core.specs.Proving.{ended, run_over, with_derived, with_lines, without_lines};
ghost use Rattle.rup_core.specs.Runs.{fault_so_far, with_item};
ghost use Rattle.std.specs.List.{filter};

use crate::bases::{Base, FewLiterals};
use crate::derivation::{assume_false, line_fault};
use crate::faults::ProofFault;
use crate::progress::{Progress, propagate};
use crate::statuses::{ClauseStatus, status_among};
use crate::stores::Store;
use crate::trails::Trail;
use dq_lits::{Lit, Memory};
use std::alloc::Global;
use std::marker::Model;

/// A proof that is judged as its items come, each line hint by hint.
///
/// A line's literals come first (`begin`), then the hinted clauses one by one (`hint` with the
/// clause of a base, `hint_line` with the id of a line), and then its id (`end`). So a base makes
/// each clause once, when it is hinted, and a clause's variables may get their numbers then.
#[derive(Drop)]
pub struct Proving {
    trail: Trail,
    progress: Progress,
    store: Store,
    finished: bool,
    underived: Option<u64>,
}

impl Model for Proving {
    ghost use Rattle.rup_core.specs.Proving.{ProofState};

    ghost Value = { ProofState };

    ghost use Rattle.rup_core.specs.ProvingInside.{state_in};

    ghost view = { state_in };
}

// How the hints stand with one more, whose clause stands so. Its literal becomes true.
fn advance(trail: &mut Trail, progress: Progress, status: ClauseStatus) -> Result<Progress, Memory>
    requires { UnitIsFree trail.old.trues (seen status) }
    ensures judged { IfOk result (λ next. (clauses : Hinted)
        → refute_from next trail.new.trues clauses
        ≡ refute_next progress (seen status) trail.old.trues clauses) }
    ensures variables { trail.new.variables ≡ trail.old.variables }
    ensures err { OnErr result (trail.new ≡ trail.old) }
    ensures marked { UnitStandsWithin trail.old.variables (seen status) → IsOk result }
{
    match progress {
        Progress::Going => propagate(trail, status),
        Progress::Refuted | Progress::Faulty => Ok(Progress::Faulty),
    }
}

// The clauses of a base, and the lines of a store.
#[derive(Drop)]
struct WithLines<'a, B> {
    base: &'a B,
    store: &'a Store,
}

impl<'a, B: Base> Base for WithLines<'a, B> {
    ghost clauses = { λ w. with_lines (B.clauses w.base.now) w.store.now };

    fn size(&self, id: u64) -> Option<usize> {
        match self.store.get(id) {
            Some(clause) => Some(clause.len()),
            None => self.base.size(id),
        }
    }

    fn lit(&self, id: u64, i: usize) -> Lit {
        match self.store.get(id) {
            Some(clause) => clause[i],
            None => self.base.lit(id, i),
        }
    }

    fn held(&self, id: u64) -> Option<&[Lit]> {
        match self.store.get(id) {
            Some(clause) => Some(clause),
            None => self.base.held(id),
        }
    }

    fn few(&self, id: u64) -> Option<FewLiterals> {
        match self.store.get(id) {
            Some(_) => None,
            None => self.base.few(id),
        }
    }
}

// Whether a line is derived from a base and the lines of a store.
fn is_derived<B: Base>(
    trail: &mut Trail,
    base: &B,
    store: &Store,
    lits: &[Lit],
    hints: &[u64],
) -> Result<bool, Memory>
    requires { trail.old.trues ≡ [] }
    ensures same { trail.new ≡ trail.old }
    ensures answer { IfOk result (λ is_derived. is_derived
        ≡ derive_line lits.now (map (with_lines (B.clauses base.now) store.now) hints.now)) }
{
    let fault = line_fault(trail, lits, hints, &WithLines { base, store });
    trail.clear();
    Ok(fault?.is_none())
}

// Takes the lines with these ids away.
fn forget(store: &mut Store, ids: &[u64])
    ensures { store.new ≡ filter (λ line. not (is_among ids.now line.0)) store.old }
{
    for id in ids {
        store.gone(*id);
    }
}

impl Proving {
    /// No item, with marks for the variables from 1 to `vars`.
    pub fn new(alloc: Global, vars: usize) -> Result<Proving, Memory>
        ensures { IfOk result (λ proving. proving ≡ record {
          finished = false;
          lines = [];
          fault = None;
          marks = vars;
          line = no_line;
        }) }
    {
        let trail = Trail::new(alloc, vars)?;
        Ok(Proving {
            trail,
            progress: Progress::Faulty,
            store: Store::new(alloc),
            finished: false,
            underived: None,
        })
    }

    /// Makes marks for the variables from 1 to `vars`, so that these take no memory any more. No
    /// line is being judged behind it.
    pub fn widen(&mut self, vars: usize) -> Result<(), Memory>
        ensures ok { OnOk result (self.new
            ≡ record self.old { marks = max self.old.marks vars; line = no_line }) }
        ensures err { OnErr result (self.new ≡ record self.old { line = no_line }) }
        ensures marked { vars ≤ self.old.marks → IsOk result }
    {
        self.rest();
        self.trail.widen(vars)
    }

    /// Begins a line with these literals. Of another one that was begun nothing is left.
    pub fn begin(&mut self, lits: &[Lit]) -> Result<(), Memory>
        ensures judged { OnOk result ((clauses : Hinted)
            → is_derived_by self.new.line clauses ≡ derive_line lits.now clauses) }
        ensures rest { self.new ≡ record self.old { line = self.new.line } }
        ensures marked { StandsWithin self.old.marks lits.now → IsOk result }
    {
        self.trail.clear();
        self.progress = Progress::Faulty;
        if assume_false(&mut self.trail, lits)? {
            self.progress = Progress::Going;
        }
        Ok(())
    }

    /// The line's next hint, by the literals of its clause.
    pub fn hint(&mut self, clause: &[Lit]) -> Result<(), Memory>
        ensures judged { OnOk result ((clauses : Hinted)
            → is_derived_by self.new.line clauses
            ≡ is_derived_by self.old.line (Some clause.now ∷ clauses)) }
        ensures rest { self.new ≡ record self.old { line = self.new.line } }
        ensures err { OnErr result (self.new ≡ self.old) }
        ensures marked { StandsWithin self.old.marks clause.now → IsOk result }
    {
        let status = status_among(clause, &self.trail);
        self.progress = advance(&mut self.trail, self.progress, status)?;
        Ok(())
    }

    /// The same, by the id of a line. Where no line has it, it is at fault.
    pub fn hint_line(&mut self, id: u64) -> Result<(), Memory>
        ensures judged { OnOk result ((clauses : Hinted)
            → is_derived_by self.new.line clauses
            ≡ is_derived_by self.old.line (clause_of_id self.old.lines id ∷ clauses)) }
        ensures rest { self.new ≡ record self.old { line = self.new.line } }
        ensures err { OnErr result (self.new ≡ self.old) }
        ensures marked { IfSome (clause_of_id self.old.lines id) (StandsWithin self.old.marks)
            → IsOk result }
    {
        let status = match self.store.get(id) {
            Some(clause) => status_among(clause, &self.trail),
            None => ClauseStatus::Stuck,
        };
        self.progress = advance(&mut self.trail, self.progress, status)?;
        Ok(())
    }

    /// Whether no further hint can make the line a derived one.
    pub fn is_faulty(&self) -> bool
        ensures { result ≡ is_faulty self.now.line }
    {
        matches!(self.progress, Progress::Faulty)
    }

    /// Ends the line with its id, which lies behind those of the lines before it; `lits` are its
    /// literals. A line that is derived is a clause from now on; one that isn't is the proof's
    /// fault, and behind it nothing changes any more.
    pub fn end(&mut self, id: u64, lits: &[Lit]) -> Result<(), Memory>
        requires from_one { 1 ≤ id }
        requires above { All (λ line. line.0 < id) self.old.lines }
        ensures ok { OnOk result
            (self.new ≡ ended (is_derived_by self.old.line []) id lits.now self.old) }
        ensures err { OnErr result (self.new ≡ self.old) }
        ensures underived { is_derived_by self.old.line [] ≡ false → IsOk result }
    {
        let is_derived = matches!(self.progress, Progress::Refuted);
        if self.underived.is_none() {
            self.add(is_derived, id, lits)?;
        }
        self.rest();
        Ok(())
    }

    /// Judges a whole line: `begin`, a hint for each id, and `end`. Hints are ids of lines or of a
    /// base's clauses. Where memory wants, the line isn't judged.
    pub fn line<B: Base>(
        &mut self,
        base: &B,
        id: u64,
        lits: &[Lit],
        hints: &[u64],
    ) -> Result<(), Memory>
        requires from_one { 1 ≤ id }
        requires above { All (λ line. line.0 < id) self.old.lines }
        ensures value { OnOk result (self.new ≡ ended (derive_line lits.now
            (map (with_lines (B.clauses base.now) self.old.lines) hints.now)) id lits.now
            self.old) }
        ensures run { OnOk result (run_over (B.clauses base.now) self.new
            ≡ with_item (run_over (B.clauses base.now) self.old)
            (derived (record { id = id; literals = lits.now; hints = hints.now }))) }
        ensures err { OnErr result (self.new ≡ record self.old { line = no_line }) }
    {
        self.rest();
        if self.underived.is_some() {
            return Ok(());
        }
        let is_derived = is_derived(&mut self.trail, base, &self.store, lits, hints)?;
        self.add(is_derived, id, lits)
    }

    // No line is being judged any more.
    fn rest(&mut self)
        ensures { self.new ≡ record self.old { line = no_line } }
    {
        self.trail.clear();
        self.progress = Progress::Faulty;
    }

    // Adds a line that was judged, where all before it are derived.
    #[inline(always)]
    fn add(&mut self, is_derived: bool, id: u64, lits: &[Lit]) -> Result<(), Memory>
        requires from_one { 1 ≤ id }
        requires above { All (λ line. line.0 < id) self.old.lines }
        requires going { self.old.fault ≡ None }
        ensures ok { OnOk result (self.new ≡ with_derived None is_derived id lits.now self.old) }
        ensures err { OnErr result (self.new ≡ self.old) }
        ensures underived { is_derived ≡ false → IsOk result }
    {
        if is_derived {
            self.store.put(id, lits)?;
            self.finished = lits.is_empty();
        } else {
            self.underived = Some(id);
        }
        Ok(())
    }

    /// Deletes lines: from now on no clause has one of these ids.
    pub fn gone(&mut self, ids: &[u64])
        ensures value { self.new ≡ without_lines self.old.fault ids.now self.old }
        ensures run { (live : LiveClauses) → All (λ id. live id ≡ None) ids.now
            → run_over live self.new ≡ with_item (run_over live self.old) (gone ids.now) }
    {
        let is_going = self.underived.is_none();
        if is_going {
            forget(&mut self.store, ids);
        }
    }

    /// The first line that isn't derived, by its id.
    pub fn underived(&self) -> Option<u64>
        ensures { result ≡ self.now.fault }
    {
        self.underived
    }

    /// What is wrong if no item comes any more.
    pub fn fault(&self) -> Option<ProofFault>
        ensures { proof_fault_in result ≡ fault_so_far self.now.fault self.now.finished }
    {
        match self.underived {
            Some(id) => Some(ProofFault::Underived(id)),
            None => {
                if self.finished {
                    None
                } else {
                    Some(ProofFault::Unfinished)
                }
            }
        }
    }
}
