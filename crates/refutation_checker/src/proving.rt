//! Refutations that are judged as their items come.
//!
//! An instance is made once for each hint, into one buffer. A pair without a name stands for a
//! number behind all names; that a line's fault doesn't depend on names is a law of rup_core. Marks
//! grow between lines, where none is set. Formula and rows are handed in with each item, so that
//! whoever owns them may own this too.

ghost use Rattle.std.specs.Prelude.{◌≡◌, Bool, false, List, [], is_some, length, None, IfOk, OnOk};
ghost use Rattle.dq_lits.specs.Expansion.{instance_at};
ghost use Rattle.dq_lits.specs.Formula.{Dqbf};
ghost use Rattle.cert_text.specs.Grammar.{IsItem};
ghost use Rattle.cert_text.specs.Items.{item_seen};
ghost use Rattle.cert_text.specs.Numbering.{Numbering, behind_item, numbered_from};
ghost use Rattle.cert_text.specs.Pairs.{is_pair_number};
ghost use Rattle.cert_text.specs.Scan.{first_id};
ghost use Rattle.cert_text.specs.Steps.{step_seen};
ghost use Rattle.rup_core.specs.Items.{derived};
ghost use Rattle.rup_core.specs.ProofVerdict.{proof_fault_in};
ghost use Rattle.rup_core.specs.Runs.{Run, run_fault, start, with_item};
ghost use Rattle.refutation_checker.specs.PairNames.{AreNames, IsFrame};
ghost use Rattle.refutation_checker.specs.Proving.{frame_by, AreRows, IsJudging, MayJudge};
ghost use Rattle.refutation_checker.specs.Refutation.{normal_item};

use crate::bindings::Bindings;
use crate::judging::Judging;
use crate::pair_names::Expansion;
use cert_text::{Item, Step};
use dq_formula::Formula;
use dq_lits::{Memory, Row};
use rup_core::ProofFault;
use std::alloc::Global;

/// A refutation that is judged as its items come. It borrows neither the formula nor the rows, which
/// are handed in with each item.
///
/// It keeps the lines that are live, and the names of the pairs that occurred.
#[derive(Drop)]
pub struct RefutationProving {
    pub(crate) bindings: Bindings,
    pub(crate) judging: Judging,
}

impl RefutationProving {
    /// Before the first item of a refutation with these rows.
    pub fn new(alloc: Global, f: &Formula, rows: &[Row]) -> Result<RefutationProving, Memory>
        requires { AreRows f.now rows.now }
        ensures { IfOk result (λ p. IsJudging f.now rows.now p
            (numbered_from (first_id f.now (length rows.now)))
            (start (instance_at f.now rows.now))) }
    {
        f.every_formula_is_lawful();
        let bindings = Bindings::new(alloc, f)?;
        let judging = begin(alloc, f, rows, &bindings)?;
        Ok(RefutationProving { bindings, judging })
    }

    /// Judges the next item, for the formula and the rows that the refutation was begun with. Behind a
    /// line that isn't derived nothing changes any more. Where memory wants, the item isn't judged.
    pub fn item(&mut self, f: &Formula, rows: &[Row], item: Item) -> Result<(), Memory>
        requires { MayJudge f.now rows.now self.old (item_seen item) }
        ensures { OnOk result ((at : Numbering) (run : Run) → IsJudging f.now rows.now self.old at run
            → IsItem (is_pair_number f.now (length rows.now)) at (item_seen item.entry)
            → IsJudging f.now rows.now self.new (behind_item at (item_seen item.entry))
            (with_item run (normal_item f.now rows.now (item_seen item.entry)))) }
    {
        if self.is_settled() {
            return Ok(());
        }
        match item {
            Item::Line(step) => self.line(f, rows, step),
            Item::Gone(ids) => {
                self.judging.proving.gone(ids);
                Ok(())
            }
        }
    }

    // Judges a line, where those before it are derived.
    fn line(&mut self, f: &Formula, rows: &[Row], step: Step) -> Result<(), Memory>
        requires may { MayJudge f.now rows.now self.old (derived (step_seen step)) }
        requires going { self.old.judging.proving.fault ≡ None }
        ensures { OnOk result ((at : Numbering) (run : Run) → IsJudging f.now rows.now self.old at run
            → IsItem (is_pair_number f.now (length rows.now)) at (derived (step_seen step.entry))
            → IsJudging f.now rows.now self.new (behind_item at (derived (step_seen step.entry)))
            (with_item run (normal_item f.now rows.now (derived (step_seen step.entry))))) }
    {
        let e = Expansion {
            formula: f,
            rows,
            bindings: &self.bindings,
        };
        self.judging.judge(&e, step.id, step.lits, step.hints)
    }

    /// Whether a line wasn't derived, so that no further item changes what is said.
    pub fn is_settled(&self) -> bool
        ensures { result ≡ is_some self.now.judging.proving.fault }
    {
        self.judging.proving.underived().is_some()
    }

    /// What is wrong if no item comes any more.
    pub fn fault(&self) -> Option<ProofFault>
        ensures { (f : Dqbf) (rows : List (List Bool)) (at : Numbering) (run : Run)
            → IsJudging f rows self.now at run → proof_fault_in result ≡ run_fault run }
    {
        self.judging.proving.fault()
    }
}

// Nothing is judged.
fn begin(alloc: Global, f: &Formula, rows: &[Row], bindings: &Bindings) -> Result<Judging, Memory>
    requires { IsFrame (frame_by f.now rows.now bindings.now) }
    ensures names { IfOk result (λ j. AreNames (frame_by f.now rows.now bindings.now) j.names) }
    ensures proving { IfOk result (λ j. (j.proving.lines ≡ []) × (j.proving.fault ≡ None)
        × (j.proving.finished ≡ false)) }
{
    let e = Expansion {
        formula: f,
        rows,
        bindings,
    };
    Judging::new(alloc, &e)
}
