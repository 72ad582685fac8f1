//! Clauses by which the first copy of an existential and an output over first copies differ.

ghost use Rattle.std.specs.Prelude.{◌≡◌, ℕ, IfOk, OnOk, OnErr};
ghost use Rattle.dq_lits.specs.Formula.{Dqbf};
ghost use Rattle.dq_lits.specs.Literal.{variable_of};
ghost use Rattle.hint_log.specs.declared.origins.Origin.TheVariants.{Differ};
ghost use Rattle.oracle.specs.Calls.{IsMade};
ghost use Rattle.definability.specs.Copies.{group_variable};
ghost use Rattle.definability.specs.Growing.{HasFewFaults};
ghost use Rattle.definition_proofs.specs.Differing.{part_number, differing, IsPut, IsDifference, IsDifferenceGiven, IsExistential, AreUndiffered, HasDifference, AreDiffering};
ghost use Rattle.definition_proofs.specs.Terms.{GrewByProof};

use crate::leaves::signed;
use dq_lits::{Lit, Memory};
use hint_log::{Leaf, Log, Origin};
use oracle::{Group, Oracle};

/// An existential with its first copy, and an output over first copies.
#[derive(Clone, Copy)]
pub(crate) struct Difference {
    pub existential: u64,
    pub copy: Lit,
    pub output: Leaf,
}

impl Difference {
    /// Gives the clauses by which the copy and the output differ to a new group.
    pub(crate) fn give<O: Oracle>(&self, oracle: &mut O, log: &mut Log) -> Result<Group, Memory>
        requires fit { O.Fits oracle.old log.old }
        requires difference { IsDifference log.old.entries self.now }
        requires few { HasFewFaults log.old.entries }
        requires none { AreUndiffered self.now.existential log.old.entries }
        ensures fit { O.Fits oracle.new log.new }
        ensures grew { (f : Dqbf) (standing : ℕ) → IsExistential f self.now.existential
            → GrewByProof f standing self.now.existential log.old log.new }
        ensures given { IfOk result (IsDifferenceGiven self.now log.old log.new) }
    {
        let who = oracle.tenant()?;
        let group = oracle.group(&who, log)?;
        self.give_parts(oracle, &group, log)?;
        Ok(group)
    }

    // Gives both clauses.
    fn give_parts<O: Oracle>(
        &self,
        oracle: &mut O,
        group: &Group,
        log: &mut Log,
    ) -> Result<(), Memory>
        requires fit { O.Fits oracle.old log.old }
        requires made { IsMade log.old.entries group.now }
        requires difference { IsDifference log.old.entries self.now }
        requires few { HasFewFaults log.old.entries }
        requires none { AreUndiffered self.now.existential log.old.entries }
        ensures fit { O.Fits oracle.new log.new }
        ensures differing { AreDiffering (group_variable group.now) self.now log.old log.new }
        ensures given { OnOk result
            (HasDifference log.new.entries (group_variable group.now) self.now) }
    {
        self.give_part(oracle, group, false, log)?;
        self.give_part(oracle, group, true, log)?;
        Ok(())
    }

    // Gives a clause: that not both are false, or that not both are true. A constant output makes
    // one of these true, which is left out.
    fn give_part<O: Oracle>(
        &self,
        oracle: &mut O,
        group: &Group,
        second: bool,
        log: &mut Log,
    ) -> Result<(), Memory>
        requires fit { O.Fits oracle.old log.old }
        requires made { IsMade log.old.entries group.now }
        requires difference { IsDifference log.old.entries self.now }
        ensures fit { O.Fits oracle.new log.new }
        ensures put { OnOk result (IsPut log.old log.new
            (Differ self.now.existential self.now.output (part_number second))
            (group_variable group.now) (differing (variable_of self.now.copy) self.now.output second)) }
        ensures err { OnErr result (log.new ≡ log.old) }
    {
        let origin = Origin::Differ {
            existential: self.existential,
            output: self.output,
            part: number_of(second),
        };
        let own = signed(self.copy, second);
        match self.output {
            Leaf::Literal(l) => {
                oracle.add(group, &[own, signed(l, second)], origin, log)?;
            }
            Leaf::Constant(b) => {
                if b == second {
                    oracle.add(group, &[own], origin, log)?;
                }
            }
        }
        Ok(())
    }
}

// The number of a part.
fn number_of(second: bool) -> u64
    ensures { result ≡ part_number second }
{
    if second { 2 } else { 1 }
}
