//! The clauses of a group of faults: some clause of the matrix is false under the circuit's leaves.
//!
//! A clause with a literal that is true whatever the values are gets this literal's fault alone: it
//! says that the clause is never false.

ghost use Rattle.std.specs.Prelude.{◌≡◌, ◌≤◌, ◌<◌, ◌+◌, ◌∷◌, ◌⊎◌, ℕ, true, false, not, List, length, slice_get, slice_index_or, [], IfOk, IfSome, OnOk, OnErr, Some, Contains};
ghost use Rattle.dq_lits.specs.Formula.{Dqbf, declared};
ghost use Rattle.std.specs.Option.{option_map};
ghost use Rattle.dq_lits.specs.Literal.{Literal, negative, is_negative, variable_of};
ghost use Rattle.dq_lits.specs.Row.{bit_of};
ghost use Rattle.hint_log.specs.Entries.{Entry};
ghost use Rattle.hint_log.specs.Entries.{Given};
ghost use Rattle.hint_log.specs.declared.names.Name.TheVariants.{Bad};
ghost use Rattle.hint_log.specs.declared.origins.Leaf.{Leaf as OriginLeaf};
ghost use Rattle.hint_log.specs.declared.origins.Origin.TheVariants.{Fault};
ghost use Rattle.hint_log.specs.Entries.{name_of, rounds_of, with_entry};
ghost use Rattle.hint_log.specs.Growth.{Grew};
ghost use Rattle.hint_log.specs.Origins.{leaf_with_sign, matrix_literal, IsLeafOf};
ghost use Rattle.hint_log.specs.ProductiveLog.{fault_groups, fault_room};
ghost use Rattle.log_laws.specs.Engines.{circuits, IsAddedBy};
ghost use Rattle.circuit_cnf.specs.Faults.{AreBads, AreChosenGiven, AreSaid, HasFault, HaveChosenFaults, HaveFaults, IsBadAt, IsFaulted, IsNamingBads};
ghost use Rattle.circuit_cnf.specs.Saying.{HasNoBads, MaySay, given_after, given_before, leaf_in, selector_in};

use dq_formula::Formula;
use dq_lits::{Lit, Memory, Row};
use hint_log::{Leaf, Log, Name, Origin};
use oracle::{Group, Oracle};
use std::alloc::Global;

/// What a group is to say: which clauses are false under the leaves of the variables, and that one
/// is. A universal's leaf is its input, and an existential's its output.
#[derive(Drop)]
pub(crate) struct Faults<'g, 'f, 'l> {
    pub group: &'g Group,
    pub f: &'f Formula,
    pub inputs: &'l [Lit],
    pub outputs: &'l [Leaf],
}

/// The clauses whose marks, a bit for each clause, are set, or the others.
#[derive(Drop)]
pub(crate) struct ClauseSelection<'m> {
    pub marks: &'m Row,
    pub are_set: bool,
}

/// A literal of the matrix, by the numbers of its clause and of its place there, both from 1 on,
/// and the leaf of its variable.
#[derive(Clone, Copy)]
pub(crate) struct Occurrence {
    pub clause: u64,
    pub place: u64,
    pub literal: Lit,
    pub leaf: Leaf,
}

impl<'g, 'f, 'l> Faults<'g, 'f, 'l> {
    /// Gives the faults of a part of the clauses, those of the marked ones first or then those of the
    /// others, and that some clause is false: again, where an earlier part was given, so that a search
    /// begins with the clauses one by one.
    pub(crate) fn say<O: Oracle>(
        &self,
        oracle: &mut O,
        bads: &[Lit],
        part: &ClauseSelection,
        log: &mut Log,
    ) -> Result<(), Memory>
        requires fit { O.Fits oracle.old log.old }
        requires may { MaySay self.now log.old.entries }
        requires bads { AreBads self.now.f.now (selector_in self.now) bads.now log.old.entries }
        requires a_bit_a_clause { length part.now.marks.now ≡ length self.now.f.now.matrix }
        requires before { HaveChosenFaults self.now.f.now (selector_in self.now) bads.now
            (leaf_in self.now) (given_before part.now) log.old.entries }
        ensures fit { O.Fits oracle.new log.new }
        ensures said { AreSaid self.now.f.now (selector_in self.now) (leaf_in self.now) log.old
            log.new }
        ensures given { OnOk result (AreChosenGiven self.now.f.now (selector_in self.now)
            (leaf_in self.now) bads.now (given_after part.now) log.new.entries) }
    {
        self.part_faults(oracle, bads, part, log)?;
        self.some_fault(oracle, bads, log)?;
        Ok(())
    }

    /// Names a variable for each clause, which says that the clause is false in the group.
    pub(crate) fn name_bads<O: Oracle>(
        &self,
        alloc: Global,
        oracle: &mut O,
        log: &mut Log,
    ) -> Result<Vec<Lit>, Memory>
        requires fit { O.Fits oracle.old log.old }
        requires fresh { HasNoBads (selector_in self.now) log.old.entries }
        ensures fit { O.Fits oracle.new log.new }
        ensures grew { (h : Dqbf) (standing : ℕ) (start : List Entry)
            → Grew (IsAddedBy h circuits standing true start) log.old log.new }
        ensures faults { fault_groups log.new.entries ≡ fault_groups log.old.entries }
        ensures alone { IsNamingBads (selector_in self.now) log.old.entries log.new.entries }
        ensures named { IfOk result (λ bads.
            AreBads self.now.f.now (selector_in self.now) bads.items log.new.entries) }
    {
        let mut bads = Vec::new(alloc);
        for j in 0..self.f.clauses() {
            let name = Name::Bad {
                group: self.group.selector().var(),
                clause: j as u64 + 1,
            };
            let v = oracle.new_var(name, log)?;
            bads.push(Lit::pos(v))?;
        }
        Ok(bads)
    }

    // Gives the faults of a part of the clauses.
    fn part_faults<O: Oracle>(
        &self,
        oracle: &mut O,
        bads: &[Lit],
        part: &ClauseSelection,
        log: &mut Log,
    ) -> Result<(), Memory>
        requires fit { O.Fits oracle.old log.old }
        requires may { MaySay self.now log.old.entries }
        requires bad_count { length bads.now ≡ length self.now.f.now.matrix }
        requires bads { (j : ℕ) → j < length self.now.f.now.matrix
            → IsBadAt (selector_in self.now) j bads.now log.old.entries }
        requires a_bit_a_clause { length part.now.marks.now ≡ length self.now.f.now.matrix }
        requires before { HaveChosenFaults self.now.f.now (selector_in self.now) bads.now
            (leaf_in self.now) (given_before part.now) log.old.entries }
        ensures fit { O.Fits oracle.new log.new }
        ensures said { AreSaid self.now.f.now (selector_in self.now) (leaf_in self.now) log.old
            log.new }
        ensures given { OnOk result (HaveChosenFaults self.now.f.now (selector_in self.now)
            bads.now (leaf_in self.now) (given_after part.now) log.new.entries) }
    {
        for j in 0..self.f.clauses() {
            self.part_fault(oracle, bads[j], part, j, log)?;
        }
        Ok(())
    }

    // Gives the faults of a clause, by its number from 0 on, if it is of the part.
    fn part_fault<O: Oracle>(
        &self,
        oracle: &mut O,
        bad: Lit,
        part: &ClauseSelection,
        j: usize,
        log: &mut Log,
    ) -> Result<(), Memory>
        requires fit { O.Fits oracle.old log.old }
        requires may { MaySay self.now log.old.entries }
        requires clause { j < length self.now.f.now.matrix }
        requires a_bit_a_clause { length part.now.marks.now ≡ length self.now.f.now.matrix }
        requires bad { name_of log.old.entries (variable_of bad)
            ≡ Some (Bad (selector_in self.now) (j + 1)) }
        requires positive { is_negative bad ≡ false }
        ensures fit { O.Fits oracle.new log.new }
        ensures said { AreSaid self.now.f.now (selector_in self.now) (leaf_in self.now) log.old
            log.new }
        ensures given { OnOk result (bit_of part.now.marks.now j ≡ part.now.are_set
            → IsFaulted self.now.f.now (selector_in self.now) (variable_of bad) (j + 1)
            (leaf_in self.now) (slice_index_or self.now.f.now.matrix j []) log.new.entries) }
    {
        if part.marks.get(j) != part.are_set {
            return Ok(());
        }
        self.clause_faults(oracle, bad, j, log)
    }

    // Gives the faults of a clause, by its number from 0 on: that of a literal alone that is true
    // whatever the values are, if there is one.
    fn clause_faults<O: Oracle>(
        &self,
        oracle: &mut O,
        bad: Lit,
        j: usize,
        log: &mut Log,
    ) -> Result<(), Memory>
        requires fit { O.Fits oracle.old log.old }
        requires may { MaySay self.now log.old.entries }
        requires clause { j < length self.now.f.now.matrix }
        requires bad { name_of log.old.entries (variable_of bad)
            ≡ Some (Bad (selector_in self.now) (j + 1)) }
        requires positive { is_negative bad ≡ false }
        ensures fit { O.Fits oracle.new log.new }
        ensures said { AreSaid self.now.f.now (selector_in self.now) (leaf_in self.now) log.old
            log.new }
        ensures given { OnOk result (IsFaulted self.now.f.now (selector_in self.now)
            (variable_of bad) (j + 1) (leaf_in self.now) (slice_index_or self.now.f.now.matrix j [])
            log.new.entries) }
    {
        self.f.every_formula_is_lawful();
        let clause = self.f.clause(j);
        let Some(i) = self.true_place(clause) else {
            return self.literal_faults(oracle, bad, j, log);
        };
        let occurrence = Occurrence {
            clause: j as u64 + 1,
            place: i as u64 + 1,
            literal: clause[i],
            leaf: self.leaf(clause[i].var()),
        };
        self.give_fault(oracle, bad, occurrence, log)
    }

    // The place of a literal that is true under its leaf whatever the values are.
    fn true_place(&self, clause: &[Lit]) -> Option<usize>
        requires input_count { length self.now.inputs.now ≡ length self.now.f.now.universals }
        requires output_count { length self.now.outputs.now ≡ length self.now.f.now.existentials }
        ensures { IfSome result (λ i. (l : Literal) × (slice_get clause.now i ≡ Some l)
            × (leaf_with_sign (not (is_negative l)) (leaf_in self.now (variable_of l))
            ≡ OriginLeaf.Constant false)) }
    {
        for i in 0..clause.len() {
            if self.is_true(clause[i]) {
                return Some(i);
            }
        }
        None
    }

    fn is_true(&self, l: Lit) -> bool
        requires input_count { length self.now.inputs.now ≡ length self.now.f.now.universals }
        requires output_count { length self.now.outputs.now ≡ length self.now.f.now.existentials }
        ensures { result ≡ true → leaf_with_sign (not (is_negative l))
            (leaf_in self.now (variable_of l)) ≡ OriginLeaf.Constant false }
    {
        match signed_leaf(&self.leaf(l.var()), !l.is_neg()) {
            Leaf::Constant(b) => !b,
            Leaf::Literal(_) => false,
        }
    }

    // Gives the faults of all literals of a clause.
    fn literal_faults<O: Oracle>(
        &self,
        oracle: &mut O,
        bad: Lit,
        j: usize,
        log: &mut Log,
    ) -> Result<(), Memory>
        requires fit { O.Fits oracle.old log.old }
        requires may { MaySay self.now log.old.entries }
        requires clause { j < length self.now.f.now.matrix }
        requires bad { name_of log.old.entries (variable_of bad)
            ≡ Some (Bad (selector_in self.now) (j + 1)) }
        requires positive { is_negative bad ≡ false }
        ensures fit { O.Fits oracle.new log.new }
        ensures said { AreSaid self.now.f.now (selector_in self.now) (leaf_in self.now) log.old
            log.new }
        ensures given { OnOk result (HaveFaults self.now.f.now (selector_in self.now)
            (variable_of bad) (j + 1) (leaf_in self.now) (slice_index_or self.now.f.now.matrix j [])
            (length (slice_index_or self.now.f.now.matrix j [])) log.new.entries) }
    {
        self.f.every_formula_is_lawful();
        let clause = self.f.clause(j);
        for i in 0..clause.len() {
            let occurrence = Occurrence {
                clause: j as u64 + 1,
                place: i as u64 + 1,
                literal: clause[i],
                leaf: self.leaf(clause[i].var()),
            };
            self.give_fault(oracle, bad, occurrence, log)?;
        }
        Ok(())
    }

    // The leaf of a variable that is declared.
    fn leaf(&self, v: u64) -> Leaf
        requires input_count { length self.now.inputs.now ≡ length self.now.f.now.universals }
        requires output_count { length self.now.outputs.now ≡ length self.now.f.now.existentials }
        ensures { result ≡ leaf_in self.now v }
    {
        match (self.f.universal_place(v), self.f.existential_place(v)) {
            (Some(i), _) => Leaf::Literal(self.inputs[i]),
            (None, Some(k)) => self.outputs[k],
            (None, None) => Leaf::Constant(false),
        }
    }

    // Gives the fault of a literal of a clause, unless it is true anyway.
    fn give_fault<O: Oracle>(
        &self,
        oracle: &mut O,
        bad: Lit,
        at: Occurrence,
        log: &mut Log,
    ) -> Result<(), Memory>
        requires fit { O.Fits oracle.old log.old }
        requires may { MaySay self.now log.old.entries }
        requires clause_from_one { 1 ≤ at.clause }
        requires literal { matrix_literal self.now.f.now at.clause at.place ≡ Some at.literal }
        requires declared { Contains (declared self.now.f.now) (variable_of at.literal) }
        requires leaf { at.leaf ≡ leaf_in self.now (variable_of at.literal) }
        requires bad { name_of log.old.entries (variable_of bad)
            ≡ Some (Bad (selector_in self.now) at.clause) }
        requires positive { is_negative bad ≡ false }
        ensures fit { O.Fits oracle.new log.new }
        ensures said { AreSaid self.now.f.now (selector_in self.now) (leaf_in self.now) log.old
            log.new }
        ensures given { OnOk result (HasFault (selector_in self.now) (variable_of bad)
            at.clause at.place at.literal at.leaf log.new.entries) }
    {
        match signed_leaf(&at.leaf, !at.literal.is_neg()) {
            Leaf::Constant(true) => Ok(()),
            Leaf::Constant(false) => {
                let origin = fault(at.clause, at.place, &at.leaf);
                oracle.add(self.group, &[bad.not()], origin, log)?;
                Ok(())
            }
            Leaf::Literal(l) => {
                let origin = fault(at.clause, at.place, &at.leaf);
                oracle.add(self.group, &[bad.not(), l], origin, log)?;
                Ok(())
            }
        }
    }

    // Gives the clause that some clause is false.
    fn some_fault<O: Oracle>(
        &self,
        oracle: &mut O,
        bads: &[Lit],
        log: &mut Log,
    ) -> Result<(), Memory>
        requires fit { O.Fits oracle.old log.old }
        requires may { MaySay self.now log.old.entries }
        requires bads { AreBads self.now.f.now (selector_in self.now) bads.now log.old.entries }
        ensures fit { O.Fits oracle.new log.new }
        ensures said { AreSaid self.now.f.now (selector_in self.now) (leaf_in self.now) log.old
            log.new }
        ensures ok { OnOk result (log.new ≡ with_entry log.old (Given
            (Fault 0 0 (OriginLeaf.Constant false)) (negative (selector_in self.now) ∷ bads.now))) }
    {
        let output = Leaf::Constant(false);
        oracle.add(self.group, bads, fault(0, 0, &output), log)?;
        Ok(())
    }
}

fn fault(clause: u64, place: u64, output: &Leaf) -> Origin
    ensures { result ≡ Fault clause place output.now }
{
    Origin::Fault {
        clause,
        place,
        output: *output,
    }
}

fn signed_leaf(leaf: &Leaf, negated: bool) -> Leaf
    ensures { result ≡ leaf_with_sign negated leaf.now }
{
    match *leaf {
        Leaf::Constant(b) => Leaf::Constant(b != negated),
        Leaf::Literal(l) => Leaf::Literal(if negated { l.not() } else { l }),
    }
}
