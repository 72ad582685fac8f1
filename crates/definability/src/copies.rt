//! A copy of the matrix: its variables, and literals on them.

ghost use Rattle.std.specs.Prelude.{◌≡◌, [], ℕ, Bool, List, All, Contains, IfOk, OnOk, Some, false, length, slice_get, ◌<◌};
ghost use Rattle.dq_lits.specs.Literal.{variable_of, is_negative};
ghost use Rattle.dq_lits.specs.Formula.{declared};
ghost use Rattle.dq_formula.specs.Prefix.{existential_variables};
ghost use Rattle.hint_log.specs.Entries.{Entry};
ghost use Rattle.hint_log.specs.Naming.{named_literal, name_literal, AreNamedAs};
ghost use Rattle.hint_log.specs.declared.names.Name.TheVariants.{Copy as CopyOf};
ghost use Rattle.definability.specs.Copies.{AreCopies, AreCopiesOf, IsBlank, IsCopied, IsPut, copies_of, copy_names, is_copied_at};

use dq_formula::Formula;
use dq_lits::{Lit, Memory};
use oracle::Group;
use std::alloc::Global;

/// A copy of the matrix: the groups of its clauses, and the copies of the universals and of the
/// existentials, in order of declaration. At the place of a universal that has no copy stands any
/// literal.
#[derive(Drop)]
pub struct MatrixCopy {
    pub groups: Vec<Group>,
    pub(crate) universals: Vec<Lit>,
    pub(crate) existentials: Vec<Lit>,
}

impl MatrixCopy {
    /// The copy of the variable at a place, universals first, if it has one.
    pub fn copy_at(&self, place: usize) -> Lit
        requires { place < length (copies_of self.now) }
        ensures { slice_get (copies_of self.now) place ≡ Some result }
    {
        let universals = self.universals.len();
        if place < universals {
            self.universals[place]
        } else {
            self.existentials[place - universals]
        }
    }

    /// A copy without variables.
    pub(crate) fn new(alloc: Global) -> MatrixCopy
        ensures { result.groups.items ≡ [] }
    {
        MatrixCopy {
            groups: Vec::new(alloc),
            universals: Vec::new(alloc),
            existentials: Vec::new(alloc),
        }
    }

    /// Makes places for copies of a formula's variables, at which any literals stand.
    pub(crate) fn make_places(&mut self, alloc: Global, f: &Formula) -> Result<(), Memory>
        ensures { OnOk result (IsBlank f.now self.old self.new) }
    {
        f.every_formula_is_lawful();
        self.universals = any_literals(alloc, f.universals().len())?;
        self.existentials = any_literals(alloc, f.existentials().len())?;
        Ok(())
    }

    /// Puts the copy of the variable at a place, universals first.
    pub(crate) fn put(&mut self, place: usize, copy: Lit)
        requires { place < length (copies_of self.old) }
        ensures { IsPut place copy self.old self.new }
    {
        let universals = self.universals.len();
        if place < universals {
            self.universals[place] = copy;
        } else {
            self.existentials[place - universals] = copy;
        }
    }
}

// So many literals.
fn any_literals(alloc: Global, count: usize) -> Result<Vec<Lit>, Memory>
    ensures { IfOk result (λ lits. length lits.items ≡ count) }
{
    let mut lits = Vec::new(alloc);
    for _ in 0..count {
        lits.push(Lit::pos(1))?;
    }
    Ok(lits)
}

/// A variable with its copies, the first and the second.
#[derive(Clone, Copy)]
pub(crate) struct Twins {
    pub variable: u64,
    pub first: Lit,
    pub second: Lit,
}

/// Whether the variable at a place has copies, by the universals' flags.
pub(crate) fn is_copied(flags: &[bool], place: usize) -> bool
    ensures { result ≡ is_copied_at flags.now place }
{
    match flags.get(place) {
        Some(flag) => *flag,
        None => true,
    }
}

/// A clause of the matrix on the copies of its variables.
pub(crate) fn copied_clause(
    alloc: Global,
    copy: &MatrixCopy,
    f: &Formula,
    clause: &[Lit],
) -> Result<Vec<Lit>, Memory>
    requires bound { All (λ l. Contains (declared f.now) (variable_of l)) clause.now }
    requires universals { length copy.now.universals.items ≡ length f.now.universals }
    requires existentials { length copy.now.existentials.items ≡ length f.now.existentials }
    ensures { (entries : List Entry) (side : ℕ) (flags : List Bool)
        → AreCopies entries side flags f.now.universals copy.now.universals.items
        → AreCopiesOf entries side (existential_variables f.now) copy.now.existentials.items
        → All (λ l. IsCopied f.now flags (variable_of l)) clause.now
        → IfOk result (λ lits. AreNamedAs entries lits.items (copy_names side clause.now)) }
{
    let mut lits = Vec::new(alloc);
    for l in clause {
        lits.push(copied_literal(copy, f, *l))?;
    }
    Ok(lits)
}

// The copy of a literal.
fn copied_literal(copy: &MatrixCopy, f: &Formula, l: Lit) -> Lit
    requires bound { Contains (declared f.now) (variable_of l) }
    requires universals { length copy.now.universals.items ≡ length f.now.universals }
    requires existentials { length copy.now.existentials.items ≡ length f.now.existentials }
    ensures { (entries : List Entry) (side : ℕ) (flags : List Bool)
        → AreCopies entries side flags f.now.universals copy.now.universals.items
        → AreCopiesOf entries side (existential_variables f.now) copy.now.existentials.items
        → IsCopied f.now flags (variable_of l)
        → name_literal entries result
        ≡ Some (named_literal (CopyOf side (variable_of l)) (is_negative l)) }
{
    let variable = copied_variable(copy, f, l.var());
    if l.is_neg() { variable.not() } else { variable }
}

/// The copy of a variable, as a positive literal, if it has one.
pub fn copied_variable(copy: &MatrixCopy, f: &Formula, v: u64) -> Lit
    requires bound { Contains (declared f.now) v }
    requires universals { length copy.now.universals.items ≡ length f.now.universals }
    requires existentials { length copy.now.existentials.items ≡ length f.now.existentials }
    ensures { (entries : List Entry) (side : ℕ) (flags : List Bool)
        → AreCopies entries side flags f.now.universals copy.now.universals.items
        → AreCopiesOf entries side (existential_variables f.now) copy.now.existentials.items
        → IsCopied f.now flags v
        → name_literal entries result ≡ Some (named_literal (CopyOf side v) false) }
{
    match (f.universal_place(v), f.existential_place(v)) {
        (Some(i), _) => copy.universals[i],
        (None, Some(k)) => copy.existentials[k],
        (None, None) => unreachable!(),
    }
}
