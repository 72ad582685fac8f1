//! How a formula binds its variables, in one table.

ghost use Rattle.std.specs.Prelude.{◌≡◌, ◌≢◌, ◌⊎◌, ◌+◌, ◌<◌, ◌≤◌, ◌^◌, ℕ, [], length, replicate, slice_set, IfOk, OnOk};
ghost use Rattle.dq_formula.specs.Sets.{AreLeaders};
ghost use Rattle.refutation_checker.specs.RowTrees.{sees_of};
ghost use Rattle.refutation_checker.specs.Bindings.{set_at, binding_at, with_one_more, variable_at, AreBindings, AreAllBound, IsSetFor, IsWritten};
ghost use Rattle.refutation_checker.specs.declared.bindings.Binding.TheVariants.{Universal, Existential, Free};

use dq_formula::Formula;
use dq_lits::Memory;
use std::alloc::Global;

/// How a variable is bound.
#[derive(Clone, Copy)]
pub(crate) enum Binding {
    /// A universal, by its place in a row.
    Universal { place: u32 },
    /// An existential, by its dependency set and its place among those that have the set.
    Existential { set: u32, place: u32 },
    /// The table doesn't tell.
    Free,
}

/// A dependency set.
#[derive(Clone, Copy)]
pub(crate) struct DependencySet {
    /// An existential that has it.
    pub leader: u64,
    /// How many existentials have it.
    pub size: u64,
}

/// The bindings of a formula's variables. Dependency sets are numbered as they are declared, and
/// one set may have two numbers.
#[derive(Drop)]
pub(crate) struct Bindings {
    pub of: Vec<Binding>,
    pub sets: Vec<DependencySet>,
}

impl Bindings {
    pub(crate) fn new(alloc: Global, f: &Formula) -> Result<Bindings, Memory>
        ensures { IfOk result
            (λ bindings. AreAllBound f.now bindings.sets.items bindings.of.items) }
    {
        f.every_formula_is_lawful();
        let leaders = f.set_leaders(alloc)?;
        let mut bindings = Bindings {
            of: free_variables(alloc, f.vars() as usize + 1)?,
            sets: Vec::new(alloc),
        };
        bind_universals(f, &mut bindings.of);
        bindings.bind_existentials(f, &leaders)?;
        Ok(bindings)
    }

    /// How a variable is bound.
    pub(crate) fn get(&self, v: u64) -> Binding
        ensures { result ≡ binding_at self.now.of.items v }
    {
        match self.of.get(v as usize) {
            Some(binding) => *binding,
            None => Binding::Free,
        }
    }

    // Binds the existentials; each has the dependency set of its leader.
    fn bind_existentials(&mut self, f: &Formula, leaders: &[usize]) -> Result<(), Memory>
        requires leaders { AreLeaders f.now leaders.now }
        requires count { length self.old.of.items ≡ f.now.variables + 1 }
        requires bindings { AreBindings f.now self.old.sets.items self.old.of.items 0 }
        ensures { OnOk result (AreAllBound f.now self.new.sets.items self.new.of.items) }
    {
        f.every_formula_is_lawful();
        for (place, leader) in leaders.iter().enumerate() {
            let first = f.existentials()[*leader];
            self.bind(f, place, first)?;
        }
        Ok(())
    }

    // Binds the existential at a place, which has the dependency set of a leader. Those before it
    // are bound.
    fn bind(&mut self, f: &Formula, place: usize, leader: u64) -> Result<(), Memory>
        requires place { place < length f.now.existentials }
        requires leader { sees_of f.now leader ≡ sees_of f.now (variable_at f.now place) }
        requires count { length self.old.of.items ≡ f.now.variables + 1 }
        requires bindings { AreBindings f.now self.old.sets.items self.old.of.items place }
        ensures bindings { OnOk result
            (AreBindings f.now self.new.sets.items self.new.of.items (place + 1)) }
        ensures written { OnOk result
            (IsWritten self.old.of.items self.new.of.items (variable_at f.now place)) }
    {
        f.every_formula_is_lawful();
        let set = self.set_for(f, place, leader)?;
        self.join(set, f.existentials()[place]);
        Ok(())
    }

    // The dependency set of the existential at a place: the leader's, if that one is bound.
    fn set_for(&mut self, f: &Formula, place: usize, leader: u64) -> Result<usize, Memory>
        requires place { place < length f.now.existentials }
        requires leader { sees_of f.now leader ≡ sees_of f.now (variable_at f.now place) }
        requires bindings { AreBindings f.now self.old.sets.items self.old.of.items place }
        ensures set { IfOk result (IsSetFor f.now self.new.sets.items place) }
        ensures bindings { OnOk result
            (AreBindings f.now self.new.sets.items self.new.of.items (place + 1)) }
        ensures same { self.new.of.items ≡ self.old.of.items }
    {
        match self.get(leader) {
            Binding::Existential { set, .. } => Ok(set as usize),
            Binding::Universal { .. } | Binding::Free => self.add_set(f, place),
        }
    }

    // A set that no existential has yet, that of the existential at a place.
    fn add_set(&mut self, f: &Formula, place: usize) -> Result<usize, Memory>
        requires place { place < length f.now.existentials }
        requires bindings { AreBindings f.now self.old.sets.items self.old.of.items place }
        ensures set { IfOk result (IsSetFor f.now self.new.sets.items place) }
        ensures bindings { OnOk result
            (AreBindings f.now self.new.sets.items self.new.of.items (place + 1)) }
        ensures same { self.new.of.items ≡ self.old.of.items }
    {
        f.every_formula_is_lawful();
        let set = self.sets.len();
        self.sets.push(DependencySet {
            leader: f.existentials()[place],
            size: 0,
        })?;
        Ok(set)
    }

    // Binds an existential, as one more of a set.
    fn join(&mut self, set: usize, y: u64)
        requires set { set < length self.old.sets.items }
        requires variable { y < length self.old.of.items }
        requires few_sets { length self.old.sets.items < 2 ^ 31 }
        requires few { (set_at self.old.sets.items set).size < 2 ^ 31 }
        ensures of { self.new.of.items ≡ slice_set self.old.of.items y
            (Existential set (set_at self.old.sets.items set).size) }
        ensures sets { self.new.sets.items ≡ slice_set self.old.sets.items set
            (with_one_more (set_at self.old.sets.items set)) }
    {
        let joined = self.sets[set];
        self.of[y as usize] = Binding::Existential {
            set: set as u32,
            place: joined.size as u32,
        };
        self.sets[set] = DependencySet {
            leader: joined.leader,
            size: joined.size + 1,
        };
    }
}

fn free_variables(alloc: Global, count: usize) -> Result<Vec<Binding>, Memory>
    ensures { IfOk result (λ of. of.items ≡ replicate count Free) }
{
    Ok(vec![in alloc; Binding::Free; count]?)
}

// Binds the universals, where no variable is bound.
fn bind_universals(f: &Formula, of: &mut Vec<Binding>)
    requires { of.old.items ≡ replicate (f.now.variables + 1) Free }
    ensures count { length of.new.items ≡ f.now.variables + 1 }
    ensures bindings { AreBindings f.now [] of.new.items 0 }
{
    for x in f.universals() {
        bind_universal(f, of, *x);
    }
}

fn bind_universal(f: &Formula, of: &mut Vec<Binding>, x: u64)
    requires { AreBindings f.now [] of.old.items 0 }
    ensures count { length of.new.items ≡ length of.old.items }
    ensures bindings { AreBindings f.now [] of.new.items 0 }
{
    match f.universal_place(x) {
        Some(place) => put_universal(of, x as usize, place),
        None => {}
    }
}

// Binds a variable as the universal at a place, if the table holds both.
fn put_universal(of: &mut Vec<Binding>, x: usize, place: usize)
    ensures count { length of.new.items ≡ length of.old.items }
    ensures others { (v : ℕ) → v ≢ x → binding_at of.new.items v ≡ binding_at of.old.items v }
    ensures here { (binding_at of.new.items x ≡ Universal place)
        ⊎ (binding_at of.new.items x ≡ binding_at of.old.items x) }
{
    if x < of.len() && place <= u32::MAX as usize {
        of[x] = Binding::Universal {
            place: place as u32,
        };
    }
}
