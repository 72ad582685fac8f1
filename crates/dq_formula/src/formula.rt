//! A DQBF as a value, made a piece at a time.
//!
//! `Formula::new` takes no memory. What is declared at a text's end is put into a copy of the set,
//! which takes its place when all is there, so that a refused growth changes nothing.

ghost use Rattle.std.specs.Prelude.{◌≡◌, ◌≢◌, ◌+◌, ◌-◌, ◌==◌, ◌≤◌, ◌<◌, false, true, not, ◌&&◌, Some, None, [], ◌∷◌, ◌++◌, List, length, map, is_some, slice_get, slice_index, slice_index_or, filter, All, Contains, nat_eq, IsTrue, IsSome, IfSome, IfOk, OnOk, OnErr, position, ◌↔◌};
ghost use Rattle.std.specs.List.{AllPairs, position_or_len};
ghost use Rattle.std.specs.List.Sorted.{IsBinarySearchResult, IsSearchInRange};
ghost use Rattle.std.specs.Ordering.{nat_cmp};
ghost use Rattle.dq_lits.specs.Row.{bit_of};
ghost use Rattle.dq_lits.specs.Formula.{is_universal, existential_of};
ghost use Rattle.dq_lits.specs.Henkin.{restriction, same_bits};
ghost use Rattle.dq_lits.specs.Expansion.{row_assignment};
ghost use Rattle.dq_lits.specs.Literal.{Literal, variable_of};
ghost use Rattle.dq_formula.specs.Dependencies.{padded, dependencies, listed_universals, IsDependencySet};
ghost use Rattle.dq_formula.specs.Layout.{existential};
ghost use Rattle.dq_formula.specs.Xor.{xor_clauses};
ghost use Rattle.dq_formula.specs.Prefix.{IsLawful, AreUndeclaredIn, is_declared, existential_variables, free_variables, unseeing};

use crate::dependencies::{Deps, Vars};
use crate::existentials::Existentials;
use crate::matrix::Matrix;
use dq_lits::{Lit, Memory, Row};
use number_tables::NumberSet;
use std::alloc::Global;
use std::marker::Model;

/// The most variables that a formula may have.
pub const MAX_VARIABLES: u64 = 1_000_000;

/// The most literals that an XOR line may have.
pub const MAX_XOR: usize = 5;

/// The most clauses that a formula may have.
pub const MAX_CLAUSES: usize = 10_000_000;

/// A dependency quantified Boolean formula, as DQDIMACS (QDIMACS with `d` lines) writes it: the
/// prefix, which gives each existential its dependency set, and the matrix.
///
/// A call that adds something answers `Memory` where a growth was refused, and then has changed
/// nothing.
#[derive(Drop)]
pub struct Formula {
    vars: u64,
    universals: NumberSet,
    existentials: Existentials,
    matrix: Matrix,
}

impl Model for Formula {
    ghost use Rattle.dq_lits.specs.Formula.{Dqbf};

    ghost Value = { Dqbf };

    ghost use Rattle.dq_formula.specs.Layout.{formula_of, IsKept};

    ghost view = { λ f. formula_of f.vars f.universals f.existentials f.matrix };

    ghost invariant = { λ f. IsKept f.vars f.universals f.existentials f.matrix };
}

// The elements at these places.
fn picked(alloc: Global, xs: &[u64], places: &[usize]) -> Result<Vec<u64>, Memory>
    requires { All (λ p. p < length xs.now) places.now }
    ensures { IfOk result (λ vars. vars.items ≡ map (slice_index xs.now) places.now) }
{
    let mut vars = Vec::new(alloc);
    for place in places {
        vars.push(xs[*place])?;
    }
    Ok(vars)
}

impl Formula {
    /// The formula over the variables 1 to `vars` that declares none of them and has no clause.
    /// It takes no memory.
    pub fn new(alloc: Global, vars: u64) -> Formula
        requires { vars ≤ MAX_VARIABLES }
        ensures { result
            ≡ record { variables = vars; universals = []; existentials = []; matrix = [] } }
    {
        Formula {
            vars,
            universals: NumberSet::new(alloc),
            existentials: Existentials::new(alloc),
            matrix: Matrix::new(alloc),
        }
    }

    /// What holds of every formula. The call does nothing: its contract is for callers' proofs.
    pub fn every_formula_is_lawful(&self)
        ensures { IsLawful self.now }
    {
        // A look at a field shows the invariant.
        let _ = &self.vars;
    }

    /// How many variables there are; they have the numbers from 1 on.
    pub fn vars(&self) -> u64
        ensures value { result ≡ self.now.variables }
        ensures few { result ≤ MAX_VARIABLES }
    {
        self.vars
    }

    /// The universals, in order of declaration.
    pub fn universals(&self) -> &[u64]
        ensures { result.now ≡ self.now.universals }
    {
        self.universals.items()
    }

    /// The existentials, in order of declaration.
    pub fn existentials(&self) -> &[u64]
        ensures { result.now ≡ existential_variables self.now }
    {
        self.existentials.variables()
    }

    /// Whether a variable is declared as a universal.
    pub fn is_universal(&self, v: u64) -> bool
        ensures { result ≡ is_universal self.now v }
    {
        self.universals.contains(v)
    }

    /// Whether a variable is declared as an existential.
    pub fn is_existential(&self, v: u64) -> bool
        ensures { result ≡ is_some (existential_of self.now v) }
    {
        self.existentials.contains(v)
    }

    /// Whether a variable is declared.
    pub fn is_declared(&self, v: u64) -> bool
        ensures { result ≡ is_declared self.now v }
    {
        self.is_universal(v) || self.is_existential(v)
    }

    /// The place of a universal in the order of declaration, counted from 0.
    pub fn universal_place(&self, x: u64) -> Option<usize>
        ensures { result ≡ position (λ u. u == x) self.now.universals }
    {
        self.universals.place(x)
    }

    /// The place of an existential in the order of declaration, counted from 0.
    pub fn existential_place(&self, y: u64) -> Option<usize>
        ensures { result ≡ position (λ v. v == y) (existential_variables self.now) }
    {
        self.existentials.place(y)
    }

    /// How many clauses there are.
    pub fn clauses(&self) -> usize
        ensures value { result ≡ length self.now.matrix }
        ensures few { result ≤ MAX_CLAUSES }
    {
        self.matrix.len()
    }

    /// The literals of a clause, in order; clauses are counted from 0.
    pub fn clause(&self, j: usize) -> &[Lit]
        requires { j < length self.now.matrix }
        ensures { result.now ≡ slice_index_or self.now.matrix j [] }
    {
        self.matrix.clause(j)
    }

    /// The dependency set of an existential.
    pub fn deps_of(&self, y: u64) -> &Deps
        requires { IsSome (existential_of self.now y) }
        ensures set { IfSome (existential_of self.now y) (λ e.
            dependencies self.now.universals result.now ≡ e.sees) }
        ensures form { IsDependencySet self.now.universals result.now }
    {
        match self.existentials.set_of(y) {
            Some(deps) => deps,
            None => unreachable!(),
        }
    }

    // The dependency set of the existential at a place.
    pub(crate) fn set_at(&self, place: usize) -> &Deps
        requires { place < length self.now.existentials }
        ensures set { IfSome (slice_get self.now.existentials place) (λ e.
            dependencies self.now.universals result.now ≡ e.sees) }
        ensures form { IsDependencySet self.now.universals result.now }
    {
        self.existentials.set_at(place)
    }

    /// Whether an existential depends on a variable.
    pub fn sees(&self, y: u64, x: u64) -> bool
        requires { IsSome (existential_of self.now y) }
        ensures { IfSome (existential_of self.now y) (λ e. IsTrue result ↔ Contains e.sees x) }
    {
        let deps = self.deps_of(y);
        let Some(place) = self.universals.place(x) else {
            return false;
        };
        match deps {
            Deps::FirstOf(n) => place < *n,
            Deps::Listed(vars) => self.finds(vars.items(), place).is_ok(),
        }
    }

    // Searches universals that stand in order of declaration for the one at a place.
    fn finds(&self, vars: &[u64], place: usize) -> Result<usize, usize>
        ensures within { IsSearchInRange result (length vars.now) }
        ensures found { IsBinarySearchResult
            (λ v. nat_cmp (position_or_len (λ u. u == v) self.now.universals) place) vars.now
            result }
    {
        vars.binary_search_by_key(&place, |x| self.place_of(*x))
    }

    /// The place of a universal in the order of declaration, counted from 0; for another variable
    /// the number of universals.
    pub fn place_of(&self, x: u64) -> usize
        ensures place { result ≡ position_or_len (λ u. u == x) self.now.universals }
        ensures found { Contains self.now.universals x
            → slice_get self.now.universals result ≡ Some x }
    {
        match self.universal_place(x) {
            Some(place) => place,
            None => self.universals.len(),
        }
    }

    // The bit of a row at the place of the universal that stands at `i` in a dependency set; false
    // behind the set's end.
    fn seen_bit(&self, deps: &Deps, row: &Row, i: usize) -> bool
        requires form { IsDependencySet self.now.universals deps.now }
        requires row_length { length row.now ≡ length self.now.universals }
        ensures { result
            ≡ bit_of
            (map (row_assignment self.now row.now) (dependencies self.now.universals deps.now)) i }
    {
        // A look at a field shows the invariant.
        let _ = &self.vars;
        match deps {
            Deps::FirstOf(n) => i < *n && row.get(i),
            Deps::Listed(vars) => match vars.items().get(i) {
                Some(x) => row.get(self.place_of(*x)),
                None => false,
            },
        }
    }

    /// Writes the bits of a row of the universals that an existential depends on, in order of
    /// declaration, to the first places of `out`, and false behind them.
    pub fn restrict(&self, y: u64, row: &Row, out: &mut Row)
        requires declared { IsSome (existential_of self.now y) }
        requires row_length { length row.now ≡ length self.now.universals }
        requires out_length { length out.old ≡ length row.now }
        ensures { IfSome (existential_of self.now y) (λ e. out.new
            ≡ padded (length row.now) (restriction e (row_assignment self.now row.now))) }
    {
        let deps = self.deps_of(y);
        for i in 0..out.len() {
            out.set(i, self.seen_bit(deps, row, i));
        }
    }

    /// Whether two rows of the universals agree on those that an existential depends on.
    pub fn same_on(&self, y: u64, r1: &Row, r2: &Row) -> bool
        requires declared { IsSome (existential_of self.now y) }
        requires first_length { length r1.now ≡ length self.now.universals }
        requires second_length { length r2.now ≡ length self.now.universals }
        ensures { IfSome (existential_of self.now y) (λ e. result
            ≡ same_bits (restriction e (row_assignment self.now r1.now))
            (restriction e (row_assignment self.now r2.now))) }
    {
        let deps = self.deps_of(y);
        for i in 0..deps.count() {
            let first = self.seen_bit(deps, r1, i);
            let second = self.seen_bit(deps, r2, i);
            if first != second {
                return false;
            }
        }
        true
    }

    /// Declares a universal, behind those declared before.
    pub fn add_universal(&mut self, v: u64) -> Result<(), Memory>
        requires from_one { 1 ≤ v }
        requires in_range { v ≤ self.old.variables }
        requires undeclared { is_declared self.old v ≡ false }
        ensures ok { OnOk result
            (self.new ≡ record self.old { universals = self.old.universals ++ v ∷ [] }) }
        ensures err { OnErr result (self.new ≡ self.old) }
    {
        self.universals.insert(v)?;
        Ok(())
    }

    /// Declares an existential that depends on each universal declared before it.
    pub fn add_first(&mut self, y: u64) -> Result<(), Memory>
        requires from_one { 1 ≤ y }
        requires in_range { y ≤ self.old.variables }
        requires undeclared { is_declared self.old y ≡ false }
        ensures ok { OnOk result (self.new ≡ record self.old {
          existentials = self.old.existentials
              ++ record { variable = y; sees = self.old.universals } ∷ [];
        }) }
        ensures err { OnErr result (self.new ≡ self.old) }
    {
        let count = self.universals.len();
        self.add_existential(y, Deps::FirstOf(count))
    }

    /// Declares an existential that depends on the listed universals. They may stand in any order,
    /// and may be repeated.
    pub fn add_listed(&mut self, y: u64, xs: &[u64]) -> Result<(), Memory>
        requires from_one { 1 ≤ y }
        requires in_range { y ≤ self.old.variables }
        requires undeclared { is_declared self.old y ≡ false }
        requires listed { All (λ x. is_universal self.old x ≡ true) xs.now }
        ensures ok { OnOk result (self.new ≡ record self.old {
          existentials = self.old.existentials
              ++ record { variable = y; sees = listed_universals self.old.universals xs.now } ∷ [];
        }) }
        ensures err { OnErr result (self.new ≡ self.old) }
    {
        let vars = self.in_order(xs)?;
        self.add_existential(y, Deps::Listed(vars))
    }

    // The listed universals, each once and in order of declaration.
    fn in_order(&self, xs: &[u64]) -> Result<Vars, Memory>
        requires { All (λ x. is_universal self.now x ≡ true) xs.now }
        ensures listed { IfOk result (λ vars. vars ≡ listed_universals self.now.universals xs.now) }
        ensures form { IfOk result (λ vars. vars ≡ listed_universals self.now.universals vars) }
    {
        if self.are_in_order(xs) {
            let vars = Vec::from_slice(self.matrix.alloc(), xs)?;
            return Ok(Vars::from_vec(vars));
        }
        self.sorted(xs)
    }

    // Whether they stand so already: the usual case, which takes one list.
    fn are_in_order(&self, xs: &[u64]) -> bool
        requires { All (λ x. is_universal self.now x ≡ true) xs.now }
        ensures { result ≡ true → listed_universals self.now.universals xs.now ≡ xs.now }
    {
        // A look at a field shows the invariant.
        let _ = &self.vars;
        let count = self.universals().len();
        let mut least = 0;
        let mut rest = xs;
        while let Some((x, behind)) = rest.split_first() {
            let place = self.place_of(*x);
            if place < least || count <= place {
                return false;
            }
            least = place + 1;
            rest = behind;
        }
        true
    }

    // The same of universals that stand in any order.
    #[inline(never)]
    fn sorted(&self, xs: &[u64]) -> Result<Vars, Memory>
        requires { All (λ x. is_universal self.now x ≡ true) xs.now }
        ensures listed { IfOk result (λ vars. vars ≡ listed_universals self.now.universals xs.now) }
        ensures form { IfOk result (λ vars. vars ≡ listed_universals self.now.universals vars) }
    {
        let mut places = self.places(xs)?;
        places.sort_unstable();
        places.dedup();
        let alloc = self.matrix.alloc();
        let vars = picked(alloc, self.universals.items(), &places)?;
        Ok(Vars::from_vec(vars))
    }

    // The places of variables in the order of declaration.
    fn places(&self, xs: &[u64]) -> Result<Vec<usize>, Memory>
        ensures { IfOk result
            (λ places. places.items
            ≡ map (λ x. position_or_len (λ u. u == x) self.now.universals) xs.now) }
    {
        let alloc = self.matrix.alloc();
        Ok(xs.iter().map(|x| self.place_of(*x)).collect(alloc)?)
    }

    // Declares an existential with this dependency set.
    fn add_existential(&mut self, y: u64, deps: Deps) -> Result<(), Memory>
        requires from_one { 1 ≤ y }
        requires in_range { y ≤ self.old.variables }
        requires undeclared { is_declared self.old y ≡ false }
        requires form { IsDependencySet self.old.universals deps }
        ensures ok { OnOk result (self.new ≡ record self.old {
          existentials = self.old.existentials ++ existential self.old.universals (y, deps) ∷ [];
        }) }
        ensures err { OnErr result (self.new ≡ self.old) }
    {
        self.existentials.push(y, deps)?;
        Ok(())
    }

    /// Adds a clause with these literals, as they stand, behind those added before.
    #[inline(always)]
    pub fn add_clause(&mut self, lits: &[Lit]) -> Result<(), Memory>
        requires in_range { All (λ l. variable_of l ≤ self.old.variables) lits.now }
        requires few { length self.old.matrix < MAX_CLAUSES }
        ensures ok { OnOk result
            (self.new ≡ record self.old { matrix = self.old.matrix ++ lits.now ∷ [] }) }
        ensures err { OnErr result (self.new ≡ self.old) }
    {
        self.matrix.push(lits)
    }

    /// Adds the clauses of an XOR line with these literals, one for each choice of an even number of
    /// literals that are negated, behind those added before.
    pub fn add_xor(&mut self, lits: &[Lit]) -> Result<(), Memory>
        requires some { 1 ≤ length lits.now }
        requires few { length lits.now ≤ MAX_XOR }
        requires apart { AllPairs (λ k l. variable_of k ≢ variable_of l) lits.now }
        requires in_range { All (λ l. variable_of l ≤ self.old.variables) lits.now }
        requires few_clauses { length self.old.matrix + length (xor_clauses lits.now)
            ≤ MAX_CLAUSES }
        ensures ok { OnOk result
            (self.new ≡ record self.old { matrix = self.old.matrix ++ xor_clauses lits.now }) }
        ensures err { OnErr result (self.new ≡ self.old) }
    {
        self.matrix.push_xor(lits)?;
        Ok(())
    }

    /// Makes room for so many clauses more, with so many literals in all, so that where memory is
    /// wanting it shows here.
    pub fn reserve(&mut self, clauses: usize, literals: usize) -> Result<(), Memory>
        ensures { self.new ≡ self.old }
    {
        self.matrix.reserve(clauses, literals)
    }

    /// Declares each variable that occurs in a clause and is undeclared as an existential that
    /// depends on nothing, in ascending order.
    pub fn add_free(&mut self) -> Result<(), Memory>
        ensures ok { OnOk result (self.new ≡ record self.old {
          existentials = self.old.existentials ++ map unseeing (free_variables self.old);
        }) }
        ensures err { OnErr result (self.new ≡ self.old) }
    {
        let free = self.free_variables()?;
        if free.is_empty() {
            return Ok(());
        }
        self.existentials.push_unseeing(self.matrix.alloc(), &free)?;
        Ok(())
    }

    // The variables that occur undeclared, in ascending order.
    fn free_variables(&self) -> Result<Vec<u64>, Memory>
        ensures { IfOk result (λ free. free.items ≡ free_variables self.now) }
    {
        let undeclared = self.undeclared()?;
        let mut free = Vec::from_slice(self.matrix.alloc(), undeclared.items())?;
        free.sort_unstable();
        Ok(free)
    }

    // The variables that occur undeclared, each once.
    fn undeclared(&self) -> Result<NumberSet, Memory>
        ensures { IfOk result (AreUndeclaredIn self.now self.now.matrix) }
    {
        self.every_formula_is_lawful();
        let mut vars = NumberSet::new(self.matrix.alloc());
        for j in 0..self.clauses() {
            self.add_undeclared(self.clause(j), &mut vars)?;
        }
        Ok(vars)
    }

    // Adds the undeclared variables of a clause to those of earlier ones.
    fn add_undeclared(&self, clause: &[Lit], vars: &mut NumberSet) -> Result<(), Memory>
        requires { All (λ l. variable_of l ≤ self.now.variables) clause.now }
        ensures { (earlier : List (List Literal)) → AreUndeclaredIn self.now earlier vars.old
            → OnOk result
            (AreUndeclaredIn self.now (earlier ++ clause.now ∷ []) vars.new) }
    {
        for lit in clause {
            self.add_if_undeclared(*lit, vars)?;
        }
        Ok(())
    }

    fn add_if_undeclared(&self, lit: Lit, vars: &mut NumberSet) -> Result<(), Memory>
        requires { variable_of lit ≤ self.now.variables }
        ensures { (clauses : List (List Literal)) (clause : List Literal)
            → AreUndeclaredIn self.now (clauses ++ clause ∷ []) vars.old → OnOk result
            (AreUndeclaredIn self.now (clauses ++ (clause ++ lit ∷ []) ∷ []) vars.new) }
    {
        let v = lit.var();
        if self.is_declared(v) {
            return Ok(());
        }
        vars.insert(v)?;
        Ok(())
    }
}
