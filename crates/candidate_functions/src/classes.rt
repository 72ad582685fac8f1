//! Existentials with one dependency set have one list of pairs.

ghost use Rattle.std.specs.Prelude.{◌≡◌, true, [], length, replicate, All, IsSome, IfOk, OnOk, Some, None};
ghost use Rattle.dq_lits.specs.Formula.{Existential, existential_of};
ghost use Rattle.aig_graph.specs.Graph.{AigGraph};
ghost use Rattle.candidate_functions.specs.Pairs.{set_of, universal_places, IsClass, HasClass, HasClassLike};
ghost use Rattle.row_pairs.specs.Pairs.{ArePairRounds};

use aig_graph::Node;
use dq_formula::Formula;
use dq_lits::Memory;
use expansion::Table;
use row_pairs::pair_rounds;
use std::alloc::Global;
use std::collections::BTreeMap;

// The pairs of a dependency set, by their rounds, with the first existential that has it; and the
// cubes of those at which a candidate was patched.
#[derive(Drop)]
pub(crate) struct Class {
    pub y: u64,
    pub rounds: Vec<u64>,
    pub cubes: Vec<Option<Node>>,
}

// The classes so far, and what is known of where each dependency set has its class.
#[derive(Drop)]
pub(crate) struct Classes {
    pub alloc: Global,
    pub classes: Vec<Class>,
    pub known: KnownSets,
}

// For each existential, by place, one with the same dependency set, and for such a one the place of
// its class.
#[derive(Drop)]
pub(crate) struct KnownSets {
    leaders: Vec<usize>,
    places: BTreeMap<usize, usize>,
}

impl KnownSets {
    // It promises nothing of what it finds, since each answer is compared.
    fn first_with(&mut self, f: &Formula, y: u64, next: usize) -> Result<usize, Memory> {
        let Some(place) = f.existential_place(y) else {
            return Ok(next);
        };
        let Some(leader) = self.leaders.get(place) else {
            return Ok(next);
        };
        if let Some(first) = self.places.get(leader) {
            return Ok(*first);
        }
        self.places.insert(*leader, next)?;
        Ok(next)
    }
}

pub(crate) fn no_classes(alloc: Global, f: &Formula) -> Result<Classes, Memory>
    ensures { IfOk result (λ made. made.classes.items ≡ []) }
{
    let leaders = f.set_leaders(alloc)?;
    Ok(Classes {
        alloc,
        classes: Vec::new(alloc),
        known: KnownSets {
            leaders,
            places: BTreeMap::new(alloc),
        },
    })
}

impl Classes {
    // The place of the class of an existential's dependency set. It is made where the set wasn't
    // met yet.
    pub(crate) fn class_of(&mut self, f: &Formula, table: &Table, y: u64) -> Result<usize, Memory>
        requires declared { IsSome (existential_of f.now y) }
        requires whole { All (λ row. length row ≡ length f.now.universals) table.now.rows }
        ensures classes { (graph : AigGraph)
            → All (IsClass f.now table.now.rows graph) self.old.classes.items
            → OnOk result (All (IsClass f.now table.now.rows graph) self.new.classes.items) }
        ensures place { (graph : AigGraph)
            → All (IsClass f.now table.now.rows graph) self.old.classes.items → IfOk result
            (λ place. HasClass f.now table.now.rows graph self.new.classes.items place y) }
    {
        let next = self.classes.len();
        let first = self.known.first_with(f, y, next)?;
        if is_class_of(f, &self.classes, first, y) {
            return Ok(first);
        }
        self.classes.push(new_class(self.alloc, f, table, y)?)?;
        Ok(next)
    }
}

fn new_class(alloc: Global, f: &Formula, table: &Table, y: u64) -> Result<Class, Memory>
    requires declared { IsSome (existential_of f.now y) }
    requires whole { All (λ row. length row ≡ length f.now.universals) table.now.rows }
    ensures class { (graph : AigGraph) → IfOk result (IsClass f.now table.now.rows graph) }
    ensures own { IfOk result (λ class. class.y ≡ y) }
{
    let rounds = seen_rounds(alloc, f, table, y)?;
    let cubes = no_cubes(alloc, rounds.len())?;
    Ok(Class { y, rounds, cubes })
}

fn seen_rounds(alloc: Global, f: &Formula, table: &Table, y: u64) -> Result<Vec<u64>, Memory>
    requires declared { IsSome (existential_of f.now y) }
    requires whole { All (λ row. length row ≡ length f.now.universals) table.now.rows }
    ensures { (e : Existential) → existential_of f.now y ≡ Some e
        → IfOk result (λ rounds. ArePairRounds table.now.rows (universal_places f.now e.sees)
        (length table.now.rows) rounds.items) }
{
    f.every_formula_is_lawful();
    let places = f.seen_places(alloc, y)?;
    pair_rounds(alloc, table, &places)
}

fn no_cubes(alloc: Global, n: usize) -> Result<Vec<Option<Node>>, Memory>
    ensures { IfOk result (λ cubes. cubes.items ≡ replicate n None) }
{
    Ok(vec![in alloc; None; n]?)
}

// Whether there is a class at this place, and it is that of the existential's dependency set.
fn is_class_of(f: &Formula, classes: &[Class], place: usize, y: u64) -> bool
    requires { IsSome (existential_of f.now y) }
    ensures { result ≡ true → HasClassLike f.now classes.now place y }
{
    place < classes.len() && have_one_set(f, classes[place].y, y)
}

// Whether two variables have one dependency set.
fn have_one_set(f: &Formula, v: u64, w: u64) -> bool
    requires { IsSome (existential_of f.now w) }
    ensures { result ≡ true → set_of f.now v ≡ set_of f.now w }
{
    if !f.is_existential(v) {
        return false;
    }
    f.have_one_set(v, w)
}
