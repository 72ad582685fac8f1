//! What an analysis writes down. Marks stand ready when a search begins. The lists grow as they are
//! written, so that they take memory for what was noted, and not for all variables.

ghost use Rattle.std.specs.Prelude.{◌≡◌, ◌<◌, ◌+◌, ◌++◌, ◌∷◌, ◌==◌, ◌||◌, ◌&&◌, not, [], List, ℕ, true, false, length, reverse, All, OnOk, OnErr, slice_index_or, set, Contains};
ghost use Rattle.std.specs.List.Sorted.{IsNonDecreasing};
ghost use Rattle.dq_lits.specs.Literal.{Literal, variable_of};
ghost use Rattle.learning_trail.specs.Steps.{IsAt};
ghost use Rattle.learning_trail.specs.Marks.{marked, stands_on};
ghost use Rattle.learning_trail.specs.Noting.{is_marked, is_touched, AreTouched};

use crate::codes::Code;
use crate::trails::Trail;
use dq_lits::{Lit, Memory};
use std::alloc::Global;
use std::marker::Model;

/// A variable's mark.
#[derive(Clone, Copy)]
pub(crate) enum Mark {
    Clear,
    Marked,
    /// It was taken away, and isn't cleared yet.
    Past,
}

/// Marks of variables, hints, and the literals of a clause to come.
#[derive(Drop)]
pub struct Notes {
    // The mark of variable v at place v; empty, or with place 0, which no variable has.
    marks: Vec<Mark>,
    // The variables whose marks aren't clear, so that clearing them passes no others.
    touched: Vec<usize>,
    // Where marked literals stand on a trail, in order.
    places: Vec<usize>,
    hints: Vec<u64>,
    literals: Vec<Lit>,
}

impl Model for Notes {
    ghost use Rattle.learning_trail.specs.Noting.{Noted, noted_in, HasTouched};

    ghost Value = { Noted };

    ghost view = { noted_in };

    ghost invariant = { HasTouched };
}

impl Notes {
    /// No marks, for no variables. It takes no memory.
    pub fn new(alloc: Global) -> Notes
        ensures { result ≡ record { marks = []; places = []; hints = []; literals = [] } }
    {
        Notes {
            marks: Vec::new(alloc),
            touched: Vec::new(alloc),
            places: Vec::new(alloc),
            hints: Vec::new(alloc),
            literals: Vec::new(alloc),
        }
    }

    /// A mark for each variable of a trail. It takes no memory where there are as many.
    pub fn cover(&mut self, trail: &Trail) -> Result<(), Memory>
        ensures { OnOk result (trail.now.room < length self.new.marks) }
    {
        while self.marks.len() <= trail.room() {
            self.grow()?;
        }
        Ok(())
    }

    // One mark more.
    #[tactic(auto, using(crate::proofs::TouchedMarks::touched_grown))]
    fn grow(&mut self) -> Result<(), Memory>
        ensures { OnOk result (length self.new.marks ≡ length self.old.marks + 1) }
    {
        self.marks.push(Mark::Clear)?;
        Ok(())
    }

    /// Whether a literal's variable is marked.
    pub fn has(&self, l: Lit) -> bool
        requires { variable_of l < length self.now.marks }
        ensures { result ≡ marked self.now.marks (variable_of l) }
    {
        is_marked(self.marks[l.var() as usize])
    }

    /// Whether the variable of a literal of a clause is marked.
    pub(crate) fn has_code(&self, l: Code) -> bool
        requires { variable_of l < length self.now.marks }
        ensures { result ≡ marked self.now.marks (variable_of l) }
    {
        is_marked(self.marks[l.var() as usize])
    }

    /// The hints.
    pub fn hints(&self) -> &[u64]
        ensures { result.now ≡ self.now.hints }
    {
        &self.hints
    }

    /// The literals.
    pub fn literals(&self) -> &[Lit]
        ensures { result.now ≡ self.now.literals }
    {
        &self.literals
    }

    /// Takes everything away.
    pub fn clear(&mut self)
        ensures len { length self.new.marks ≡ length self.old.marks }
        ensures marked { (v : ℕ) → marked self.new.marks v ≡ false }
        ensures hints { self.new.hints ≡ [] }
        ensures literals { self.new.literals ≡ [] }
    {
        clear_all(&mut self.marks, &self.touched);
        self.touched.clear();
        self.hints.clear();
        self.literals.clear();
    }

    /// Marks the variables of a clause's literals, and adds its id to the hints.
    pub fn add_hint(&mut self, id: u64, lits: &[Code]) -> Result<(), Memory>
        requires { All (λ l. variable_of l < length self.old.marks) lits.now }
        ensures len { length self.new.marks ≡ length self.old.marks }
        ensures marked { OnOk result ((v : ℕ)
            → marked self.new.marks v ≡ (marked self.old.marks v || stands_on lits.now v)) }
        ensures places { self.new.places ≡ self.old.places }
        ensures hints { OnOk result (self.new.hints ≡ self.old.hints ++ id ∷ []) }
        ensures literals { self.new.literals ≡ self.old.literals }
    {
        for l in lits {
            self.add_mark(*l)?;
        }
        self.hints.push(id)?;
        Ok(())
    }

    /// Takes a variable's mark away.
    pub fn unmark(&mut self, l: Lit)
        requires { variable_of l < length self.old.marks }
        ensures len { length self.new.marks ≡ length self.old.marks }
        ensures marked { (v : ℕ)
            → marked self.new.marks v ≡ (not (variable_of l == v) && marked self.old.marks v) }
        ensures places { self.new.places ≡ self.old.places }
        ensures hints { self.new.hints ≡ self.old.hints }
        ensures literals { self.new.literals ≡ self.old.literals }
    {
        take_mark(&mut self.marks, l.var() as usize);
    }

    // Marks a literal's variable.
    fn add_mark(&mut self, l: Code) -> Result<(), Memory>
        requires { variable_of l < length self.old.marks }
        ensures len { length self.new.marks ≡ length self.old.marks }
        ensures marked { OnOk result ((v : ℕ)
            → marked self.new.marks v ≡ (marked self.old.marks v || variable_of l == v)) }
        ensures places { self.new.places ≡ self.old.places }
        ensures hints { self.new.hints ≡ self.old.hints }
        ensures literals { self.new.literals ≡ self.old.literals }
    {
        set_mark(&mut self.marks, &mut self.touched, l.var() as usize)?;
        Ok(())
    }

    /// Adds a literal.
    pub fn add_literal(&mut self, l: Lit) -> Result<(), Memory>
        ensures ok { OnOk result
            (self.new ≡ record self.old { literals = self.old.literals ++ l ∷ [] }) }
        ensures err { OnErr result (self.new ≡ self.old) }
    {
        self.literals.push(l)?;
        Ok(())
    }

    /// Where marked literals stand, as they were listed last.
    pub(crate) fn places(&self) -> &[usize]
        ensures { result.now ≡ self.now.places }
    {
        &self.places
    }

    /// Lists where a trail's marked literals stand, in order; other places may be among these.
    pub(crate) fn list_places(&mut self, trail: &Trail) -> Result<(), Memory>
        ensures same { self.new ≡ record self.old { places = self.new.places } }
        ensures sorted { OnOk result (IsNonDecreasing self.new.places) }
        ensures covered { OnOk result ((at : ℕ) (l : Literal) → IsAt trail.now.steps at l
            → marked self.old.marks (variable_of l) ≡ true → Contains self.new.places at) }
    {
        list(&mut self.places, &self.marks, &self.touched, trail)?;
        self.places.sort_unstable();
        Ok(())
    }

    /// Turns hints and literals round.
    pub fn turn(&mut self)
        ensures { self.new
            ≡ record {
              marks = self.old.marks;
              places = self.old.places;
              hints = reverse self.old.hints;
              literals = reverse self.old.literals;
            } }
    {
        self.hints.reverse();
        self.literals.reverse();
    }
}

fn is_marked(mark: Mark) -> bool
    ensures { result ≡ is_marked mark }
{
    match mark {
        Mark::Clear => false,
        Mark::Marked => true,
        Mark::Past => false,
    }
}

// Lists the places of the marked ones of these variables.
fn list(
    places: &mut Vec<usize>,
    marks: &[Mark],
    touched: &[usize],
    trail: &Trail,
) -> Result<(), Memory>
    requires { AreTouched marks.now touched.now }
    ensures { OnOk result ((at v : ℕ) (l : Literal) → IsAt trail.now.steps at l → variable_of l ≡ v
        → is_marked (slice_index_or marks.now v Mark.Clear) ≡ true → Contains places.new.items at) }
{
    places.clear();
    for v in touched {
        list_one(places, marks[*v], *v, trail)?;
    }
    Ok(())
}

fn is_clear(mark: Mark) -> bool
    ensures { result ≡ not (is_touched mark) }
{
    match mark {
        Mark::Clear => true,
        Mark::Marked => false,
        Mark::Past => false,
    }
}

// Marks a variable, which is listed first where its mark was clear.
fn set_mark(marks: &mut Vec<Mark>, touched: &mut Vec<usize>, v: usize) -> Result<(), Memory>
    requires in_range { v < length marks.old.items }
    requires touched { AreTouched marks.old.items touched.old.items }
    ensures marks { OnOk result (marks.new.items ≡ set marks.old.items v Mark.Marked) }
    ensures len { length marks.new.items ≡ length marks.old.items }
    ensures touched { AreTouched marks.new.items touched.new.items }
{
    if is_clear(marks[v]) {
        touched.push(v)?;
    }
    marks[v] = Mark::Marked;
    Ok(())
}

// Lists where a variable's literal stands, if it has this mark.
fn list_one(places: &mut Vec<usize>, mark: Mark, v: usize, trail: &Trail) -> Result<(), Memory>
    ensures kept { (at : ℕ) → Contains places.old.items at → Contains places.new.items at }
    ensures listed { OnOk result ((at : ℕ) (l : Literal) → IsAt trail.now.steps at l
        → variable_of l ≡ v → is_marked mark ≡ true → Contains places.new.items at) }
{
    if !is_marked(mark) {
        return Ok(());
    }
    if let Some(place) = trail.place(v) {
        places.push(place)?;
    }
    Ok(())
}

fn take_mark(marks: &mut Vec<Mark>, v: usize)
    requires { v < length marks.old.items }
    ensures len { length marks.new.items ≡ length marks.old.items }
    ensures marked { (w : ℕ) → is_marked (slice_index_or marks.new.items w Mark.Clear)
        ≡ (not (v == w) && is_marked (slice_index_or marks.old.items w Mark.Clear)) }
    ensures touched { (touched : List ℕ) → AreTouched marks.old.items touched
        → AreTouched marks.new.items touched }
{
    if is_marked(marks[v]) {
        marks[v] = Mark::Past;
    }
}

// Clears the marks of these variables, which are all that aren't clear.
fn clear_all(marks: &mut Vec<Mark>, touched: &[usize])
    requires { AreTouched marks.old.items touched.now }
    ensures len { length marks.new.items ≡ length marks.old.items }
    ensures clear { (v : ℕ) → slice_index_or marks.new.items v Mark.Clear ≡ Mark.Clear }
{
    for v in touched {
        marks[*v] = Mark::Clear;
    }
}
