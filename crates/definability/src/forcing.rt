//! Bits that existentials are forced to have where they see what they see at a row.
//!
//! A rule's cube is what is left of the row in the answer's clause; no smaller one is searched for.

ghost use Rattle.std.specs.Prelude.{◌≡◌, ◌<◌, ◌∷◌, ℕ, List, true, false, All, length, IfOk, IsErrOf, IsSome, Some, Ok};
ghost use Rattle.dq_lits.specs.Derivation.{is_tautology};
ghost use Rattle.dq_lits.specs.Formula.{Existential, IsWellFormed, existential_of};
ghost use Rattle.dq_lits.specs.Literal.{Literal, variable_of};
ghost use Rattle.hint_log.specs.Conditions.{IsId};
ghost use Rattle.hint_log.specs.Entries.{clause_at, name_of};
ghost use Rattle.hint_log.specs.Growth.{Grew};
ghost use Rattle.log_laws.specs.Engines.{copies, IsAddedBy};
ghost use Rattle.oracle.specs.Calls.{IsModelUnder, assumed};
ghost use Rattle.oracle.specs.Limits.{IsAtSomeLimit};
ghost use Rattle.definability.specs.Copies.{IsDefinability};
ghost use Rattle.definability.specs.Forcing.{IsForced};
ghost use Rattle.definability.specs.Growing.{HasSameGivens, HasSearched};
ghost use Rattle.definability.specs.Ruling.{AreFirstCopies, ShowsClause, IsLiteralName, signed_literal, row_copies, cube_literal, cube_of};

use crate::copies::copied_variable;
use crate::definability::Definability;
use crate::reading::{row_of_copies, row_of_values};
use dq_formula::{Formula, Rule};
use dq_lits::laws::derived_line_is_implied;
use dq_lits::{Clause, Lit, Memory, Row};
use hint_log::laws::{ids_stay, names_are_unique, reached_are_ids};
use hint_log::{Log, Name, Stop};
use oracle::{Answer, Oracle};

/// Whether an existential is forced to have a bit.
#[derive(Drop)]
pub enum Forced {
    /// It is, by this rule.
    Rule(Rule),
    /// It isn't: with these values the matrix is true under this row, at which the existential sees
    /// the same and has the other bit.
    Loose { row: Row, values: Row },
}

impl Definability {
    /// Whether an existential has this bit wherever the matrix is true and it sees what it sees at
    /// this row: a rule that says so, whose cube is a part of the row, or values that show that it
    /// hasn't. It stops for want of memory or at the log's limit, and may be called again then.
    pub fn force<O: Oracle>(
        &self,
        oracle: &mut O,
        f: &Formula,
        y: u64,
        row: &Row,
        bit: bool,
        log: &mut Log,
    ) -> Result<Forced, Stop>
        requires fit { O.Fits oracle.old log.old }
        requires formula { IsWellFormed f.now }
        requires definability { IsDefinability f.now self.now log.old.entries }
        requires existential { IsSome (existential_of f.now y) }
        requires row { length row.now ≡ length f.now.universals }
        ensures fit { O.Fits oracle.new log.new }
        ensures definability { IsDefinability f.now self.now log.new.entries }
        ensures grew { (group : ℕ)
            → Grew (IsAddedBy f.now copies group true log.old.entries) log.old log.new }
        ensures same_givens { HasSameGivens log.old.entries log.new.entries }
        ensures forced { (e : Existential) → existential_of f.now y ≡ Some e
            → IfOk result (IsForced f.now e row.now bit) }
        ensures limit { IsErrOf result Stop.Limit → IsAtSomeLimit log.new }
    {
        names_are_unique();
        f.every_formula_is_lawful();
        let places = self.seen_copies(f, y)?;
        let own = signed(copied_variable(&self.first, f, y), !bit);
        let asked = self.row_copies(own, row, &places)?;
        match self.search_first(oracle, f, &asked, log)? {
            Answer::Unsat(id) => {
                let cube = self.cube(y, id, log)?;
                Ok(Forced::Rule(Rule { y, cube, bit }))
            }
            Answer::Sat => {
                let row = row_of_copies(oracle, &self.first.universals, &self.copied, row)?;
                let values = row_of_values(self.alloc, oracle, &self.first.existentials)?;
                Ok(Forced::Loose { row, values })
            }
        }
    }

    // A literal, and the first copies of the universals at these places with the row's bits.
    fn row_copies(&self, own: Lit, row: &Row, places: &[usize]) -> Result<Vec<Lit>, Memory>
        requires row { All (λ p. p < length row.now) places.now }
        requires copies { All (λ p. p < length self.now.first.universals.items) places.now }
        ensures { IfOk result
            (λ lits. lits.items ≡ own ∷ row_copies self.now.first row.now places.now) }
    {
        let mut lits = Vec::new(self.alloc);
        lits.push(own)?;
        for place in places {
            let copy = self.first.universals[*place];
            lits.push(signed(copy, row.get(*place)))?;
        }
        Ok(lits)
    }

    // Asks whether the matrix can be true in the first copy with these literals.
    fn search_first<O: Oracle>(
        &self,
        oracle: &mut O,
        f: &Formula,
        asked: &[Lit],
        log: &mut Log,
    ) -> Result<Answer, Stop>
        requires fit { O.Fits oracle.old log.old }
        requires definability { IsDefinability f.now self.now log.old.entries }
        requires copies { AreFirstCopies log.old.entries asked.now }
        requires apart { is_tautology asked.now ≡ false }
        ensures fit { O.Fits oracle.new log.new }
        ensures searched { HasSearched f.now self.now log.old log.new }
        ensures told { result ≡ Ok Answer.Sat → O.is_told oracle.new ≡ true }
        ensures sat { result ≡ Ok Answer.Sat
            → IsModelUnder (O.values oracle.new) (clause_at log.new.entries)
            (assumed self.now.first.groups.items asked.now) }
        ensures unsat { (id : ℕ) → result ≡ Ok (Answer.Unsat id)
            → ShowsClause f.now log.new.entries asked.now id }
        ensures limit { IsErrOf result Stop.Limit → IsAtSomeLimit log.new }
    {
        derived_line_is_implied();
        ids_stay();
        reached_are_ids();
        // The call shows the formula's invariant.
        let _ = f.vars();
        let answer = oracle.solve(&self.first.groups, asked, log)?;
        Ok(answer)
    }

    // The cube of an answer's clause, without the literal on the copy of the existential.
    fn cube(&self, y: u64, id: u64, log: &Log) -> Result<Clause, Memory>
        requires id { IsId log.now.entries id }
        requires names { (clause : List Literal) → clause_at log.now.entries id ≡ Some clause
            → All (λ l. IsLiteralName (name_of log.now.entries (variable_of l))) clause }
        ensures { (clause : List Literal) → clause_at log.now.entries id ≡ Some clause
            → IfOk result (λ cube. cube ≡ cube_of log.now.entries y clause) }
    {
        let mut lits = Vec::new(self.alloc);
        for l in log.clause(id) {
            if let Some(literal) = literal_of_cube(y, l.is_neg(), log.name(l.var())) {
                lits.push(literal)?;
            }
        }
        Ok(Clause::from_vec(lits))
    }
}

// What a literal of an answer's clause puts into a cube.
fn literal_of_cube(y: u64, negated: bool, name: Name) -> Option<Lit>
    requires { IsLiteralName (Some name) }
    ensures { result ≡ cube_literal y negated (Some name) }
{
    match name {
        Name::Copy { side: _, variable } => {
            if variable == y {
                None
            } else {
                Some(signed(Lit::pos(variable), negated))
            }
        }
        _ => None,
    }
}

// The literal where the bit is true, else its negation.
fn signed(l: Lit, bit: bool) -> Lit
    ensures { result ≡ signed_literal l bit }
{
    if bit { l } else { l.not() }
}
