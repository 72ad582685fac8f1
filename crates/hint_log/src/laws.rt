//! What holds of every log. Each law is the contract of a function without parameters and with an
//! empty body.

ghost use Rattle.std.specs.Prelude.{◌≡◌, ℕ, ◌≤◌, List, ◌∷◌, Some};
ghost use Rattle.dq_lits.specs.Literal.{Literal};
ghost use Rattle.hint_log.specs.Conditions.{AreNamed, HasSides, IsId, AreLogged};
ghost use Rattle.hint_log.specs.Entries.{has_id, clause_at, name_of, numbered, rounds_of, steps_of};
ghost use Rattle.hint_log.specs.Reached.{Reaches};
ghost use Rattle.hint_log.specs.Entries.{Entry};
ghost use Rattle.hint_log.specs.declared.names.Name.{Name};

/// What an id reaches are ids.
pub fn reached_are_ids()
    ensures { (entries : List Entry) (id i : ℕ) → AreLogged entries → IsId entries id
        → Reaches entries id i → IsId entries i }
{}

/// A clause stands on variables that have names.
pub fn clauses_are_named()
    ensures { (entries : List Entry) (id : ℕ) (clause : List Literal) → AreLogged entries
        → clause_at entries id ≡ Some clause → AreNamed entries clause }
{}

/// The sides of a gate stand on inputs and gates.
pub fn sides_are_named()
    ensures { (entries : List Entry) (v : ℕ) (name : Name) → AreLogged entries
        → name_of entries v ≡ Some name → HasSides entries name }
{}

/// No two variables have one name.
pub fn names_are_unique()
    ensures { (entries : List Entry) (v w : ℕ) (name : Name) → AreLogged entries
        → name_of entries v ≡ Some name → name_of entries w ≡ Some name → v ≡ w }
{}

/// Rounds are steps.
pub fn rounds_are_steps()
    ensures { (entries : List Entry) → rounds_of entries ≤ steps_of entries }
{}

/// An entry more leaves the ids before it.
pub fn ids_stay()
    ensures { (e : Entry) (entries : List Entry) (id : ℕ) → IsId entries id
        → numbered has_id (e ∷ entries) id ≡ numbered has_id entries id }
{}
