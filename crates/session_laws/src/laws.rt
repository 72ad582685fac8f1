//! The page's sessions and those of the crates that read scripts and search. A law is the contract of a
//! function without parameters and with an empty body.

ghost use Rattle.std.specs.Prelude.{◌≡◌, ℕ, List, Ok, All, Contains};
ghost use Rattle.dq_lits.specs.Formula.{Dqbf, IsWellFormed};
ghost use Rattle.dqdimacs_reader.specs.Grammar.{SpellsFormula};
ghost use Rattle.headline.specs.Headline.{Formula, Literal, existentials_of, variable_of};
ghost use Rattle.headline.specs.Sessions.{AnswersSession, variables_of, with_clause};
ghost use Rattle.hint_log.specs.Entries.{ProofLog};
ghost use Rattle.script_text.specs.Commands.{ScriptCommand};
ghost use Rattle.script_text.specs.Reading.{read_script};
ghost use Rattle.session_runs.specs.Blocks.{Search, blocks_text};
ghost use Rattle.session_runs.specs.Searches.{AreSearched};

use dq_formula::xor_clauses_are_exact;
use headline_laws::laws::{formulas_are_on_the_page, same_meanings_are_on_the_page};
use script_text::laws::scripts_are_allowed;

/// A script's clauses leave the formula's prefix as it is, with what no line declares.
pub fn clauses_leave_the_prefix()
    ensures { (f : Formula) (ls : List Literal)
        → All (λ l. Contains (variables_of f) (variable_of l)) ls
        → existentials_of (with_clause f ls) ≡ existentials_of f }
{}

/// The blocks of a script's searches on a formula answer the session of both texts.
pub fn sessions_are_on_the_page()
    ensures { (formula script : List ℕ) (read : Dqbf) (commands : List ScriptCommand) (log : ProofLog)
        (searches : List Search) → SpellsFormula formula read → IsWellFormed read
        → read_script read script ≡ Ok commands → AreSearched read commands log searches
        → AnswersSession formula script (blocks_text 1 searches) }
{
    formulas_are_on_the_page();
    same_meanings_are_on_the_page();
    scripts_are_allowed();
    xor_clauses_are_exact();
}
