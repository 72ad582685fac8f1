//! What callers need of `spelled_command`.
//!
//! Each law is the contract of a function without parameters and with an empty body: it holds of
//! all words, and a caller that needs it calls the function.

ghost use Rattle.std.specs.Prelude.{◌≡◌, ℕ, List, Some};
ghost use Rattle.dqsolve_words.specs.Command.{Command, IsInRange};
ghost use Rattle.dqsolve_words.specs.Parsed.{command_of};
ghost use Rattle.dqsolve_words.specs.Spelling.{spelled_command};

/// What clap makes of the words is what they spell.
pub fn words_are_spelled()
    ensures { (words : List (List ℕ)) → command_of words ≡ spelled_command words }
{}

/// As many steps are asked for as may be, and a seed and a size in their ranges.
pub fn numbers_are_in_range()
    ensures { (words : List (List ℕ)) (c : Command)
        → spelled_command words ≡ Some c → IsInRange c }
{}
