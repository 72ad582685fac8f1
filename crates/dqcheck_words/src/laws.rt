//! What `spelled_command` means.
//!
//! Each law is the contract of a function without parameters and with an empty body: it holds of
//! all words, and a caller that needs it calls the function. The first says that it is what clap
//! makes of the words; the others read it.

ghost use Rattle.std.specs.Prelude.{◌≡◌, ℕ, true, false, List, [], ◌∷◌, ◌++◌, None};
ghost use Rattle.std.specs.List.{All};
ghost use Rattle.std.specs.Str.{IsUtf8};
ghost use Rattle.dqcheck_words.specs.Parsed.{command_of};
ghost use Rattle.dqcheck_words.specs.Spelling.{command_named, is_option, is_separator, spelled_command};

/// Behind the program's name stand two names, the formula's first. An option is refused, and `--`
/// says that what follows are names.
pub fn words_are_spelled()
    ensures { (words : List (List ℕ)) → command_of words ≡ spelled_command words }
{}

/// Words that aren't options are names, of which two are wanted.
pub fn names_are_taken()
    ensures { (program : List ℕ) (names : List (List ℕ))
        → All (λ name. is_option name ≡ false) names
        → spelled_command (program ∷ names) ≡ command_named names }
{}

/// Behind `--` each word is a name, whatever it begins with.
pub fn names_behind_separator_are_taken()
    ensures { (program separator : List ℕ) (before names : List (List ℕ))
        → All (λ name. is_option name ≡ false) before
        → is_separator separator ≡ true
        → spelled_command (program ∷ before ++ separator ∷ names) ≡ command_named (before ++ names) }
{}

/// An option that no `--` stands before is refused, also `--help`, whatever follows it.
pub fn options_are_refused()
    ensures { (program option : List ℕ) (before behind : List (List ℕ))
        → All (λ name. is_option name ≡ false) before
        → is_option option ≡ true → is_separator option ≡ false
        → spelled_command (program ∷ before ++ option ∷ behind) ≡ None }
{}

/// In text, what begins with a minus and isn't the minus alone is an option.
pub fn text_behind_minus_is_option()
    ensures { (next : ℕ) (rest : List ℕ) → IsUtf8 (45 ∷ next ∷ rest)
        → is_option (45 ∷ next ∷ rest) ≡ true }
{}
