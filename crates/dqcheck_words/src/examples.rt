//! Command lines that are written out, and what they ask for.

ghost use Rattle.std.specs.Prelude.{◌≡◌, [], ◌∷◌, Some, None, codes};
ghost use Rattle.dqcheck_words.specs.Spelling.{spelled_command};
ghost use Rattle.dqcheck_words.specs.Examples.{files, dqcheck};

/// Two names are taken, also a minus alone and an empty word.
pub fn two_names_are_taken()
    ensures two { dqcheck (codes "f" ∷ codes "c" ∷ []) ≡ Some (files (codes "f") (codes "c")) }
    ensures minus { dqcheck (codes "-" ∷ codes "c" ∷ []) ≡ Some (files (codes "-") (codes "c")) }
    ensures empty { dqcheck (codes "" ∷ codes "c" ∷ []) ≡ Some (files (codes "") (codes "c")) }
{}

/// Another number of names is refused, and so are no words at all.
pub fn other_numbers_are_refused()
    ensures no_words { spelled_command [] ≡ None }
    ensures no_name { dqcheck [] ≡ None }
    ensures one { dqcheck (codes "f" ∷ []) ≡ None }
    ensures three { dqcheck (codes "f" ∷ codes "c" ∷ codes "g" ∷ []) ≡ None }
{}

/// There are no options, not even those that most programs have.
pub fn flags_are_refused()
    ensures help { dqcheck (codes "--help" ∷ []) ≡ None }
    ensures short_help { dqcheck (codes "f" ∷ codes "-h" ∷ codes "c" ∷ []) ≡ None }
    ensures version { dqcheck (codes "f" ∷ codes "c" ∷ codes "--version" ∷ []) ≡ None }
    ensures by_name { dqcheck (codes "--FORMULA=f" ∷ codes "c" ∷ []) ≡ None }
{}

/// Behind `--` stand names, wherever it stands; a second one is a name.
pub fn separator_is_read()
    ensures first { dqcheck (codes "--" ∷ codes "-f" ∷ codes "--c" ∷ [])
        ≡ Some (files (codes "-f") (codes "--c")) }
    ensures between { dqcheck (codes "f" ∷ codes "--" ∷ codes "--help" ∷ [])
        ≡ Some (files (codes "f") (codes "--help")) }
    ensures last { dqcheck (codes "f" ∷ codes "c" ∷ codes "--" ∷ [])
        ≡ Some (files (codes "f") (codes "c")) }
    ensures twice { dqcheck (codes "--" ∷ codes "f" ∷ codes "--" ∷ [])
        ≡ Some (files (codes "f") (codes "--")) }
    ensures three { dqcheck (codes "f" ∷ codes "c" ∷ codes "--" ∷ codes "g" ∷ []) ≡ None }
{}
