//! Command lines that are written out, and what they ask for.

ghost use Rattle.std.specs.Prelude.{◌≡◌, true, false, [], ◌∷◌, Some, None, codes};
ghost use Rattle.dqsolve_words.specs.Command.{default_steps};
ghost use Rattle.dqsolve_words.specs.Spelling.{spelled_command};
ghost use Rattle.dqsolve_words.specs.Examples.{default_options, solving, solving_with, planting, comparing, encoding, defining, conversing, dqsolve};

/// Options stand before or behind the name, the number of steps also behind `=`.
pub fn options_are_taken()
    ensures none { dqsolve (codes "solve" ∷ codes "f" ∷ [])
        ≡ Some (solving default_steps false (codes "f")) }
    ensures steps { dqsolve (codes "solve" ∷ codes "--steps" ∷ codes "7" ∷ codes "f" ∷ [])
        ≡ Some (solving 7 false (codes "f")) }
    ensures behind { dqsolve (codes "solve" ∷ codes "f" ∷ codes "--bare" ∷ codes "--steps=7" ∷ [])
        ≡ Some (solving 7 true (codes "f")) }
    ensures plus { dqsolve (codes "solve" ∷ codes "--steps" ∷ codes "+007" ∷ codes "f" ∷ [])
        ≡ Some (solving 7 false (codes "f")) }
    ensures separator { dqsolve (codes "solve" ∷ codes "--bare" ∷ codes "--" ∷ codes "--steps" ∷ [])
        ≡ Some (solving default_steps true (codes "--steps")) }
    ensures deletions { dqsolve (codes "solve" ∷ codes "--v2" ∷ codes "f" ∷ [])
        ≡ Some
        (solving_with default_steps (record default_options { deletes = true }) (codes "f")) }
    ensures both { dqsolve (codes "solve" ∷ codes "f" ∷ codes "--v2" ∷ codes "--bare" ∷ [])
        ≡ Some (solving_with default_steps
        (record default_options { bare = true; deletes = true }) (codes "f")) }
    ensures preparation { dqsolve (codes "solve" ∷ codes "--prep" ∷ codes "f" ∷ [])
        ≡ Some (solving_with default_steps (record default_options { prepares = true }) (codes "f")) }
    ensures binary { dqsolve (codes "solve" ∷ codes "--binary" ∷ codes "f" ∷ [])
        ≡ Some (solving_with default_steps (record default_options { binary = true }) (codes "f")) }
{}

/// Numbers of steps outside the range are refused, and what isn't a number.
pub fn other_steps_are_refused()
    ensures most { dqsolve (codes "solve" ∷ codes "--steps" ∷ codes "1000000000" ∷ codes "f" ∷ [])
        ≡ Some (solving 1000000000 false (codes "f")) }
    ensures none { dqsolve (codes "solve" ∷ codes "--steps" ∷ codes "0" ∷ codes "f" ∷ []) ≡ None }
    ensures more { dqsolve (codes "solve" ∷ codes "--steps" ∷ codes "1000000001" ∷ codes "f" ∷ [])
        ≡ None }
    ensures word { dqsolve (codes "solve" ∷ codes "--steps" ∷ codes "many" ∷ codes "f" ∷ [])
        ≡ None }
    ensures missing { dqsolve (codes "solve" ∷ codes "f" ∷ codes "--steps" ∷ []) ≡ None }
    ensures twice { dqsolve
        (codes "solve" ∷ codes "--steps" ∷ codes "1" ∷ codes "--steps" ∷ codes "1" ∷ codes "f" ∷ [])
        ≡ None }
{}

/// A seed and a size are taken in their ranges, and need no more words.
pub fn plantings_are_taken()
    ensures taken { dqsolve (codes "demo" ∷ codes "1" ∷ codes "3" ∷ []) ≡ Some (planting 1 3) }
    ensures ends { dqsolve (codes "demo" ∷ codes "2147483647" ∷ codes "10000" ∷ [])
        ≡ Some (planting 2147483647 10000) }
    ensures seed { dqsolve (codes "demo" ∷ codes "2147483648" ∷ codes "1" ∷ []) ≡ None }
    ensures least { dqsolve (codes "demo" ∷ codes "1" ∷ codes "0" ∷ []) ≡ None }
    ensures most { dqsolve (codes "demo" ∷ codes "1" ∷ codes "10001" ∷ []) ≡ None }
    ensures sign { dqsolve (codes "demo" ∷ codes "-1" ∷ codes "3" ∷ []) ≡ None }
    ensures missing { dqsolve (codes "demo" ∷ codes "1" ∷ []) ≡ None }
    ensures option { dqsolve (codes "demo" ∷ codes "--bare" ∷ codes "1" ∷ codes "3" ∷ []) ≡ None }
{}

/// Two circuits are compared, or their formula is asked for.
pub fn circuits_are_taken()
    ensures pec { dqsolve (codes "pec" ∷ codes "s" ∷ codes "i" ∷ [])
        ≡ Some (comparing default_steps (codes "s") (codes "i")) }
    ensures steps { dqsolve (codes "pec" ∷ codes "s" ∷ codes "--steps" ∷ codes "7" ∷ codes "i" ∷ [])
        ≡ Some (comparing 7 (codes "s") (codes "i")) }
    ensures encode { dqsolve (codes "encode" ∷ codes "s" ∷ codes "i" ∷ [])
        ≡ Some (encoding (codes "s") (codes "i")) }
    ensures missing { dqsolve (codes "encode" ∷ codes "s" ∷ []) ≡ None }
    ensures more { dqsolve (codes "pec" ∷ codes "s" ∷ codes "i" ∷ codes "j" ∷ []) ≡ None }
    ensures bare { dqsolve (codes "pec" ∷ codes "--bare" ∷ codes "s" ∷ codes "i" ∷ []) ≡ None }
    ensures deletions { dqsolve (codes "pec" ∷ codes "--v2" ∷ codes "s" ∷ codes "i" ∷ []) ≡ None }
    ensures preparation { dqsolve (codes "pec" ∷ codes "--prep" ∷ codes "s" ∷ codes "i" ∷ []) ≡ None }
    ensures binary { dqsolve (codes "pec" ∷ codes "--binary" ∷ codes "s" ∷ codes "i" ∷ []) ≡ None }
    ensures encode_steps { dqsolve
        (codes "encode" ∷ codes "--steps" ∷ codes "7" ∷ codes "s" ∷ codes "i" ∷ []) ≡ None }
{}

/// A formula's definitions are asked for with a number of steps alone.
pub fn definitions_are_taken()
    ensures none { dqsolve (codes "defined" ∷ codes "f" ∷ [])
        ≡ Some (defining default_steps (codes "f")) }
    ensures steps { dqsolve (codes "defined" ∷ codes "--steps" ∷ codes "7" ∷ codes "f" ∷ [])
        ≡ Some (defining 7 (codes "f")) }
    ensures behind { dqsolve (codes "defined" ∷ codes "f" ∷ codes "--steps=7" ∷ [])
        ≡ Some (defining 7 (codes "f")) }
    ensures no_name { dqsolve (codes "defined" ∷ []) ≡ None }
    ensures two_names { dqsolve (codes "defined" ∷ codes "f" ∷ codes "g" ∷ []) ≡ None }
    ensures bare { dqsolve (codes "defined" ∷ codes "--bare" ∷ codes "f" ∷ []) ≡ None }
    ensures deletions { dqsolve (codes "defined" ∷ codes "--v2" ∷ codes "f" ∷ []) ≡ None }
    ensures preparation { dqsolve (codes "defined" ∷ codes "--prep" ∷ codes "f" ∷ []) ≡ None }
    ensures binary { dqsolve (codes "defined" ∷ codes "--binary" ∷ codes "f" ∷ []) ≡ None }
    ensures least { dqsolve (codes "defined" ∷ codes "--steps" ∷ codes "0" ∷ codes "f" ∷ [])
        ≡ None }
    ensures most { dqsolve
        (codes "defined" ∷ codes "--steps" ∷ codes "1000000001" ∷ codes "f" ∷ []) ≡ None }
{}

/// A session takes a formula's file and then a script's, with a number of steps alone.
pub fn sessions_are_taken()
    ensures none { dqsolve (codes "session" ∷ codes "f" ∷ codes "s" ∷ [])
        ≡ Some (conversing default_steps (codes "f") (codes "s")) }
    ensures steps { dqsolve
        (codes "session" ∷ codes "--steps" ∷ codes "7" ∷ codes "f" ∷ codes "s" ∷ [])
        ≡ Some (conversing 7 (codes "f") (codes "s")) }
    ensures between { dqsolve (codes "session" ∷ codes "f" ∷ codes "--steps=7" ∷ codes "s" ∷ [])
        ≡ Some (conversing 7 (codes "f") (codes "s")) }
    ensures no_script { dqsolve (codes "session" ∷ codes "f" ∷ []) ≡ None }
    ensures two_scripts { dqsolve (codes "session" ∷ codes "f" ∷ codes "s" ∷ codes "t" ∷ [])
        ≡ None }
    ensures bare { dqsolve (codes "session" ∷ codes "--bare" ∷ codes "f" ∷ codes "s" ∷ [])
        ≡ None }
    ensures deletions { dqsolve (codes "session" ∷ codes "--v2" ∷ codes "f" ∷ codes "s" ∷ [])
        ≡ None }
    ensures preparation { dqsolve (codes "session" ∷ codes "--prep" ∷ codes "f" ∷ codes "s" ∷ [])
        ≡ None }
    ensures binary { dqsolve (codes "session" ∷ codes "--binary" ∷ codes "f" ∷ codes "s" ∷ [])
        ≡ None }
    ensures least { dqsolve
        (codes "session" ∷ codes "--steps" ∷ codes "0" ∷ codes "f" ∷ codes "s" ∷ []) ≡ None }
{}

/// Other words are refused, not even those of most programs are taken.
pub fn other_words_are_refused()
    ensures no_words { spelled_command [] ≡ None }
    ensures nothing { dqsolve [] ≡ None }
    ensures no_name { dqsolve (codes "solve" ∷ []) ≡ None }
    ensures two_names { dqsolve (codes "solve" ∷ codes "f" ∷ codes "g" ∷ []) ≡ None }
    ensures command { dqsolve (codes "check" ∷ codes "1" ∷ codes "3" ∷ []) ≡ None }
    ensures before { dqsolve (codes "--bare" ∷ codes "solve" ∷ codes "f" ∷ []) ≡ None }
    ensures help { dqsolve (codes "--help" ∷ []) ≡ None }
    ensures help_command { dqsolve (codes "help" ∷ []) ≡ None }
    ensures help_option { dqsolve (codes "solve" ∷ codes "--help" ∷ []) ≡ None }
    ensures version { dqsolve (codes "--version" ∷ []) ≡ None }
{}

/// A minus alone and an empty word are names, and behind `--` each word is one; an option is no value
/// of another one, has its whole name, and is given once.
pub fn odd_words_are_read()
    ensures minus { dqsolve (codes "solve" ∷ codes "-" ∷ [])
        ≡ Some (solving default_steps false (codes "-")) }
    ensures empty { dqsolve (codes "solve" ∷ codes "" ∷ [])
        ≡ Some (solving default_steps false (codes "")) }
    ensures behind { dqsolve (codes "session" ∷ codes "f" ∷ codes "--" ∷ codes "--" ∷ [])
        ≡ Some (conversing default_steps (codes "f") (codes "--")) }
    ensures before { dqsolve (codes "--" ∷ codes "solve" ∷ codes "f" ∷ []) ≡ None }
    ensures negative { dqsolve (codes "solve" ∷ codes "--steps" ∷ codes "-7" ∷ codes "f" ∷ [])
        ≡ None }
    ensures separator { dqsolve
        (codes "solve" ∷ codes "--steps" ∷ codes "--" ∷ codes "7" ∷ codes "f" ∷ []) ≡ None }
    ensures no_value { dqsolve (codes "solve" ∷ codes "--steps=" ∷ codes "f" ∷ []) ≡ None }
    ensures valued { dqsolve (codes "solve" ∷ codes "--bare=true" ∷ codes "f" ∷ []) ≡ None }
    ensures shortened { dqsolve (codes "solve" ∷ codes "--step=7" ∷ codes "f" ∷ []) ≡ None }
    ensures twice { dqsolve (codes "solve" ∷ codes "--bare" ∷ codes "--bare" ∷ codes "f" ∷ [])
        ≡ None }
{}
