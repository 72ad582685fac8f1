//! The definitions of a script, held against small ones.
//!
//! A definition can't be run; these theorems show that it says what it is to say.

ghost use Rattle.std.specs.Prelude.{◌≡◌, [], ◌∷◌, map, codes, Ok, Err};
ghost use Rattle.dq_lits.specs.Literal.{positive, negative};
ghost use Rattle.script_text.specs.Commands.{push, add};
ghost use Rattle.script_text.specs.Examples.{clauseless, nested_commands, nested_text, on_second_line, said_of, text_of};
ghost use Rattle.script_text.specs.Frames.{formulas_of};
ghost use Rattle.script_text.specs.Reading.{read_script};
ghost use Rattle.script_text.specs.declared.faults.ScriptFault.TheVariants.{BadCommand, NoFrame, BadNumber, TooBig, VarRange, Undeclared, MissingZero};

/// Two frames are opened and closed, and four formulas are asked about: that of no clause, that of
/// both frames' clauses, that of the first one's, and again that of none.
pub fn frames_are_nested()
    ensures read { read_script clauseless nested_text ≡ Ok nested_commands }
    ensures formulas { map (λ f. f.matrix) (formulas_of clauseless nested_commands)
        ≡ [] ∷ ((positive 2 ∷ []) ∷ (negative 2 ∷ []) ∷ []) ∷ ((positive 2 ∷ []) ∷ []) ∷ [] ∷ [] }
{}

/// The first refusal of a line.
pub fn lines_are_refused()
    ensures no_frame { read_script clauseless (text_of (codes "pop" ∷ []))
        ≡ Err (record { line = 1; name = NoFrame }) }
    ensures command { said_of (codes "c push") ≡ on_second_line BadCommand }
    ensures behind { said_of (codes "solve 1") ≡ on_second_line BadCommand }
    ensures number { said_of (codes "add 1 x 0") ≡ on_second_line BadNumber }
    ensures minus_zero { said_of (codes "add -0 0") ≡ on_second_line BadNumber }
    ensures too_big { said_of (codes "add 1000000000000000000 x") ≡ on_second_line TooBig }
    ensures range { said_of (codes "add 4 0") ≡ on_second_line VarRange }
    ensures undeclared { said_of (codes "add 3 0") ≡ on_second_line Undeclared }
    ensures no_zero { said_of (codes "add 1 2") ≡ on_second_line MissingZero }
    ensures words_behind { said_of (codes "add 1 0 2 0") ≡ on_second_line MissingZero }
    ensures fault_behind { said_of (codes "add 1 0 x") ≡ on_second_line BadNumber }
    ensures empty_clause { said_of (codes "add 0") ≡ Ok (push ∷ add [] ∷ []) }
{}
