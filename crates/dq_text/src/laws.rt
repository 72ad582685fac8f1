//! What the definitions of `specs/` prove about one another. A law is the contract of a function
//! without parameters and with an empty body.

ghost use Rattle.std.specs.Prelude.{◌≡◌, ℕ, ◌^◌, ◌<◌, ◌≤◌, pos, neg_ℤ, List, ◌∷◌, map};
ghost use Rattle.std.specs.Fmt.{decimal};
ghost use Rattle.std.specs.List.{flat_map};
ghost use Rattle.dq_text.specs.Line.{lines_from, line_tokens};
ghost use Rattle.dq_text.specs.LongestRuns.{AreLongestRuns};
ghost use Rattle.dq_text.specs.Number.{begins_with_minus, number_of};
ghost use Rattle.dq_text.specs.declared.numbers.Number.TheVariants.{Int};
ghost use Rattle.dq_text.specs.NumberedTokens.{numbered, numbered_tokens};
ghost use Rattle.dq_text.specs.Pieces.{tokens_to_come, last_line_to_come, no_pieces, summarized};
ghost use Rattle.dq_text.specs.Summary.{head_of, summary_of, summary_number};
ghost use Rattle.dq_text.specs.Token.{tokens_of, last_line_of};

/// The tokens of a text are those of its lines that aren't comments, in order, each with its line's
/// number.
pub fn tokens_are_those_of_lines()
    ensures { (text : List ℕ)
        → map numbered (tokens_of text) ≡ flat_map numbered_tokens (lines_from 1 text) }
{}

/// The tokens of a line are the longest runs of its bytes other than space, tab, CR and LF.
pub fn line_tokens_are_longest_runs()
    ensures { (line : List ℕ) → AreLongestRuns line (line_tokens line) }
{}

/// A number below 10^18 is read from its decimal text as itself, and one from 1 on from that text
/// behind a `-` as its negation.
pub fn written_numbers_are_read()
    ensures natural { (n : ℕ) → n < 10 ^ 18 → number_of (decimal n) ≡ Int (pos n) }
    ensures negative { (n : ℕ) → 1 ≤ n → n < 10 ^ 18
        → number_of (45 ∷ decimal n) ≡ Int (neg_ℤ (pos n)) }
{}

/// What is kept of a token tells its first three bytes, where it has no more, its sign and its
/// number.
pub fn summaries_tell_words_and_numbers()
    ensures head { (text : List ℕ) → (summary_of text).head ≡ head_of text }
    ensures minus { (text : List ℕ) → (summary_of text).minus ≡ begins_with_minus text }
    ensures number { (text : List ℕ) → summary_number (summary_of text) ≡ number_of text }
{}

/// Wherever a text is cut, its tokens are those of the whole, each with its line, and so is its last
/// line.
pub fn pieces_have_the_tokens()
    ensures tokens { (text : List ℕ)
        → tokens_to_come no_pieces text ≡ map summarized (tokens_of text) }
    ensures last_line { (text : List ℕ) → last_line_to_come no_pieces text ≡ last_line_of text }
{}
