//! Which kind of certificate a text is, by its first lines.
//!
//! Behind a line that states another verdict a `p` line is WrongVerdict whatever its second token
//! is, so the first token of a header alone is looked at as long as the second can't change an
//! answer.

/// What a certificate shows, and where its header line begins.
#[derive(Clone, Copy, PartialEq, Eq)]
pub enum Kind {
    /// A circuit in ASCII AIGER, which shows that a formula is true. Its header line begins at the byte `at`,
    /// counted from 0, and has the number `line`.
    Circuit { at: usize, line: u64 },
    /// The same in AIGER's binary form.
    BinaryCircuit { at: usize, line: u64 },
    /// A refutation, which shows that a formula is false.
    Refutation { at: usize, line: u64 },
    /// Definitions, which show which existentials are functions of what they may read. They show no
    /// verdict.
    Definitions { at: usize, line: u64 },
}

/// What the line `s` states.
#[derive(Clone, Copy, PartialEq, Eq)]
pub enum Verdict {
    True,
    False,
}
