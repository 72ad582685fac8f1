//! The words of the solver's command line, read with `clap`.
//!
//! `command_words` gives what `dqsolve solve [--steps N] [--bare] [--v2] [--prep] [--binary] FILE`,
//! `dqsolve demo SEED SIZE`, `dqsolve pec [--steps N] SPEC IMPL`, `dqsolve encode SPEC IMPL`,
//! `dqsolve defined [--steps N] FILE` or `dqsolve session [--steps N] FILE SCRIPT` asks for, as
//! `spelled_command` says (`specs/Spelling.antt`). That this is clap's own meaning of the command,
//! at all words, is a law in `laws`; `examples` says what it is of command lines that are written
//! out.
#![tactic(auto)]

pub use requests::{
    CircuitWords, CommandWords, DefiningWords, DemoWords, PecWords, SessionWords, SolveOptions,
    SolveWords, command_words,
};

pub mod examples;
pub mod laws;
mod requests;
