//! Tokens, lines and numbers of a text.
//!
//! Texts are bytes. Tokens are parted by space, tab, CR and LF; LF alone ends a line.
#![tactic(auto)]

pub use cursors::LinePlace;
pub use lines::{Line, LineTokens, Lines};
pub use numbers::{
    Number, TOO_BIG, has_minus, natural, push_all_spaced, push_last, push_natural, push_number,
    push_spaced, read_number,
};
pub use short_numbers::{short_natural, short_number};
pub use summaries::{Digits, Head, TokenSummary, grown, is_begun, no_bytes, summary_number};
pub use token_pieces::{TakesTokens, TokenPieces};
pub use tokens::{Token, Tokens};
pub use words::{is_blank, is_word, push_word};

mod bytes;
mod cursors;
pub mod laws;
mod lines;
mod numbers;
mod short_numbers;
mod summaries;
mod token_pieces;
mod tokens;
mod words;
