//! Numbers that a text chooses, each found by its value.
//!
//! A text may choose its numbers so that a hash table with a fixed seed takes quadratic time for
//! them. A number set is a table for the numbers that are small beside how many there are, and an
//! ordered map for the others: it takes no more than logarithmic time for a number and memory for
//! the numbers that were added, whichever they are.
#![tactic(auto)]

pub use sets::NumberSet;

mod places;
mod sets;
