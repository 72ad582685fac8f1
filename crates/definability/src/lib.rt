//! Padoa's method: whether an existential is defined by the universals that it sees and by earlier
//! existentials that see no more.
//!
//! Two copies of the matrix are given to the oracle once, each in a group, and an equation between
//! the copies of each variable that stands in a clause, each in a group of its own. An existential is defined where the
//! copies can't be true together while what its definition may read agrees and it is true in one
//! copy alone: then an interpolant of the answer is its definition. Else the values that were found
//! show that it isn't. The same question may be asked under conditions, which both copies then have
//! to meet, and with what the existential sees alone. The first copy alone shows whether it is
//! forced to have a bit where it sees what it sees at a row.
//!
//! In a session clauses come and go in frames, each of which has a group on either side. A clause is
//! given when it is first live, a universal gets copies when it first stands in such a clause, and
//! the groups of the live frames alone are active (N. Eén, N. Sörensson, "Temporal induction by
//! incremental SAT solving", 2003). The copies of a file are made in the same way, in the frame 0.
#![tactic(auto)]

pub use copies::{MatrixCopy, copied_variable};
pub use definability::Definability;
pub use defining::{Found, Pair};
pub use forcing::Forced;
pub use guessing::Guess;

mod activating;
mod asking;
mod conditions;
mod copies;
mod definability;
mod defining;
mod following;
mod forcing;
mod frames;
mod guessing;
pub mod laws;
mod parts;
mod reading;
mod searching;
mod seeing;
