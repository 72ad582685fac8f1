//! What shows a verdict on a formula that was made simpler, lifted to the formula itself:
//! refutations, and the proofs of circuits.
#![tactic(auto)]

pub use circuits::lift_true;
pub use refutations::lift_false;

mod asking;
mod carried;
mod carrying;
mod circuits;
mod goals;
mod hinted;
mod kept_places;
pub mod laws;
mod liftings;
mod lines;
mod names;
mod negated_bases;
mod planned;
mod refutations;
mod rows;
mod settled;
mod settling;
mod some_false;
mod sources;
mod turns;
mod units;
