//! What every command over files shares: what a run writes and the status that it ends with, how
//! that is delivered, and how a formula's file is read.
//!
//! A command states its own reports and when each is due. `Ends` in `specs/Ending.antt` says what
//! becomes of the one that is due, and `HasCauses` that no refusal comes without its cause.
#![tactic(auto)]

pub use delivery::deliver;
pub use formulas::{FormulaStop, NoFormula, read_formula};
pub use outputs::Output;
pub use statuses::Failure;

mod delivery;
mod fault_names;
mod formulas;
pub mod outputs;
mod statuses;
