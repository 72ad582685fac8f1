//! Universal expansion over a shared solver: the instances of the matrix under the rounds' rows, on
//! arbiters, the variables of pairs of an existential and a row's bits that it sees (U. Bubeck, H.
//! Kleine Büning, "Dependency quantified Horn formulas", 2006).
#![tactic(auto)]

pub use instances::NumberedClause;
pub use points::Points;
pub use tables::{Exp, Table};

mod arbiters;
mod first_rows;
mod focus;
mod instances;
pub mod laws;
mod new_rows;
mod orders;
mod points;
mod tables;
