//! The proof log of a search: what it named, was given, learned, answered and tried, in order.
//!
//! Every solver variable has a name, every given clause an origin, and every learned clause and
//! every answer the hints that derive it. Learned clauses and rounds count as steps, and the log
//! takes no more of them than its limit. `Log::trim` gives the ids that an answer rests on.
#![tactic(auto)]

pub use logs::Log;
pub use names::Name;
pub use origins::{Leaf, Origin};
pub use pending::Pending;
pub use stops::Stop;

mod kept_names;
mod kinds;
pub mod laws;
mod logs;
mod names;
mod origins;
mod pending;
mod stops;
mod trimming;
