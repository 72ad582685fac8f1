//! What commands over two circuits share: how their files are read, the formula of the design that
//! they make, and what is said of files that make none.
#![tactic(auto)]

pub use designs::{DesignStop, ImpFault, NoDesign, read_design_formula};
pub use encoding::encode;

mod designs;
mod encoding;
mod refusal_names;
mod texts;
