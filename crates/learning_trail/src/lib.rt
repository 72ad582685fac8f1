//! A trail of literals, and what is learned from it: the part of a clause-learning solver that
//! doesn't ask how it propagates.
//!
//! The trail has the literals that were made true, by decisions or by clauses. A falsified clause
//! teaches a clause by the first unique implication point, or, where assumptions alone were
//! decided, answers by the decisions that it rests on. Solvers keep clauses in their own way, and
//! are read by the id of a clause alone.
#![tactic(auto)]

pub use activities::Activities;
pub use analysis::{analyse, begin};
pub use answers::{answer_conflict, answer_false};
pub use assumptions::{Assumptions, Next, free_decision, holds, next_assumption};
pub use clauses::Clauses;
pub use codes::Code;
pub use decisions::{is_false, next_not_false, open_literal, open_literal_at};
pub use groups::group_clause;
pub use learning::land;
pub use levels::{back_to_start, newest_place};
pub use models::keep_values;
pub use notes::Notes;
pub use restarts::Restarts;
pub use statuses::{ClauseStatus, is_true, status_of};
pub use trails::{Step, Trail};

mod activities;
mod analysis;
mod answers;
mod assumptions;
mod clauses;
mod codes;
mod decisions;
mod groups;
mod learning;
mod levels;
mod models;
mod notes;
mod restarts;
mod starts;
mod statuses;
mod trails;
mod values;
