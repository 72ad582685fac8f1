//! Hinted unit propagation: whether a line of a proof is derived.
//!
//! A line is a clause with hints, the ids of clauses that are held. It is derived where its clause
//! holds no literal beside its negation, and where, with every literal of the clause false, each
//! hinted clause but the last is unit in its turn and the last one is falsified. These are the
//! steps of LRAT (L. Cruz-Filipe et al., "Efficient certified RAT verification", 2017) without RAT,
//! and stricter: a hint that is satisfied, or falsified before the last, is a fault.
//!
//! Lines may be deleted between others: [`Proving`] judges a proof as its items come, over a
//! [`Store`] of the lines that are live.
#![tactic(auto)]

pub use bases::{Base, FewLiterals};
pub use derivation::{Derived, derive, derive_any};
pub use faults::ProofFault;
pub use marks::Marks;
pub use proving::Proving;
pub use stores::Store;

mod bases;
mod derivation;
mod faults;
pub mod laws;
mod marks;
mod pages;
mod progress;
mod proving;
mod statuses;
mod stores;
mod trails;
