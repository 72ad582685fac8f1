//! Laws of lists, numbers and bits that proofs of several crates cite. Nothing here is code.
#![tactic(auto)]
