//! What ties the page on black boxes to the definitions that the contracts cite.
#![tactic(auto)]

pub mod laws;
