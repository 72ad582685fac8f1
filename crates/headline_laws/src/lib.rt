//! What ties the headline's page to the definitions that the contracts cite.
#![tactic(auto)]

pub mod laws;
