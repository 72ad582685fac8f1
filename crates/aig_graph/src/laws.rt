//! What the definitions of `specs/` prove about one another. Each law is the contract of a function
//! with an empty body.

ghost use Rattle.aig_graph.specs.Outputs.{OutputsAreSupported};

/// A node's value depends on the inputs that it reads alone.
pub fn outputs_are_supported()
    ensures { OutputsAreSupported }
{}
