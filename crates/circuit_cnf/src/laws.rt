//! What a log's leaves and answers say of a graph's nodes. Each law is the contract of a function
//! without parameters.

ghost use Rattle.circuit_cnf.specs.Checking.{CheckersStay, CheckersStayWithRounds};
ghost use Rattle.circuit_cnf.specs.Failing.{FailuresRefuteRows};
ghost use Rattle.circuit_cnf.specs.Leaves.{LeavesHaveNodesValues, LeavesReadNodesCones};
ghost use Rattle.circuit_cnf.specs.Shown.{ShownOutputsHold, ShownOutputsDecide};

use log_laws::laws::leaves_solve;

/// A log's leaf of a node has the node's value.
pub fn leaves_have_nodes_values()
    ensures { LeavesHaveNodesValues }
{}

/// A log's leaf of a node reads inputs of the node's cone alone.
pub fn leaves_read_nodes_cones()
    ensures { LeavesReadNodesCones }
{}

/// Outputs that an answer shows make every clause true everywhere.
pub fn shown_outputs_hold()
    ensures { ShownOutputsHold }
{
    leaves_solve();
    leaves_have_nodes_values();
}

/// Where outputs that an answer shows read what they may, the answer decides that the formula is
/// true.
pub fn shown_outputs_decide()
    ensures { ShownOutputsDecide }
{
    leaves_read_nodes_cones();
}

/// What another engine's call adds to a log leaves a checker as it is.
pub fn checkers_stay()
    ensures { CheckersStay }
{}

/// So does a round.
pub fn checkers_stay_with_rounds()
    ensures { CheckersStayWithRounds }
{}

/// A turn's failure at a row that wasn't tried may be logged as a round.
pub fn failures_refute_rows()
    ensures { FailuresRefuteRows }
{}
