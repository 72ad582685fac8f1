//! The laws of values, reach and order. Each is the contract of a function that does nothing: who
//! calls it may use what it ensures.
ghost use Rattle.circuit_plain.specs.Order.{OrdersGround};
ghost use Rattle.circuit_plain.specs.Value.{ValuesAreUnique, GroundedHaveValues, ValuesFollowReach, ValuationsAgree};

/// A variable has at most one value.
pub fn values_are_unique()
    ensures { ValuesAreUnique }
{}

/// A variable of the least set has a value, whatever the inputs' bits.
pub fn grounded_have_values()
    ensures { GroundedHaveValues }
{}

/// A value depends on the inputs reached alone.
pub fn values_follow_reach()
    ensures { ValuesFollowReach }
{}

/// A map that meets every gate's equation gives each variable its value.
pub fn valuations_agree()
    ensures { ValuationsAgree }
{}

/// With an order the constant, every input and every gate is in the least set, and so has a value.
pub fn orders_ground()
    ensures { OrdersGround }
{}
