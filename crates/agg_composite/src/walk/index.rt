//! The order in which accessors are read.
ghost use Rattle.std.specs.Prelude.{◌≡◌, ◌<◌};
ghost use Rattle.agg_composite.specs.Choices.{index_in};

use agg_values::Order;

/// The index of the accessor that is read in a turn, so that classes ascend.
pub fn index_at(order: Order, accessors: usize, turn: usize) -> usize
    requires { turn < accessors }
    ensures bound { result < accessors }
    ensures index { result ≡ index_in order accessors turn }
{
    match order {
        Order::Asc => turn,
        Order::Desc => accessors - 1 - turn,
    }
}
