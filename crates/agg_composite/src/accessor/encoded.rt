//! Keys of sources, encoded in a segment.
ghost use Rattle.std.specs.Prelude.{◌≡◌, ◌<◌, ◌^◌};
ghost use Rattle.agg_values.specs.KeyOrder.{null_side};
ghost use Rattle.agg_composite.specs.accessor.Encoding.{encoded_at, null_lane};

use agg_values::{MissingOrder, Order};

/// A key of a source in a segment, as the walk compares it.
#[derive(Clone, Copy, Debug, Default, PartialEq, Eq, PartialOrd, Ord, Hash)]
pub struct Encoded {
    /// The number of its lane, from 1 on; for Null 0, or one more than there are lanes.
    pub lane: usize,
    /// The lane's number, or in descending order its complement; 0 for Null.
    pub raw: u64,
}

impl Encoded {
    /// A number of the lane at an index.
    pub fn at(order: Order, index: usize, number: u64) -> Encoded
        requires { index < 2 ^ 63 }
        ensures { result ≡ encoded_at order index number }
    {
        let raw = match order {
            Order::Asc => number,
            Order::Desc => u64::MAX - number,
        };
        Encoded {
            lane: index + 1,
            raw,
        }
    }

    /// Null before or after so many lanes.
    pub fn null(order: Order, missing_order: MissingOrder, lanes: usize) -> Encoded
        requires { lanes < 2 ^ 63 }
        ensures { result
            ≡ record { lane = null_lane (null_side order missing_order) lanes; raw = 0 } }
    {
        let lane = match (missing_order, order) {
            (MissingOrder::First, _) | (MissingOrder::Default, Order::Asc) => 0,
            (MissingOrder::Last, _) | (MissingOrder::Default, Order::Desc) => lanes + 1,
        };
        Encoded { lane, raw: 0 }
    }
}
