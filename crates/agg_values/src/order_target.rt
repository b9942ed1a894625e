ghost use Rattle.std.specs.Prelude.{◌≡◌, Some};
ghost use Rattle.agg_values.specs.OrderTarget.{target_of, target_text};

use crate::Text;
use std::fmt;

/// What buckets are ordered by.
#[derive(Drop, PartialEq, Eq, Default)]
pub enum OrderTarget {
    Key,
    #[default]
    Count,
    /// The sub-aggregation of this name.
    SubAggregation(Text),
}

impl OrderTarget {
    /// The target of a text: `_key`, `_count`, or else a sub-aggregation's name.
    pub fn from_text(target: Text) -> OrderTarget
        ensures target { result ≡ target_of target }
        ensures text { target_text result ≡ target }
    {
        match target.as_str() {
            "_key" => OrderTarget::Key,
            "_count" => OrderTarget::Count,
            _ => OrderTarget::SubAggregation(target),
        }
    }
}

impl fmt::Display for OrderTarget {
    ghost output = { λ target. Some (target_text target) };

    fn fmt<W: fmt::Write>(&self, f: &mut fmt::Formatter<W>) -> fmt::Result {
        match self {
            OrderTarget::Key => f.write_str("_key"),
            OrderTarget::Count => f.write_str("_count"),
            OrderTarget::SubAggregation(name) => f.write_str(name.as_str()),
        }
    }
}
