ghost use Rattle.std.specs.Prelude.{◌≡◌};
ghost use Rattle.agg_values.specs.Column.{class_of, shown_class_of};

use crate::{CompositeIntermediateKey, CompositeKey};

/// The classes of keys, ascending.
#[derive(Clone, Copy, Debug, PartialEq, Eq, PartialOrd, Ord)]
pub enum ColumnPaginationOrder {
    Bool,
    Str,
    Numeric,
    IpAddr,
    DateTime,
}

impl CompositeIntermediateKey {
    /// The class of a key, None exactly for Null.
    pub fn column_pagination_order(&self) -> Option<ColumnPaginationOrder>
        ensures { result ≡ class_of self.now }
    {
        match self {
            CompositeIntermediateKey::Bool(_) => Some(ColumnPaginationOrder::Bool),
            CompositeIntermediateKey::Str(_) => Some(ColumnPaginationOrder::Str),
            CompositeIntermediateKey::I64(_) | CompositeIntermediateKey::U64(_) => {
                Some(ColumnPaginationOrder::Numeric)
            }
            CompositeIntermediateKey::IpAddr(_) => Some(ColumnPaginationOrder::IpAddr),
            CompositeIntermediateKey::DateTime(_) => Some(ColumnPaginationOrder::DateTime),
            CompositeIntermediateKey::Null => None,
        }
    }
}

impl CompositeKey {
    /// The class of a shown key, None exactly for Null.
    pub fn column_pagination_order(&self) -> Option<ColumnPaginationOrder>
        ensures { result ≡ shown_class_of self.now }
    {
        match self {
            CompositeKey::Bool(_) => Some(ColumnPaginationOrder::Bool),
            CompositeKey::Str(_) => Some(ColumnPaginationOrder::Str),
            CompositeKey::I64(_) | CompositeKey::U64(_) => Some(ColumnPaginationOrder::Numeric),
            CompositeKey::Null => None,
        }
    }
}
