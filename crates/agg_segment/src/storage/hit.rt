ghost use Rattle.std.specs.Prelude.{◌≡◌, ℕ, Some};
ghost use Rattle.agg_segment.specs.storage.Columns.{encoded_key, type_of};
ghost use Rattle.agg_segment.specs.declared.storage.keys.ColumnKeys.{ColumnKeys};
ghost use Rattle.agg_values.specs.Column.{class_of};

use agg_values::ColumnPaginationOrder;

/// The type of a column, which says how its numbers stand for keys.
#[derive(Clone, Copy, Debug, PartialEq, Eq)]
pub enum ColumnType {
    Bool,
    Str,
    I64,
    U64,
    IpAddr,
    DateTime,
}

impl ColumnType {
    /// The class of its keys.
    pub fn column_pagination_order(self) -> ColumnPaginationOrder
        ensures { (keys : ColumnKeys) (n : ℕ)
            → type_of keys ≡ self → class_of (encoded_key keys n) ≡ Some result }
    {
        match self {
            ColumnType::Bool => ColumnPaginationOrder::Bool,
            ColumnType::Str => ColumnPaginationOrder::Str,
            ColumnType::I64 | ColumnType::U64 => ColumnPaginationOrder::Numeric,
            ColumnType::IpAddr => ColumnPaginationOrder::IpAddr,
            ColumnType::DateTime => ColumnPaginationOrder::DateTime,
        }
    }
}

/// Where a value stands in a list of distinct values, ascending.
#[derive(Clone, Copy, Debug, PartialEq, Eq)]
pub enum OrdHit {
    /// At this place.
    Exact(u64),
    /// Not in the list; the first greater value is at this place.
    Next(u64),
    /// Above all.
    AfterLast,
}
