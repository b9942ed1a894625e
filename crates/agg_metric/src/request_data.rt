//! What a collector is asked in a segment.
use agg_values::Text;

/// What is computed of the values of a field.
#[derive(Clone, Copy, Debug, PartialEq, Eq)]
pub enum StatsType {
    /// How many values there are.
    Count,
    /// The greatest number or date, a date in nanoseconds.
    Max,
    /// The least number or date, a date in nanoseconds.
    Min,
    /// The sum of the numbers and dates, dates in nanoseconds.
    Sum,
}

/// A metric in a segment: its name, the field that is read, and what is computed of its values.
#[derive(Drop)]
pub struct MetricAggReqData {
    pub name: Text,
    pub field: Text,
    pub collecting_for: StatsType,
}
