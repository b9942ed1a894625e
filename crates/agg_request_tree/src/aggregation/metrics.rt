//! Numbers over a field of the documents.
ghost use Rattle.std.specs.Prelude.{◌≡◌};

use agg_values::Text;

/// How many values the field has.
#[derive(Drop)]
pub struct CountAggregation {
    pub field: Text,
}

impl CountAggregation {
    /// The field that is read.
    pub fn field_name(&self) -> &Text
        ensures { result.now ≡ self.now.field }
    {
        &self.field
    }
}

/// The greatest number or date of the field, a date in nanoseconds.
#[derive(Drop)]
pub struct MaxAggregation {
    pub field: Text,
}

impl MaxAggregation {
    /// The field that is read.
    pub fn field_name(&self) -> &Text
        ensures { result.now ≡ self.now.field }
    {
        &self.field
    }
}

/// The least number or date of the field, a date in nanoseconds.
#[derive(Drop)]
pub struct MinAggregation {
    pub field: Text,
}

impl MinAggregation {
    /// The field that is read.
    pub fn field_name(&self) -> &Text
        ensures { result.now ≡ self.now.field }
    {
        &self.field
    }
}

/// The sum of the numbers and dates of the field, dates in nanoseconds.
#[derive(Drop)]
pub struct SumAggregation {
    pub field: Text,
}

impl SumAggregation {
    /// The field that is read.
    pub fn field_name(&self) -> &Text
        ensures { result.now ≡ self.now.field }
    {
        &self.field
    }
}
