//! What a grouping asks.
ghost use Rattle.std.specs.Prelude.{◌≡◌, IfOk};
ghost use Rattle.peslumok_front.specs.grouping.Request.{metric_name};
ghost use Rattle.peslumok_front.specs.grouping.Sources.{column_name};
ghost use Rattle.peslumok_texts.specs.words.By.{parts};

use agg_values::{OutOfMemory, Text};
use peslumok_texts::fields::FieldTypes;
use peslumok_texts::words::{BySpec, Condition, Metric};
use std::alloc::Global;

/// The name of a metric's column, such as `sum(amount)`.
pub fn metric_name(alloc: Global, metric: &Metric<'_>) -> Result<Text, OutOfMemory>
    ensures { IfOk result (λ name. name ≡ metric_name metric.now) }
{
    Text::from_string(format!(in alloc; "{}({})", metric.kind.word(), metric.field)?)
}

/// What the column of groups is called.
pub fn column_of<'a>(by: &BySpec<'a>) -> &'a str
    ensures { result.now ≡ column_name (parts by.now) }
{
    by.name.unwrap_or(by.field)
}

/// How records are grouped, and what is told of each group.
#[derive(Drop)]
pub struct Grouping<'a> {
    pub by: Vec<BySpec<'a>>,
    /// The conditions that a record has to meet.
    pub conditions: Vec<Condition<'a>>,
    /// The JSON of a query that a record has to match too.
    pub query: Option<&'a str>,
    pub metrics: Vec<Metric<'a>>,
    /// Whether the metrics of all records are told too.
    pub has_total: bool,
    pub types: FieldTypes,
}
