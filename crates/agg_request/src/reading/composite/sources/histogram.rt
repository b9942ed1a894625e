//! Histogram sources.
ghost use Rattle.std.specs.Prelude.{codes};
ghost use Rattle.serde_json.specs.View.{view};
ghost use Rattle.agg_request.specs.reading.CompositeJson.{IsIntervalOf};
ghost use Rattle.agg_request.specs.reading.Unsupported.{HasUnsupportedNumbers};
ghost use Rattle.agg_request.specs.reading.CompositeJson.{IsSourceBody};
ghost use Rattle.agg_request.specs.json_values.Unsupported.{HasFloatAt};
ghost use Rattle.agg_request.specs.json_values.Reading.{IsReading};
ghost use Rattle.agg_request_tree.specs.declared.source.CompositeAggregationSource.TheVariants as s;

use crate::json_values::ReadError;
use crate::json_values::members::read_field;
use crate::reading::composite::words::{min, missing_bucket, missing_order, order};
use agg_request_tree::HistogramCompositeAggregationSource;
use agg_values::Text;
use serde_json::Value;
use std::alloc::Global;

/// The histogram source of a name.
pub fn read_histogram(
    alloc: Global,
    name: &str,
    body: &Value,
) -> Result<HistogramCompositeAggregationSource, ReadError>
    ensures { IsReading (λ lenient numbers. IsSourceBody lenient name.now (view body.now)
        (s.Histogram numbers)) (HasUnsupportedNumbers (view body.now)) result }
{
    Ok(HistogramCompositeAggregationSource {
        name: Text::copy_of(alloc, name)?,
        field: read_field(alloc, body)?,
        interval: read_interval(body)?,
        order: order(body)?,
        missing_bucket: missing_bucket(body)?,
        missing_order: missing_order(body)?,
        min: min(alloc, body)?,
    })
}

// The interval of a body, which has to be there.
fn read_interval(body: &Value) -> Result<i64, ReadError>
    ensures { IsReading (λ lenient. IsIntervalOf lenient (view body.now))
        (HasFloatAt (codes "interval") (view body.now)) result }
{
    let Some(interval) = body.get("interval") else {
        return Err(ReadError::Grammar);
    };
    if interval.is_f64() {
        return Err(ReadError::Unsupported);
    }
    interval.as_i64().ok_or(ReadError::Grammar)
}
