//! Terms sources.
ghost use Rattle.serde_json.specs.View.{view};
ghost use Rattle.agg_request.specs.reading.CompositeJson.{IsSourceBody};
ghost use Rattle.agg_request.specs.reading.Unsupported.{HasUnsupportedLeast};
ghost use Rattle.agg_request.specs.json_values.Reading.{IsReading};
ghost use Rattle.agg_request_tree.specs.declared.source.CompositeAggregationSource.TheVariants as s;

use crate::json_values::ReadError;
use crate::json_values::members::read_field;
use crate::reading::composite::words::{min, missing_bucket, missing_order, order};
use agg_request_tree::TermCompositeAggregationSource;
use agg_values::Text;
use serde_json::Value;
use std::alloc::Global;

/// The terms source of a name.
pub fn read_terms(
    alloc: Global,
    name: &str,
    body: &Value,
) -> Result<TermCompositeAggregationSource, ReadError>
    ensures { IsReading (λ lenient terms. IsSourceBody lenient name.now (view body.now)
        (s.Terms terms)) (HasUnsupportedLeast (view body.now)) result }
{
    Ok(TermCompositeAggregationSource {
        name: Text::copy_of(alloc, name)?,
        field: read_field(alloc, body)?,
        order: order(body)?,
        missing_bucket: missing_bucket(body)?,
        missing_order: missing_order(body)?,
        min: min(alloc, body)?,
    })
}
