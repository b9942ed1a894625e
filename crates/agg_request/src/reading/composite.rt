//! Composites from JSON.
ghost use Rattle.serde_json.specs.View.{view};
ghost use Rattle.agg_request.specs.reading.CompositeJson.{IsCompositeJson};
ghost use Rattle.agg_request.specs.reading.Unsupported.{HasUnsupportedComposite};
ghost use Rattle.agg_request.specs.json_values.Reading.{IsReading};

mod after;
mod size;
mod sources;
mod words;

use crate::json_values::ReadError;
use after::read_after;
use agg_request_tree::CompositeAggregation;
use serde_json::Value;
use size::read_size;
use sources::read_sources;
use std::alloc::Global;
pub(crate) use words::order_of;

/// The composite of a body.
pub fn read_composite(alloc: Global, body: &Value) -> Result<CompositeAggregation, ReadError>
    ensures { IsReading (λ lenient. IsCompositeJson lenient (view body.now))
        (HasUnsupportedComposite (view body.now)) result }
{
    let sources = read_sources(alloc, body)?;
    let size = read_size(body)?;
    let after = read_after(alloc, body)?;
    Ok(CompositeAggregation {
        sources,
        size,
        after,
    })
}
