//! The sources of a composite.
ghost use Rattle.std.specs.Prelude.{◌≡◌, codes, option_and_then, option_map};
ghost use Rattle.serde_json.specs.Find.{as_array, get};
ghost use Rattle.serde_json.specs.View.{items_view, view};
ghost use Rattle.agg_request.specs.reading.CompositeJson.{AreSources};
ghost use Rattle.agg_request.specs.reading.Unsupported.{HasUnsupportedInterval, HasUnsupportedKind};
ghost use Rattle.agg_request.specs.reading.Unsupported.{HasUnsupportedSource};
ghost use Rattle.agg_request.specs.reading.CompositeJson.{IsSourceJson, IsSourceOfKind};
ghost use Rattle.agg_request.specs.json_values.Json.{EachIs};
ghost use Rattle.agg_request.specs.json_values.Unsupported.{HasUnsupportedItem};
ghost use Rattle.agg_request.specs.json_values.Reading.{IsReading};

mod date_histogram;
mod histogram;
mod terms;

use crate::json_values::ReadError;
use crate::json_values::json_value::only_member;
use agg_request_tree::CompositeAggregationSource;
use agg_values::ItemList;
use date_histogram::read_date_histogram;
use histogram::read_histogram;
use serde_json::Value;
use std::alloc::Global;
use terms::read_terms;

/// The sources of a body, which have to be there.
pub fn read_sources(
    alloc: Global,
    body: &Value,
) -> Result<ItemList<CompositeAggregationSource>, ReadError>
    ensures { IsReading (λ lenient. AreSources lenient (view body.now))
        (HasUnsupportedSource (view body.now)) result }
{
    let Some(items) = sources_in(body) else {
        return Err(ReadError::Grammar);
    };
    read_items(alloc, items)
}

// The array of the sources.
fn sources_in(body: &Value) -> Option<&[Value]>
    ensures { option_map (λ items. items_view items.now) result
        ≡ option_and_then as_array (get (codes "sources") (view body.now)) }
{
    Some(body.get("sources")?.as_array()?.as_slice())
}

fn read_items(
    alloc: Global,
    items: &[Value],
) -> Result<ItemList<CompositeAggregationSource>, ReadError>
    ensures { IsReading (λ lenient. EachIs (IsSourceJson lenient) (items_view items.now))
        (HasUnsupportedItem HasUnsupportedKind (items_view items.now)) result }
{
    let mut sources = ItemList::new(alloc);
    for item in items {
        sources.push(read_source(alloc, item)?)?;
    }
    Ok(sources)
}

fn read_source(alloc: Global, value: &Value) -> Result<CompositeAggregationSource, ReadError>
    ensures { IsReading (λ lenient. IsSourceJson lenient (view value.now))
        (HasUnsupportedKind (view value.now)) result }
{
    let Some((name, named)) = only_member(value) else {
        return Err(ReadError::Grammar);
    };
    let Some((kind, body)) = only_member(named) else {
        return Err(ReadError::Grammar);
    };
    read_kind(alloc, name, kind, body)
}

// The source of a name, by its kind.
fn read_kind(
    alloc: Global,
    name: &str,
    kind: &str,
    body: &Value,
) -> Result<CompositeAggregationSource, ReadError>
    ensures { IsReading (λ lenient. IsSourceOfKind lenient name.now kind.now (view body.now))
        (HasUnsupportedInterval kind.now (view body.now)) result }
{
    match kind {
        "terms" => Ok(CompositeAggregationSource::Terms(read_terms(alloc, name, body)?)),
        "histogram" => Ok(CompositeAggregationSource::Histogram(read_histogram(
            alloc, name, body,
        )?)),
        "date_histogram" => Ok(CompositeAggregationSource::DateHistogram(read_date_histogram(
            alloc, name, body,
        )?)),
        _ => Err(ReadError::Grammar),
    }
}
