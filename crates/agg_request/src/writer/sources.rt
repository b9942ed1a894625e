//! Sources of composites to JSON.
ghost use Rattle.std.specs.Prelude.{◌≡◌, codes, false, true, IfOk, OnOk, option_map};
ghost use Rattle.serde_json.specs.Data.{object};
ghost use Rattle.serde_json.specs.View.{items_view, members_view, view};
ghost use Rattle.agg_request.specs.reading.CompositeJson.{IsSourceBody, IsSourceJson, unit_word};
ghost use Rattle.agg_request.specs.json_values.Json.{alone, EachIs};
ghost use Rattle.agg_request.specs.ReadBack.{IsLeastReadBack, IsWritten};
ghost use Rattle.agg_request.specs.Written.{have_no_null_min, is_null};
ghost use Rattle.agg_request.specs.WrittenJson.{data_of_source, shared_members};
ghost use Rattle.agg_request.specs.WrittenJson.{source_members, with_least, with_text};
ghost use Rattle.agg_request_tree.specs.Source.{min_of};

use super::composite::write_key;
use super::objects::object_of;
use super::words::{missing_order_word, order_word, unit_word, write_interval};
use agg_calendar::CalendarInterval;
use agg_request_tree::{
    CompositeAggregationSource, DateHistogramCompositeAggregationSource,
    HistogramCompositeAggregationSource, TermCompositeAggregationSource,
};
use agg_values::{AfterKey, MissingOrder, Order, OutOfMemory, Text};
use serde_json::{Map, Value, put};
use std::alloc::Global;

/// The array of sources, in their order.
pub fn write_sources(
    alloc: Global,
    sources: &[CompositeAggregationSource],
) -> Result<Vec<Value>, OutOfMemory>
    requires { have_no_null_min sources.now ≡ true }
    ensures { IfOk result
        (λ items. EachIs (IsWritten data_of_source (IsSourceJson false))
        (items_view items.items) sources.now) }
{
    let mut items = Vec::new(alloc);
    for source in sources {
        items.push(write_source(alloc, source)?)?;
    }
    Ok(items)
}

// A source under its name.
fn write_source(alloc: Global, source: &CompositeAggregationSource) -> Result<Value, OutOfMemory>
    requires { is_null (min_of source.now) ≡ false }
    ensures { IfOk result (λ value.
        IsWritten data_of_source (IsSourceJson false) (view value) source.now) }
{
    match source {
        CompositeAggregationSource::Terms(terms) => {
            named(alloc, &terms.name, "terms", write_terms(alloc, terms)?)
        }
        CompositeAggregationSource::Histogram(histogram) => named(
            alloc,
            &histogram.name,
            "histogram",
            write_histogram(alloc, histogram)?,
        ),
        CompositeAggregationSource::DateHistogram(dates) => named(
            alloc,
            &dates.name,
            "date_histogram",
            write_date_histogram(alloc, dates)?,
        ),
    }
}

// A body under its kind, under a name.
fn named(alloc: Global, name: &Text, kind: &str, body: Value) -> Result<Value, OutOfMemory>
    ensures { IfOk result
        (λ value. view value ≡ alone name.now (alone kind.now (view body))) }
{
    object_of(alloc, name.as_str(), object_of(alloc, kind, body)?)
}

// The body of a terms source.
fn write_terms(alloc: Global, source: &TermCompositeAggregationSource) -> Result<Value, OutOfMemory>
    requires { is_null (min_of (CompositeAggregationSource.Terms source.now)) ≡ false }
    ensures written { IfOk result
        (λ value. view value
        ≡ object (source_members (CompositeAggregationSource.Terms source.now))) }
    ensures says { IfOk result
        (λ value. IsSourceBody false source.now.name (view value)
        (CompositeAggregationSource.Terms source.now)) }
{
    let (order, place) = (source.order, source.missing_order);
    let mut body = shared_members(alloc, &source.field, order, source.missing_bucket, place)?;
    put_min(alloc, &mut body, &source.min)?;
    Ok(Value::from(body))
}

// The body of a histogram source.
fn write_histogram(
    alloc: Global,
    source: &HistogramCompositeAggregationSource,
) -> Result<Value, OutOfMemory>
    requires { is_null (min_of (CompositeAggregationSource.Histogram source.now)) ≡ false }
    ensures written { IfOk result
        (λ value. view value
        ≡ object (source_members (CompositeAggregationSource.Histogram source.now))) }
    ensures says { IfOk result
        (λ value. IsSourceBody false source.now.name (view value)
        (CompositeAggregationSource.Histogram source.now)) }
{
    let (order, place) = (source.order, source.missing_order);
    let mut body = shared_members(alloc, &source.field, order, source.missing_bucket, place)?;
    put(
        &mut body,
        alloc,
        "interval",
        write_interval(source.interval),
    )?;
    put_min(alloc, &mut body, &source.min)?;
    Ok(Value::from(body))
}

// The body of a date source, with the intervals that there are.
fn write_date_histogram(
    alloc: Global,
    source: &DateHistogramCompositeAggregationSource,
) -> Result<Value, OutOfMemory>
    requires { is_null (min_of (CompositeAggregationSource.DateHistogram source.now)) ≡ false }
    ensures written { IfOk result
        (λ value. view value
        ≡ object (source_members (CompositeAggregationSource.DateHistogram source.now))) }
    ensures says { IfOk result
        (λ value. IsSourceBody false source.now.name (view value)
        (CompositeAggregationSource.DateHistogram source.now)) }
{
    let (order, place) = (source.order, source.missing_order);
    let mut body = shared_members(alloc, &source.field, order, source.missing_bucket, place)?;
    put_text(alloc, &mut body, "fixed_interval", &source.fixed_interval)?;
    put_calendar(alloc, &mut body, source.calendar_interval)?;
    put_text(alloc, &mut body, "offset", &source.offset)?;
    put_min(alloc, &mut body, &source.min)?;
    Ok(Value::from(body))
}

// The members of the body of any source.
fn shared_members(
    alloc: Global,
    field: &Text,
    order: Order,
    missing_bucket: bool,
    missing_order: MissingOrder,
) -> Result<Map<String, Value>, OutOfMemory>
    ensures { IfOk result (λ body. members_view body.entries
        ≡ shared_members field.now order missing_bucket missing_order) }
{
    let mut body = Map::new(alloc);
    let place = missing_order_word(missing_order);
    put(
        &mut body,
        alloc,
        "field",
        Value::try_from_str(alloc, field.as_str())?,
    )?;
    put(
        &mut body,
        alloc,
        "missing_bucket",
        Value::from(missing_bucket),
    )?;
    put(
        &mut body,
        alloc,
        "missing_order",
        Value::try_from_str(alloc, place)?,
    )?;
    put(
        &mut body,
        alloc,
        "order",
        Value::try_from_str(alloc, order_word(order))?,
    )?;
    Ok(body)
}

// Adds a text under a name, where there is one.
fn put_text(
    alloc: Global,
    body: &mut Map<String, Value>,
    name: &str,
    text: &Option<Text>,
) -> Result<(), OutOfMemory>
    ensures { OnOk result (members_view body.new.entries ≡ with_text name.now
        text.now (members_view body.old.entries)) }
{
    if let Some(text) = text {
        put(
            body,
            alloc,
            name,
            Value::try_from_str(alloc, text.as_str())?,
        )?;
    }
    Ok(())
}

// Adds the least value, where there is one.
fn put_min(
    alloc: Global,
    body: &mut Map<String, Value>,
    min: &Option<AfterKey>,
) -> Result<(), OutOfMemory>
    requires { is_null (option_map (λ key. key.0) min.now) ≡ false }
    ensures written { OnOk result (members_view body.new.entries ≡ with_least min.now
        (members_view body.old.entries)) }
    ensures says { OnOk result (IsLeastReadBack min.now) }
{
    if let Some(key) = min {
        put(body, alloc, "min", write_key(alloc, key)?)?;
    }
    Ok(())
}

// Adds the calendar interval, where there is one.
fn put_calendar(
    alloc: Global,
    body: &mut Map<String, Value>,
    unit: Option<CalendarInterval>,
) -> Result<(), OutOfMemory>
    ensures { OnOk result (members_view body.new.entries ≡ with_text (codes "calendar_interval")
        (option_map unit_word unit) (members_view body.old.entries)) }
{
    if let Some(unit) = unit {
        put(
            body,
            alloc,
            "calendar_interval",
            Value::try_from_str(alloc, unit_word(unit))?,
        )?;
    }
    Ok(())
}
