//! Date sources.
ghost use Rattle.std.specs.Prelude.{◌≡◌, ◌≢◌, IfNone, IfSome, Some, codes};
ghost use Rattle.serde_json.specs.Find.{as_str};
ghost use Rattle.serde_json.specs.View.{view};
ghost use Rattle.agg_calendar.specs.declared.interval.CalendarInterval.{CalendarInterval as Unit};
ghost use Rattle.agg_request.specs.reading.CompositeJson.{IsSourceBody};
ghost use Rattle.agg_request.specs.reading.Unsupported.{HasUnsupportedLeast};
ghost use Rattle.agg_request.specs.reading.CompositeJson.{unit_word};
ghost use Rattle.agg_request.specs.json_values.Json.{IsGiven, present};
ghost use Rattle.agg_request.specs.json_values.Reading.{IsReading};
ghost use Rattle.agg_request_tree.specs.declared.source.CompositeAggregationSource.TheVariants as s;

use crate::json_values::ReadError;
use crate::json_values::json_value::present;
use crate::json_values::members::read_field;
use crate::reading::composite::words::{min, missing_bucket, missing_order, order, text_at};
use agg_calendar::CalendarInterval;
use agg_request_tree::DateHistogramCompositeAggregationSource;
use agg_values::Text;
use serde_json::Value;
use std::alloc::Global;

/// The date source of a name.
pub fn read_date_histogram(
    alloc: Global,
    name: &str,
    body: &Value,
) -> Result<DateHistogramCompositeAggregationSource, ReadError>
    ensures { IsReading (λ lenient dates. IsSourceBody lenient name.now (view body.now)
        (s.DateHistogram dates)) (HasUnsupportedLeast (view body.now)) result }
{
    Ok(DateHistogramCompositeAggregationSource {
        name: Text::copy_of(alloc, name)?,
        field: read_field(alloc, body)?,
        fixed_interval: text_at(alloc, body, "fixed_interval")?,
        calendar_interval: calendar_interval(body)?,
        offset: text_at(alloc, body, "offset")?,
        order: order(body)?,
        missing_bucket: missing_bucket(body)?,
        missing_order: missing_order(body)?,
        min: min(alloc, body)?,
    })
}

// The calendar interval, where it is there.
fn calendar_interval(body: &Value) -> Result<Option<CalendarInterval>, ReadError>
    ensures { IsReading (λ lenient. IsGiven (λ d unit. as_str d ≡ Some (unit_word unit))
        (present (codes "calendar_interval") (view body.now))) ⊥ result }
{
    let Some(found) = present(body, "calendar_interval") else {
        return Ok(None);
    };
    let Some(word) = found.as_str() else {
        return Err(ReadError::Grammar);
    };
    let Some(unit) = unit_of(word) else {
        return Err(ReadError::Grammar);
    };
    Ok(Some(unit))
}

// The unit of a word.
fn unit_of(word: &str) -> Option<CalendarInterval>
    ensures some { IfSome result (λ unit. unit_word unit ≡ word.now) }
    ensures none { IfNone result ((unit : Unit) → unit_word unit ≢ word.now) }
{
    match word {
        "year" => Some(CalendarInterval::Year),
        "month" => Some(CalendarInterval::Month),
        "week" => Some(CalendarInterval::Week),
        _ => None,
    }
}
