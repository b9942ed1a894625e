//! Words and numbers as JSON.
ghost use Rattle.std.specs.Prelude.{◌≡◌, false};
ghost use Rattle.serde_json.specs.Data.{number, unsigned};
ghost use Rattle.serde_json.specs.Find.{of_integer};
ghost use Rattle.serde_json.specs.View.{view};
ghost use Rattle.agg_request.specs.reading.CompositeJson.{missing_order_word, order_word};
ghost use Rattle.agg_request.specs.reading.CompositeJson.{unit_word};
ghost use Rattle.agg_request.specs.json_values.Json.{IsWhole, small_number, whole_number};

use agg_calendar::CalendarInterval;
use agg_values::{MissingOrder, Order};
use serde_json::Value;

/// The word for an order.
pub fn order_word(order: Order) -> &'static str
    ensures { result.now ≡ order_word order }
{
    match order {
        Order::Asc => "asc",
        Order::Desc => "desc",
    }
}

/// The word for a missing order.
pub fn missing_order_word(place: MissingOrder) -> &'static str
    ensures { result.now ≡ missing_order_word place }
{
    match place {
        MissingOrder::Default => "default",
        MissingOrder::First => "first",
        MissingOrder::Last => "last",
    }
}

/// The word for a unit of the calendar.
pub fn unit_word(unit: CalendarInterval) -> &'static str
    ensures { result.now ≡ unit_word unit }
{
    match unit {
        CalendarInterval::Year => "year",
        CalendarInterval::Month => "month",
        CalendarInterval::Week => "week",
    }
}

/// The number that an interval is.
pub fn write_interval(interval: i64) -> Value
    ensures written { view result ≡ number (of_integer interval) }
    ensures says { IsWhole whole_number false (view result) interval }
{
    Value::from(interval)
}

/// The number that a size is.
pub fn write_size(size: u32) -> Value
    ensures written { view result ≡ number (unsigned size) }
    ensures says { IsWhole small_number false (view result) size }
{
    Value::from(size)
}
