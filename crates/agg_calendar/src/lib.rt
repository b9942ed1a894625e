//! Starts of calendar and fixed buckets, and the texts of intervals and offsets.
#![tactic(auto)]

mod error;
mod interval;
pub mod interval_faults;
mod interval_text;
mod laws;
mod start;

pub use error::StartError;
pub use interval::{CalendarInterval, PrecomputedDateInterval, date_division};
pub use interval_text::{parse_into_milliseconds, parse_offset_into_milliseconds};
pub use laws::{
    each_timestamp_has_one_start, fixed_starts_are_the_greatest_multiples,
    interval_texts_are_digits_and_a_unit, offset_texts_are_interval_texts_with_a_sign,
    starts_are_of_first_days, starts_ascend_with_their_values,
    units_and_errors_are_equal_by_variant,
};
pub use start::{fixed_bucket, try_month_bucket, try_year_bucket, week_bucket};
