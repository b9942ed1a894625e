//! What sources divide values by, and the starts of buckets as numbers of lanes.
ghost use Rattle.std.specs.Prelude.{◌≡◌, ◌↔◌, ◌≤ℤ◌, ℤ, IfSome, IsTrue, Option, option_map};
ghost use Rattle.std.specs.Prelude.{pos};
ghost use Rattle.agg_calendar.specs.Start.{IsUsable, fixed_start, start_with_offset};
ghost use Rattle.agg_segment.specs.storage.Columns.{encoded_key};
ghost use Rattle.agg_request_tree.specs.Source.{counted_number, date_of};
ghost use Rattle.agg_composite.specs.accessor.Ranges.{IsKeyWithin, divisor_at};
ghost use Rattle.agg_composite.specs.accessor.Starts.{CanDivide, GivesStartOf, IsCountable};
ghost use Rattle.agg_composite.specs.accessor.Starts.{by_numbers, by_time, divided, divisor_of};
ghost use Rattle.agg_composite.specs.accessor.Starts.{lane_number, start_number};

use crate::accessor::CompositeAccessor;
use crate::accessor::numbers::{moved_down, moved_up};
use agg_calendar::{PrecomputedDateInterval, StartError, fixed_bucket};
use agg_request_tree::CompositeAggregationSource;
use agg_segment::{Column, ColumnType};

/// What values are divided by.
#[derive(Clone, Copy, Debug)]
pub enum Divisor {
    /// Values stay as they are.
    Nothing,
    /// Numbers, and dates in milliseconds, by the width of a bucket.
    Numbers(i64),
    /// Dates by an interval, whose buckets begin so many nanoseconds later.
    Time(PrecomputedDateInterval, i64),
}

/// A column of an accessor, with what its source divides the values by.
#[derive(Clone, Copy)]
pub struct DividedColumn<'s> {
    pub column: &'s Column,
    pub divisor: Divisor,
}

impl<'s> DividedColumn<'s> {
    /// The column of an accessor. Nothing divides it where the source's interval is below one.
    pub fn new(
        source: &CompositeAggregationSource,
        accessor: &CompositeAccessor<'s>,
    ) -> DividedColumn<'s>
        ensures column { result.column.now ≡ accessor.now.column.now }
        ensures divisor { result.divisor ≡ divisor_at source.now accessor.now }
        ensures can { CanDivide result.divisor }
    {
        DividedColumn {
            column: accessor.column,
            divisor: divisor_of(
                source,
                accessor.date_histogram_interval,
                accessor.date_offset_ns,
            ),
        }
    }

    /// The number of a lane for a number of the column: that of its start, 0 where it has none
    /// within 64 bits.
    pub fn lane_number(&self, number: u64) -> u64
        requires { CanDivide self.now.divisor }
        ensures { result ≡ lane_number self.now.divisor self.now.column.now.keys number }
    {
        match self.divisor {
            Divisor::Nothing => number,
            _ => number_of(self.start(number)),
        }
    }

    /// Whether the start of a number's bucket, if it has one, lies within 64 bits.
    pub fn is_in_range(&self, number: u64) -> bool
        requires { CanDivide self.now.divisor }
        ensures { IsTrue result
            ↔ IsKeyWithin self.now.divisor (encoded_key self.now.column.now.keys number) }
    {
        self.start(number).is_ok()
    }

    // The start of a number's bucket, if it has one.
    fn start(&self, number: u64) -> Result<Option<i64>, StartError>
        requires { CanDivide self.now.divisor }
        ensures { GivesStartOf
            (divided self.now.divisor (encoded_key self.now.column.now.keys number)) result }
    {
        match self.divisor {
            Divisor::Nothing => Ok(None),
            Divisor::Numbers(width) => start_of_number(width, counted_number(self.column, number)),
            Divisor::Time(interval, offset_ns) => {
                start_of_date(interval, offset_ns, date_of(self.column, number))
            }
        }
    }
}

fn divisor_of(
    source: &CompositeAggregationSource,
    interval: PrecomputedDateInterval,
    offset_ns: i64,
) -> Divisor
    ensures divisor { result ≡ divisor_of source.now interval offset_ns }
    ensures can { CanDivide result }
{
    match source {
        CompositeAggregationSource::Terms(_) => Divisor::Nothing,
        CompositeAggregationSource::Histogram(histogram) => by_numbers(histogram.interval),
        CompositeAggregationSource::DateHistogram(_) => by_time(interval, offset_ns),
    }
}

fn by_numbers(width: i64) -> Divisor
    ensures divisor { result ≡ by_numbers width }
    ensures can { CanDivide result }
{
    if width < 1 {
        return Divisor::Nothing;
    }
    Divisor::Numbers(width)
}

fn by_time(interval: PrecomputedDateInterval, offset_ns: i64) -> Divisor
    ensures divisor { result ≡ by_time interval offset_ns }
    ensures can { CanDivide result }
{
    match interval {
        PrecomputedDateInterval::FixedNanoseconds(ns) if ns < 1 => Divisor::Nothing,
        _ => Divisor::Time(interval, offset_ns),
    }
}

// A number of a column, or its date in milliseconds rounded down.
fn counted_number(column: &Column, number: u64) -> Option<i128>
    ensures counted { result ≡ counted_number (encoded_key column.now.keys number) }
    ensures countable { IfSome result IsCountable }
{
    match column.column_type() {
        ColumnType::I64 => Some(i128::from(moved_down(number))),
        ColumnType::U64 => Some(i128::from(number)),
        ColumnType::DateTime => Some(i128::from(moved_down(number)).div_euclid(1_000_000)),
        _ => None,
    }
}

// The date of a number of a column, in nanoseconds.
fn date_of(column: &Column, number: u64) -> Option<i64>
    ensures { result ≡ date_of (encoded_key column.now.keys number) }
{
    match column.column_type() {
        ColumnType::DateTime => Some(moved_down(number)),
        _ => None,
    }
}

fn start_of_number(width: i64, counted: Option<i128>) -> Result<Option<i64>, StartError>
    requires width { pos 1 ≤ℤ width }
    requires countable { IfSome counted IsCountable }
    ensures { GivesStartOf (option_map (fixed_start width) counted) result }
{
    match counted {
        Some(counted) => Ok(Some(fixed_bucket(counted, width)?)),
        None => Ok(None),
    }
}

fn start_of_date(
    interval: PrecomputedDateInterval,
    offset_ns: i64,
    date: Option<i64>,
) -> Result<Option<i64>, StartError>
    requires { IsUsable interval }
    ensures { GivesStartOf (option_map (start_with_offset interval offset_ns) date) result }
{
    match date {
        Some(ns) => Ok(Some(interval.start_with_offset(ns, offset_ns)?)),
        None => Ok(None),
    }
}

// The number of a lane for a start, 0 where there is none.
fn number_of(start: Result<Option<i64>, StartError>) -> u64
    ensures { (exact : Option ℤ) → GivesStartOf exact start → result ≡ start_number exact }
{
    match start {
        Ok(Some(start)) => moved_up(start),
        _ => 0,
    }
}
