use agg_calendar::{CalendarInterval, PrecomputedDateInterval};
use agg_expect::expect_equal;
use agg_values::{
    AggregationError, DateHistogramParseError, InvalidArgument, OutOfMemory, RequestError, Text,
};
use std::alloc::Global;
use std::test::Fail;

// The nanoseconds of a fixed interval, or a unit of the calendar.
type Parts = (Option<i64>, Option<CalendarInterval>);

// The fixed and the calendar interval of a source, and the parts of the one that it takes.
const TAKEN: &[(Option<&str>, Option<CalendarInterval>, Parts)] = &[
    (Some("1ms"), None, (Some(1_000_000), None)),
    (
        Some("106751d"),
        None,
        (Some(9_223_286_400_000_000_000), None),
    ),
    (
        None,
        Some(CalendarInterval::Year),
        (None, Some(CalendarInterval::Year)),
    ),
    (
        None,
        Some(CalendarInterval::Month),
        (None, Some(CalendarInterval::Month)),
    ),
    (
        None,
        Some(CalendarInterval::Week),
        (None, Some(CalendarInterval::Week)),
    ),
];

// Intervals of sources that may not be asked, and why.
const REFUSED: &[(Option<&str>, Option<CalendarInterval>, InvalidArgument)] = &[
    (None, None, InvalidArgument::IntervalChoice),
    (
        Some("2y"),
        Some(CalendarInterval::Week),
        InvalidArgument::IntervalChoice,
    ),
    (Some("0d"), None, InvalidArgument::BadInterval),
];

fn parts(interval: PrecomputedDateInterval) -> Parts {
    match interval {
        PrecomputedDateInterval::NotApplicable => (None, None),
        PrecomputedDateInterval::FixedNanoseconds(ns) => (Some(ns), None),
        PrecomputedDateInterval::Calendar(unit) => (None, Some(unit)),
    }
}

// What is answered to a fixed and a calendar interval.
fn answer(
    alloc: Global,
    fixed: Option<&str>,
    calendar: Option<CalendarInterval>,
) -> Result<Result<Parts, RequestError>, OutOfMemory> {
    let text = match fixed {
        Some(fixed) => Some(Text::copy_of(alloc, fixed)?),
        None => None,
    };
    let made = PrecomputedDateInterval::from_date_histogram_source_intervals(
        alloc,
        text.as_ref(),
        calendar,
    );
    Ok(made.map(parts))
}

#[test]
fn takes_the_one_interval_that_is_set(rt: HostRuntime) -> Result<(), Fail> {
    for &(fixed, calendar, expected) in TAKEN {
        expect_equal(answer(rt.alloc(), fixed, calendar)?, Ok(expected))?;
    }
    Ok(())
}

#[test]
fn refuses_other_choices(rt: HostRuntime) -> Result<(), Fail> {
    for &(fixed, calendar, fault) in REFUSED {
        let refusal = Err(RequestError::Invalid(fault));
        expect_equal(answer(rt.alloc(), fixed, calendar)?, refusal)?;
    }
    Ok(())
}

#[test]
fn passes_the_fault_of_a_text_on(rt: HostRuntime) -> Result<(), Fail> {
    let alloc = rt.alloc();
    let unit = DateHistogramParseError::UnitNotRecognized(Text::copy_of(alloc, "y")?);
    let refusal = Err(RequestError::Aggregation(AggregationError::from(unit)));
    expect_equal(answer(alloc, Some("2y"), None)?, refusal)
}
