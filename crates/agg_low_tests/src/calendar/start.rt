use agg_calendar::{
    CalendarInterval, PrecomputedDateInterval, StartError, fixed_bucket, try_month_bucket,
    try_year_bucket, week_bucket,
};
use agg_expect::expect_equal_for;
use std::test::Fail;

const OUT: Result<i64, StartError> = Err(StartError::BucketOutOfRange);

// Moments with the days that they lie in, and the starts of their years.
const YEARS: &[(&str, i64, Result<i64, StartError>)] = &[
    (
        "2008-12-31",
        1_230_767_999_999_999_999,
        Ok(1_199_145_600_000_000_000),
    ),
    (
        "1972-06-01",
        76_205_400_000_000_000,
        Ok(63_072_000_000_000_000),
    ),
    ("1970-01-01", 0, Ok(0)),
    ("1970-06-01", 13_082_401_010_000_000, Ok(0)),
    (
        "2008-01-01",
        1_199_145_600_000_000_000,
        Ok(1_199_145_600_000_000_000),
    ),
    (
        "2010-12-31",
        1_293_839_999_999_999_999,
        Ok(1_262_304_000_000_000_000),
    ),
    ("1969-12-31", -1, Ok(-31_536_000_000_000_000)),
    (
        "1900-03-01",
        -2_203_891_200_000_000_000,
        Ok(-2_208_988_800_000_000_000),
    ),
    (
        "2000-02-29",
        951_868_799_999_999_999,
        Ok(946_684_800_000_000_000),
    ),
    (
        "2000-12-31",
        978_307_199_999_999_999,
        Ok(946_684_800_000_000_000),
    ),
    (
        "2001-01-01",
        978_307_200_000_000_000,
        Ok(978_307_200_000_000_000),
    ),
    (
        "2100-12-31",
        4_133_980_799_999_999_999,
        Ok(4_102_444_800_000_000_000),
    ),
    (
        "1678-01-01",
        -9_214_560_000_000_000_000,
        Ok(-9_214_560_000_000_000_000),
    ),
    ("1677-12-31", -9_214_560_000_000_000_001, OUT),
    ("1677-09-21", i64::MIN, OUT),
    ("2262-04-11", i64::MAX, Ok(9_214_646_400_000_000_000)),
];

#[test]
fn years_begin_on_their_first_of_january() -> Result<(), Fail> {
    for &(day, ns, start) in YEARS {
        expect_equal_for(day, try_year_bucket(ns), start)?;
    }
    Ok(())
}

// Moments with the days that they lie in, and the starts of their months.
const MONTHS: &[(&str, i64, Result<i64, StartError>)] = &[
    ("1970-01-15", 1_209_600_000_000_000, Ok(0)),
    (
        "1970-02-01",
        2_678_400_000_000_000,
        Ok(2_678_400_000_000_000),
    ),
    (
        "2000-01-31",
        949_363_199_999_999_999,
        Ok(946_684_800_000_000_000),
    ),
    ("1969-12-31", -1, Ok(-2_678_400_000_000_000)),
    (
        "1900-02-28",
        -2_203_891_200_000_000_001,
        Ok(-2_206_310_400_000_000_000),
    ),
    (
        "1900-03-01",
        -2_203_891_200_000_000_000,
        Ok(-2_203_891_200_000_000_000),
    ),
    (
        "2000-02-29",
        951_868_799_999_999_999,
        Ok(949_363_200_000_000_000),
    ),
    (
        "2000-03-01",
        951_868_800_000_000_000,
        Ok(951_868_800_000_000_000),
    ),
    (
        "2100-02-28",
        4_107_542_399_999_999_999,
        Ok(4_105_123_200_000_000_000),
    ),
    (
        "2100-03-01",
        4_107_542_400_000_000_000,
        Ok(4_107_542_400_000_000_000),
    ),
    (
        "1677-10-01",
        -9_222_508_800_000_000_000,
        Ok(-9_222_508_800_000_000_000),
    ),
    ("1677-09-30", -9_222_508_800_000_000_001, OUT),
    ("1677-09-21", i64::MIN, OUT),
    ("2262-04-11", i64::MAX, Ok(9_222_422_400_000_000_000)),
];

#[test]
fn months_begin_on_their_first() -> Result<(), Fail> {
    for &(day, ns, start) in MONTHS {
        expect_equal_for(day, try_month_bucket(ns), start)?;
    }
    Ok(())
}

// Moments with the days that they lie in, and the starts of their weeks.
const WEEKS: &[(&str, i64, Result<i64, StartError>)] = &[
    ("1970-01-05", 345_600_000_000_000, Ok(345_600_000_000_000)),
    ("1970-01-05", 431_999_000_000_000, Ok(345_600_000_000_000)),
    ("1970-01-07", 522_780_000_000_000, Ok(345_600_000_000_000)),
    ("1970-01-11", 950_399_999_999_999, Ok(345_600_000_000_000)),
    (
        "2025-10-16",
        1_760_611_319_010_000_000,
        Ok(1_760_313_600_000_000_000),
    ),
    ("1970-01-01", 0, Ok(-259_200_000_000_000)),
    ("1969-12-31", -1, Ok(-259_200_000_000_000)),
    ("1969-12-28", -259_200_000_000_001, Ok(-864_000_000_000_000)),
    (
        "1900-01-01",
        -2_208_988_800_000_000_000,
        Ok(-2_208_988_800_000_000_000),
    ),
    (
        "2000-02-29",
        951_782_400_000_000_000,
        Ok(951_696_000_000_000_000),
    ),
    (
        "2024-12-31",
        1_735_603_200_000_000_000,
        Ok(1_735_516_800_000_000_000),
    ),
    (
        "2025-01-05",
        1_736_121_599_999_999_999,
        Ok(1_735_516_800_000_000_000),
    ),
    (
        "2025-01-06",
        1_736_121_600_000_000_000,
        Ok(1_736_121_600_000_000_000),
    ),
    (
        "2100-01-01",
        4_102_444_800_000_000_000,
        Ok(4_102_099_200_000_000_000),
    ),
    (
        "1677-09-27",
        -9_222_854_400_000_000_000,
        Ok(-9_222_854_400_000_000_000),
    ),
    ("1677-09-26", -9_222_854_400_000_000_001, OUT),
    ("1677-09-21", i64::MIN, OUT),
    ("2262-04-11", i64::MAX, Ok(9_222_940_800_000_000_000)),
];

#[test]
fn weeks_begin_on_monday() -> Result<(), Fail> {
    for &(day, ns, start) in WEEKS {
        expect_equal_for(day, week_bucket(ns), start)?;
    }
    Ok(())
}

// Values and intervals, and the starts of the values.
const FIXED: &[(i128, i64, Result<i64, StartError>)] = &[
    (-1, 86_400_000_000_000, Ok(-86_400_000_000_000)),
    (-1, 10, Ok(-10)),
    (-10, 10, Ok(-10)),
    (9, 10, Ok(0)),
    (10, 10, Ok(10)),
    (9_223_372_036_854_775_809, 10, Ok(9_223_372_036_854_775_800)),
    (18_446_744_073_709_551_615, 1, OUT),
    (18_446_744_073_709_551_615, i64::MAX, OUT),
    (9_223_372_036_854_775_807, i64::MAX, Ok(i64::MAX)),
    (-1, i64::MAX, Ok(-i64::MAX)),
    (-9_223_372_036_854_775_808, 1, Ok(i64::MIN)),
    (-9_223_372_036_854_775_808, 3, OUT),
    (-9_223_372_036_854_775_808, i64::MAX, OUT),
];

#[test]
fn fixed_starts_are_rounded_down() -> Result<(), Fail> {
    for &(value, interval, start) in FIXED {
        expect_equal_for((value, interval), fixed_bucket(value, interval), start)?;
    }
    Ok(())
}

// Intervals and moments, and the starts of these.
const BY_INTERVAL: &[(PrecomputedDateInterval, i64, Result<i64, StartError>)] = &[
    (
        PrecomputedDateInterval::NotApplicable,
        i64::MIN,
        Ok(i64::MIN),
    ),
    (PrecomputedDateInterval::NotApplicable, 7, Ok(7)),
    (
        PrecomputedDateInterval::FixedNanoseconds(1_000_000),
        -1,
        Ok(-1_000_000),
    ),
    (
        PrecomputedDateInterval::FixedNanoseconds(1_000_000),
        i64::MIN,
        OUT,
    ),
    (
        PrecomputedDateInterval::Calendar(CalendarInterval::Year),
        -1,
        Ok(-31_536_000_000_000_000),
    ),
    (
        PrecomputedDateInterval::Calendar(CalendarInterval::Month),
        -1,
        Ok(-2_678_400_000_000_000),
    ),
    (
        PrecomputedDateInterval::Calendar(CalendarInterval::Week),
        -1,
        Ok(-259_200_000_000_000),
    ),
    (
        PrecomputedDateInterval::Calendar(CalendarInterval::Week),
        i64::MIN,
        OUT,
    ),
];

#[test]
fn starts_go_by_the_interval() -> Result<(), Fail> {
    for &(interval, ns, start) in BY_INTERVAL {
        expect_equal_for((interval, ns), interval.start(ns), start)?;
    }
    Ok(())
}
