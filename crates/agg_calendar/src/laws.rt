//! What holds of starts and of texts, as their definitions say it.
ghost use Rattle.std.specs.Prelude.{◌≡◌, ◌↔◌, List, ℕ, ℤ, pos, ◌+ℤ◌, ◌*ℤ◌, ◌<ℤ◌, ◌≤ℤ◌, Ok};
ghost use Rattle.jiff_core.specs.Calendar.{IsEpochDay};
ghost use Rattle.jiff_core.specs.Timestamp.{IsTimestampNanos};
ghost use Rattle.agg_values.specs.Laws.{IsSameness};
ghost use Rattle.agg_calendar.specs.FirstDay.{IsGreatestFirstDay};
ghost use Rattle.agg_calendar.specs.FirstDaySearch.{greatest_first_day};
ghost use Rattle.agg_calendar.specs.IntervalText.{read_interval, read_offset};
ghost use Rattle.agg_calendar.specs.IntervalText.{IsIntervalText, IsOffsetText};
ghost use Rattle.agg_calendar.specs.Start.{fixed_start, start_of, IsStart, IsUsable};
ghost use Rattle.agg_calendar.specs.Start.{PrecomputedDateInterval};
ghost use Rattle.agg_calendar.specs.declared.interval.CalendarInterval.{CalendarInterval};

use crate::{CalendarInterval, StartError};

/// What is read of a text is digits and a unit.
pub fn interval_texts_are_digits_and_a_unit()
    ensures { (text : List ℕ) (ms : ℤ) → (read_interval text ≡ Ok ms) ↔ IsIntervalText text ms }
{}

/// What is read of an offset text is an interval text after a sign or none.
pub fn offset_texts_are_interval_texts_with_a_sign()
    ensures { (text : List ℕ) (ms : ℤ) → (read_offset text ≡ Ok ms) ↔ IsOffsetText text ms }
{}

/// The function that gives starts gives the one that there is.
pub fn each_timestamp_has_one_start()
    ensures { (interval : PrecomputedDateInterval) (ns start : ℤ)
        → IsUsable interval
        → IsTimestampNanos ns
        → IsStart interval ns start ↔ (start ≡ start_of interval ns) }
{}

/// The search for first days finds the greatest one, and there is no other.
pub fn starts_are_of_first_days()
    ensures greatest { (interval : CalendarInterval) (day : ℤ)
        → IsEpochDay day
        → IsGreatestFirstDay interval day (greatest_first_day interval day) }
    ensures unique { (interval : CalendarInterval) (day first other : ℤ)
        → IsGreatestFirstDay interval day first
        → IsGreatestFirstDay interval day other
        → first ≡ other }
{}

/// A fixed start is the greatest multiple of its interval that is at most the value, and the value
/// is less than an interval above it.
pub fn fixed_starts_are_the_greatest_multiples()
    ensures at_most { (interval value : ℤ)
        → pos 1 ≤ℤ interval
        → fixed_start interval value ≤ℤ value }
    ensures above { (interval value : ℤ)
        → pos 1 ≤ℤ interval
        → value <ℤ (fixed_start interval value +ℤ interval) }
    ensures greatest { (interval value times : ℤ)
        → pos 1 ≤ℤ interval
        → (interval *ℤ times) ≤ℤ value
        → (interval *ℤ times) ≤ℤ fixed_start interval value }
{}

/// A start is at most its timestamp, and starts ascend with their timestamps.
pub fn starts_ascend_with_their_values()
    ensures at_most { (interval : PrecomputedDateInterval) (ns : ℤ)
        → IsUsable interval
        → IsTimestampNanos ns
        → start_of interval ns ≤ℤ ns }
    ensures ascending { (interval : PrecomputedDateInterval) (ns later : ℤ)
        → IsUsable interval
        → IsTimestampNanos ns
        → IsTimestampNanos later
        → ns ≤ℤ later
        → start_of interval ns ≤ℤ start_of interval later }
{}

/// Equality goes by variant.
pub fn units_and_errors_are_equal_by_variant()
    ensures units { IsSameness ⟦<CalendarInterval as PartialEq>⟧.eq }
    ensures errors { IsSameness ⟦<StartError as PartialEq>⟧.eq }
{}
