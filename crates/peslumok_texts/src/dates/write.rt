ghost use Rattle.std.specs.Prelude.{◌≡◌, ◌++◌, ℕ, List, Ok, OnOk, string_bytes};
ghost use Rattle.jiff_core.specs.DateTime.{civil_nanos};
ghost use Rattle.peslumok_texts.specs.dates.Dates as spec;

use jiff_core::civil::DateTime;
use jiff_core::{Offset, Timestamp};
use jiff_fmt::temporal::DateTimePrinter;
use std::alloc::AllocError;

/// Appends the text of a date in UTC: the date alone at midnight, else as `2026-01-01T12:30:00Z`
/// with as many places of a fraction as it needs.
pub fn write_date(out: &mut String, nanos: i64) -> Result<(), AllocError>
    ensures text { OnOk result (
        (text : List ℕ)
        × (string_bytes out.new ≡ string_bytes out.old ++ text)
        × spec.IsDateText nanos text) }
    ensures reads_back { OnOk result (
        (text : List ℕ)
        × (string_bytes out.new ≡ string_bytes out.old ++ text)
        × (spec.date_of text ≡ Ok nanos)) }
{
    write_clock(out, in_utc(nanos))
}

// Appends what a clock in UTC shows: the date alone at midnight, else the time too.
fn write_clock(out: &mut String, shown: DateTime) -> Result<(), AllocError>
    ensures { OnOk result (string_bytes out.new ≡ string_bytes out.old ++ spec.clock_text shown) }
{
    let printer = DateTimePrinter::new();
    if shown.time.to_nanosecond() == 0 {
        return out.push_str(printer.date_text(shown.date).as_str());
    }
    out.push_str(printer.datetime_text(shown).as_str())?;
    out.push('Z')
}

// What a clock in UTC shows.
fn in_utc(nanos: i64) -> DateTime
    ensures { civil_nanos result ≡ nanos }
{
    Offset::UTC.to_datetime(timestamp(nanos))
}

// The instant of that number.
fn timestamp(nanos: i64) -> Timestamp
    ensures { result.nanosecond ≡ nanos }
{
    Timestamp {
        nanosecond: i128::from(nanos),
    }
}
