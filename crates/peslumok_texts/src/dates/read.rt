ghost use Rattle.std.specs.Prelude.{◌≡◌, ℤ, ◌+ℤ◌, ◌-ℤ◌, ◌*ℤ◌, ◌*◌, ◌^◌, ◌<◌, pos, neg_ℤ};
ghost use Rattle.std.specs.Prelude.{◌==◌, ◌&&◌, option_map};
ghost use Rattle.jiff_core.specs.Calendar.{IsBetween};
ghost use Rattle.jiff_core.specs.Timestamp.{nanos_of_seconds};
ghost use Rattle.jiff_fmt.specs.Temporal as temporal;
ghost use Rattle.peslumok_texts.specs.dates.Dates as spec;

use crate::dates::DateError;
use jiff_core::civil::{Date, Time};
use jiff_fmt::temporal::{Pieces, PiecesOffset, parse_pieces, parser};

/// The nanoseconds since 1970 of a date's text. With no offset it is in UTC, with no time it is at
/// midnight.
pub fn read_date(text: &str) -> Result<i64, DateError>
    ensures { result ≡ spec.date_of text.now }
{
    match parse_pieces(text.as_bytes()) {
        Ok(pieces) => of_pieces(text.as_bytes(), pieces),
        Err(_) => Err(DateError::NotADate),
    }
}

// The nanoseconds since 1970 of what a text wrote.
fn of_pieces(text: &[u8], pieces: Pieces<'_>) -> Result<i64, DateError>
    ensures { result ≡ spec.without_zone
        text.now
        (temporal.pieces_view pieces.entry)
        (temporal.annotation_view pieces.entry) }
{
    match pieces.time_zone_annotation {
        Some(_) => Err(DateError::NamesAZone),
        None => {
            if has_second_sixty(text, pieces.time) {
                return Err(DateError::SecondSixty);
            }
            in_range(
                local_nanos(pieces.date, pieces.time),
                offset_nanos(pieces.offset),
            )
        }
    }
}

// Whether the text of a time that was read has a 60th second, which is read as the 59th.
fn has_second_sixty(text: &[u8], time: Option<Time>) -> bool
    ensures { result ≡ spec.has_second_sixty
        text.now
        (temporal.time_or_midnight (option_map temporal.time_parts time)) }
{
    match time {
        Some(time) => time.second == 59 && writes_sixty_after_date(text),
        None => false,
    }
}

fn writes_sixty_after_date(text: &[u8]) -> bool
    ensures { result ≡ spec.writes_sixty_after (temporal.date_spec text.now) }
{
    match parser::parse_date_spec(text) {
        Ok((_, [_, time @ ..])) => writes_sixty(time),
        _ => false,
    }
}

// Whether 60 stands for the seconds of a time, as in `235960` and `23:59:60`.
fn writes_sixty(time: &[u8]) -> bool
    ensures { result ≡ spec.writes_sixty time.now }
{
    time.len() > 5 && (time[4..].starts_with(b"60") || time[5..].starts_with(b":60"))
}

// The nanoseconds since 1970 on a clock that shows a date and a time, or midnight.
fn local_nanos(date: Date, time: Option<Time>) -> i128
    ensures bound { IsBetween (neg_ℤ (pos (2 ^ 62 * 1_000))) (pos (2 ^ 62 * 1_000)) result }
    ensures value { result ≡ temporal.parts_nanos
        (temporal.date_parts date)
        (temporal.time_or_midnight (option_map temporal.time_parts time)) }
{
    let days = i128::from(date.to_unix_epoch_day());
    days * 86_400_000_000_000 + i128::from(clock_nanos(time))
}

// The nanoseconds since midnight.
fn clock_nanos(time: Option<Time>) -> u64
    ensures bound { result < 86_400_000_000_000 }
    ensures value { result ≡ spec.clock_of
        (temporal.time_or_midnight (option_map temporal.time_parts time)) }
{
    match time {
        Some(time) => time.to_nanosecond(),
        None => 0,
    }
}

// The nanoseconds that an offset is east of UTC.
fn offset_nanos(offset: Option<PiecesOffset>) -> i128
    ensures value { result ≡ nanos_of_seconds
        (spec.seconds_east (option_map temporal.offset_piece_view offset)) }
    ensures bound { IsBetween (neg_ℤ (pos (2 ^ 62))) (pos (2 ^ 62)) result }
{
    match offset {
        Some(offset) => i128::from(offset.to_numeric_offset().seconds) * 1_000_000_000,
        None => 0,
    }
}

// The difference of a clock and its offset, where it has 64 bits.
fn in_range(local: i128, offset: i128) -> Result<i64, DateError>
    requires local_in { IsBetween (neg_ℤ (pos (2 ^ 62 * 1_000))) (pos (2 ^ 62 * 1_000)) local }
    requires offset_in { IsBetween (neg_ℤ (pos (2 ^ 62))) (pos (2 ^ 62)) offset }
    ensures { result ≡ spec.in_range (local -ℤ offset) }
{
    match i64::try_from(local - offset) {
        Ok(nanos) => Ok(nanos),
        Err(_) => Err(DateError::OutOfRange),
    }
}
