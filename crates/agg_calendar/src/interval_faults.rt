//! What is wrong with the text of a fixed interval, in words.
use agg_values::{AggregationError, DateHistogramParseError, OutOfMemory, RequestError, Text};

/// Appends why a text is no fixed interval, after the text itself; the fault is what refused it.
pub fn write_interval_fault(
    out: &mut String,
    text: &Text,
    fault: &RequestError,
) -> Result<(), OutOfMemory> {
    write!(out, "interval '{}': ", text.as_str())?;
    match fault {
        RequestError::Aggregation(AggregationError::DateHistogramParseError(part)) => {
            write_text_fault(out, part)
        }
        _ => Ok(out.push_str("one millisecond is the least")?),
    }
}

/// Appends why a text is no offset, after the text itself; the fault is what refused it.
pub fn write_offset_fault(
    out: &mut String,
    text: &Text,
    fault: &RequestError,
) -> Result<(), OutOfMemory> {
    write!(out, "offset '{}': ", text.as_str())?;
    match fault {
        RequestError::Aggregation(AggregationError::DateHistogramParseError(part)) => {
            write_text_fault(out, part)
        }
        _ => Ok(out.push_str("this is no offset")?),
    }
}

// What is wrong with the text.
fn write_text_fault(out: &mut String, part: &DateHistogramParseError) -> Result<(), OutOfMemory> {
    match part {
        DateHistogramParseError::UnitNotRecognized(unit) => {
            write!(out, "'{}' is no unit; use ms, s, m, h or d", unit.as_str())?;
        }
        DateHistogramParseError::NumberMissing(_) => {
            out.push_str("a number up to 9223372036854775807 has to stand in front")?;
        }
        DateHistogramParseError::UnitMissing(_) => {
            out.push_str("no unit stands after the number; use ms, s, m, h or d")?;
        }
        DateHistogramParseError::OutOfBounds(_) => {
            out.push_str("more than 9223372036854775807 nanoseconds")?;
        }
        DateHistogramParseError::InvalidOffset(_) => out.push_str(
            "an offset is a time with a sign or none, as 6h or -1d",
        )?,
    }
    Ok(())
}
