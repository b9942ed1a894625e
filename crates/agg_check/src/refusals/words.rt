//! Refusals of walks in words.

use crate::refusals::place::{RefusedComposite, refused_composite, refused_source};
use agg_calendar::PrecomputedDateInterval;
use agg_calendar::interval_faults::{write_interval_fault, write_offset_fault};
use agg_engine::WalkError;
use agg_request_tree::{
    Aggregation, AggregationVariants, CompositeAggregation, CompositeAggregationSource,
    DateHistogramCompositeAggregationSource,
};
use agg_values::{AggregationError, InvalidArgument, NameMap, OutOfMemory, RequestError, Text};
use std::alloc::Global;

/// Appends why a walk is refused, in words: the composite and the source of the request that it
/// is refused for, the text or the numbers that the refusal speaks of.
pub fn write_refusal<B: Drop>(
    alloc: Global,
    out: &mut String,
    request: &NameMap<Aggregation<B>>,
    name: &Text,
    error: &WalkError,
) -> Result<(), OutOfMemory> {
    match error {
        WalkError::Invalid(_) => write_of_request(alloc, out, request),
        WalkError::UnknownComposite => write_unknown(out, request, name),
        WalkError::Aggregation(AggregationError::DateHistogramParseError(_)) => {
            write_of_request(alloc, out, request)
        }
        WalkError::Aggregation(excess) => write_excess(out, excess),
        _ => Ok(out.push_str(plain_words(error))?),
    }
}

// What is said of a refusal that names nothing.
fn plain_words(error: &WalkError) -> &'static str {
    match error {
        WalkError::QueryBuild => "a filter asks for 'any_field', and schema has no field",
        WalkError::BucketOutOfRange => "a document has a value whose bucket begins outside 64 bits",
        WalkError::TooMany => "an aggregation lists 4294967296 documents or more",
        _ => "out of memory",
    }
}

// More than a limit.
fn write_excess(out: &mut String, error: &AggregationError) -> Result<(), OutOfMemory> {
    match error {
        AggregationError::BucketLimitExceeded { limit, current } => {
            write!(out, "more than {limit} buckets: {current}")?;
        }
        AggregationError::MemoryExceeded { limit, current } => {
            write!(out, "more than {limit} bytes of memory: {current}")?;
        }
        AggregationError::DateHistogramParseError(_) => {}
    }
    Ok(())
}

// The name that is of no composite, and those that are.
fn write_unknown<B: Drop>(
    out: &mut String,
    request: &NameMap<Aggregation<B>>,
    name: &Text,
) -> Result<(), OutOfMemory> {
    write!(out, "no composite is called '{}'", name.as_str())?;
    let mut is_first = true;
    for (other, aggregation) in request.iter() {
        if let AggregationVariants::Composite(_) = &aggregation.agg {
            out.push_str(if is_first { "; there are: " } else { ", " })?;
            out.push_str(other.as_str())?;
            is_first = false;
        }
    }
    Ok(())
}

// The fault of a composite of the request, or, where each may be asked, of a page size.
fn write_of_request<B: Drop>(
    alloc: Global,
    out: &mut String,
    request: &NameMap<Aggregation<B>>,
) -> Result<(), OutOfMemory> {
    let Some(found) = refused_composite(alloc, request)? else {
        return Ok(out.push_str("the page of a snapshot has room for 0 buckets")?);
    };
    write_names(out, &found)?;
    let composite = found.composite;
    let index = refused_source(alloc, &found)?;
    match index.and_then(|index| composite.sources.as_slice().get(index)) {
        Some(source) => write_of_source(alloc, out, composite, source, &found.fault),
        None => write_of_composite(out, composite, &found.fault),
    }
}

// The names that lead to a composite.
fn write_names(out: &mut String, found: &RefusedComposite<'_>) -> Result<(), OutOfMemory> {
    for (index, name) in found.names.iter().enumerate() {
        if index > 0 {
            out.push('.')?;
        }
        out.push_str(name.as_str())?;
    }
    Ok(out.push_str(": ")?)
}

// A fault of a composite as a whole.
fn write_of_composite(
    out: &mut String,
    composite: &CompositeAggregation,
    fault: &RequestError,
) -> Result<(), OutOfMemory> {
    match fault {
        RequestError::Invalid(InvalidArgument::NoSource) => out.push_str("it has no source")?,
        RequestError::Invalid(InvalidArgument::ZeroSize) => out.push_str("size is 0")?,
        RequestError::Invalid(InvalidArgument::TooManySources) => {
            let count = composite.sources.as_slice().len();
            write!(out, "more than 16 sources: {count}")?;
        }
        _ => write!(out, "{fault}")?,
    }
    Ok(())
}

// A fault of a source.
fn write_of_source(
    alloc: Global,
    out: &mut String,
    composite: &CompositeAggregation,
    source: &CompositeAggregationSource,
    fault: &RequestError,
) -> Result<(), OutOfMemory> {
    let name = source.name();
    if let RequestError::Invalid(InvalidArgument::DuplicateSource) = fault {
        return Ok(write!(out, "two sources are called '{}'", name.as_str())?);
    }
    write!(out, "source {}: ", name.as_str())?;
    match fault {
        RequestError::Invalid(InvalidArgument::NullAfter) => {
            Ok(out.push_str("after is null, and missing_bucket isn't true")?)
        }
        RequestError::Invalid(InvalidArgument::AfterType) => {
            write_other_after(alloc, out, composite, source)
        }
        _ => write_interval(alloc, out, source, fault),
    }
}

// An after key of another type than its source's.
fn write_other_after(
    alloc: Global,
    out: &mut String,
    composite: &CompositeAggregation,
    source: &CompositeAggregationSource,
) -> Result<(), OutOfMemory> {
    let Some(after) = composite.after.get(source.name()) else {
        return Ok(());
    };
    let key = after.write(alloc)?;
    let expected = match source {
        CompositeAggregationSource::DateHistogram(_) => "date, as dt:0",
        _ => "whole number, as i64:7",
    };
    Ok(write!(out, "after is '{}', which is no {expected}", key.as_str())?)
}

// An interval that divides nothing.
fn write_interval(
    alloc: Global,
    out: &mut String,
    source: &CompositeAggregationSource,
    fault: &RequestError,
) -> Result<(), OutOfMemory> {
    match source {
        CompositeAggregationSource::Terms(_) => Ok(()),
        CompositeAggregationSource::Histogram(histogram) => {
            Ok(write!(
                out,
                "interval is {}, and 1 is the least",
                histogram.interval
            )?)
        }
        CompositeAggregationSource::DateHistogram(dates) => write_dates(alloc, out, dates, fault),
    }
}

// Intervals of dates that divide nothing, or an offset that is none.
fn write_dates(
    alloc: Global,
    out: &mut String,
    dates: &DateHistogramCompositeAggregationSource,
    fault: &RequestError,
) -> Result<(), OutOfMemory> {
    match (&dates.fixed_interval, dates.calendar_interval) {
        (None, None) => {
            Ok(out.push_str("neither fixed_interval nor calendar_interval is there")?)
        }
        (Some(_), Some(_)) => {
            Ok(out.push_str("fixed_interval and calendar_interval are both there")?)
        }
        (Some(text), None) => write_fixed(alloc, out, dates, text, fault),
        (None, Some(_)) => write_offset(out, dates, fault),
    }
}

// A text that is no fixed interval, or else an offset that is none.
fn write_fixed(
    alloc: Global,
    out: &mut String,
    dates: &DateHistogramCompositeAggregationSource,
    text: &Text,
    fault: &RequestError,
) -> Result<(), OutOfMemory> {
    if has_interval_fault(alloc, text)? {
        return write_interval_fault(out, text, fault);
    }
    write_offset(out, dates, fault)
}

// Whether a text is no fixed interval.
fn has_interval_fault(alloc: Global, text: &Text) -> Result<bool, OutOfMemory> {
    match PrecomputedDateInterval::from_date_histogram_source_intervals(alloc, Some(text), None) {
        Ok(_) => Ok(false),
        Err(RequestError::OutOfMemory) => Err(OutOfMemory),
        Err(_) => Ok(true),
    }
}

// An offset that is none.
fn write_offset(
    out: &mut String,
    dates: &DateHistogramCompositeAggregationSource,
    fault: &RequestError,
) -> Result<(), OutOfMemory> {
    match &dates.offset {
        Some(text) => write_offset_fault(out, text, fault),
        None => Ok(()),
    }
}
