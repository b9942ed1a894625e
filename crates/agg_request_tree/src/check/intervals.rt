//! What the interval of a source may not be.
ghost use Rattle.std.specs.Prelude.{All, Any, IfErr, IsOk, OnOk};
ghost use Rattle.agg_request_tree.specs.Faults.{HasInterval, IsIntervalCause};
ghost use Rattle.agg_request_tree.specs.Source.{division_of};

use crate::{CompositeAggregationSource, DateHistogramCompositeAggregationSource};
use agg_calendar::date_division;
use agg_values::{InvalidArgument, RequestError};
use std::alloc::Global;

/// Whether each source has what it divides values by. Memory is taken only for the text of an
/// error.
pub fn check_intervals(
    alloc: Global,
    sources: &[CompositeAggregationSource],
) -> Result<(), RequestError>
    ensures ok { OnOk result (All HasInterval sources.now) }
    ensures err { IfErr result (λ refusal.
        Any (λ source. IsIntervalCause source refusal) sources.now) }
{
    for source in sources {
        check_interval(alloc, source)?;
    }
    Ok(())
}

// Whether a source has what it divides values by.
fn check_interval(alloc: Global, source: &CompositeAggregationSource) -> Result<(), RequestError>
    ensures ok { OnOk result (HasInterval source.now) }
    ensures err { IfErr result (IsIntervalCause source.now) }
{
    match source {
        CompositeAggregationSource::Terms(_) => Ok(()),
        CompositeAggregationSource::Histogram(histogram) => {
            if histogram.interval < 1 {
                return Err(RequestError::Invalid(InvalidArgument::BadInterval));
            }
            Ok(())
        }
        CompositeAggregationSource::DateHistogram(dates) => check_dates(alloc, dates),
    }
}

// Whether a source of dates has an interval that may be asked, with its offset.
fn check_dates(
    alloc: Global,
    source: &DateHistogramCompositeAggregationSource,
) -> Result<(), RequestError>
    ensures ok { OnOk result (IsOk (division_of source.now)) }
    ensures err { IfErr result
        (IsIntervalCause (CompositeAggregationSource.DateHistogram source.now)) }
{
    date_division(
        alloc,
        source.fixed_interval.as_ref(),
        source.calendar_interval,
        source.offset.as_ref(),
    )?;
    Ok(())
}
