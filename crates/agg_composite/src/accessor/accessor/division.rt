//! What a source divides its values by, or why that is refused.
ghost use Rattle.std.specs.Prelude.{IfErr, IfOk, OnOk};
ghost use Rattle.agg_request_tree.specs.Faults.{HasInterval, IsIntervalFault};
ghost use Rattle.agg_composite.specs.accessor.Accessors.{IsDivisionOf, OrNoMemory};

use agg_calendar::{PrecomputedDateInterval, date_division};
use agg_request_tree::{CompositeAggregationSource, DateHistogramCompositeAggregationSource};
use agg_values::{InvalidArgument, RequestError};
use std::alloc::Global;

/// What a source divides its dates by, and by how many nanoseconds their buckets begin later, once
/// it has what it divides values by.
pub fn division_of(
    alloc: Global,
    source: &CompositeAggregationSource,
) -> Result<(PrecomputedDateInterval, i64), RequestError>
    ensures ok { IfOk result (λ division. IsDivisionOf source.now division.0 division.1) }
    ensures interval { OnOk result (HasInterval source.now) }
    ensures err { IfErr result (λ error. OrNoMemory error (IsIntervalFault source.now error)) }
{
    match source {
        CompositeAggregationSource::Terms(_) => Ok((PrecomputedDateInterval::NotApplicable, 0)),
        CompositeAggregationSource::Histogram(histogram) => {
            if histogram.interval < 1 {
                return Err(RequestError::Invalid(InvalidArgument::BadInterval));
            }
            Ok((PrecomputedDateInterval::NotApplicable, 0))
        }
        CompositeAggregationSource::DateHistogram(dates) => chosen_division(alloc, dates),
    }
}

// The one interval of a source of dates that is set, and its offset.
fn chosen_division(
    alloc: Global,
    source: &DateHistogramCompositeAggregationSource,
) -> Result<(PrecomputedDateInterval, i64), RequestError>
    ensures ok { IfOk result (λ division.
        IsDivisionOf (CompositeAggregationSource.DateHistogram source.now) division.0 division.1) }
    ensures err { IfErr result (λ error.
        OrNoMemory error
        (IsIntervalFault (CompositeAggregationSource.DateHistogram source.now) error)) }
{
    date_division(
        alloc,
        source.fixed_interval.as_ref(),
        source.calendar_interval,
        source.offset.as_ref(),
    )
}
