//! Where a request is refused.
ghost use Rattle.std.specs.Prelude.{◌≡◌, All, Any, IfOk, MatchOption};
ghost use Rattle.agg_request_tree.specs.Faults.{HasFault, IsSound, IsSoundRequest};
ghost use Rattle.agg_request_tree.specs.Faults.{RequestHasFault};
ghost use Rattle.agg_request_tree.specs.Request.{composites_in, own_composite};

use agg_calendar::date_division;
use agg_request_tree::{
    Aggregation, AggregationVariants, CompositeAggregation, CompositeAggregationSource,
    DateHistogramCompositeAggregationSource, check_composite,
};
use agg_values::{InvalidArgument, NameMap, OutOfMemory, RequestError, Text};
use std::alloc::Global;

/// A composite that may not be asked, and why.
#[derive(Drop)]
pub struct RefusedComposite<'a> {
    /// The names that lead to it, from that in the request itself down to its own.
    pub names: Vec<Text>,
    pub composite: &'a CompositeAggregation,
    pub fault: RequestError,
}

/// The first composite of a request that may not be asked, if there is one.
#[cycle(places)]
pub fn refused_composite<'a, B: Drop>(
    alloc: Global,
    request: &'a NameMap<Aggregation<B>>,
) -> Result<Option<RefusedComposite<'a>>, OutOfMemory>
    ensures { IfOk result (λ found. MatchOption found (IsSoundRequest request.now)
        (λ refused. RequestHasFault request.now refused.fault)) }
{
    for (name, aggregation) in request.iter() {
        match refused_below(alloc, aggregation)? {
            Some(found) => return Ok(Some(named(alloc, name, found)?)),
            None => {}
        }
    }
    Ok(None)
}

// The first composite that may not be asked, in an aggregation and those below it.
#[cycle(places)]
fn refused_below<'a, B: Drop>(
    alloc: Global,
    aggregation: &'a Aggregation<B>,
) -> Result<Option<RefusedComposite<'a>>, OutOfMemory>
    ensures { IfOk result (λ found. MatchOption found (All IsSound (composites_in aggregation.now))
        (λ refused. Any (λ c. HasFault c refused.fault) (composites_in aggregation.now))) }
{
    match refused_own(alloc, &aggregation.agg)? {
        Some(found) => Ok(Some(found)),
        None => refused_composite(alloc, &aggregation.sub_aggregation),
    }
}

// The composite that an aggregation asks by itself, with no name yet, if it may not be asked.
fn refused_own<'a, B: Drop>(
    alloc: Global,
    agg: &'a AggregationVariants<B>,
) -> Result<Option<RefusedComposite<'a>>, OutOfMemory>
    ensures { IfOk result (λ found. MatchOption found (All IsSound (own_composite agg.now))
        (λ refused. Any (λ c. HasFault c refused.fault) (own_composite agg.now))) }
{
    let AggregationVariants::Composite(composite) = agg else {
        return Ok(None);
    };
    match check_composite(alloc, composite, composite.size, &composite.after) {
        Ok(()) => Ok(None),
        Err(RequestError::OutOfMemory) => Err(OutOfMemory),
        Err(fault) => Ok(Some(RefusedComposite {
            names: Vec::new(alloc),
            composite,
            fault,
        })),
    }
}

// A refused composite, found below one more name.
fn named<'a>(
    alloc: Global,
    name: &Text,
    found: RefusedComposite<'a>,
) -> Result<RefusedComposite<'a>, OutOfMemory>
    ensures { IfOk result (λ refused. refused.fault ≡ found.entry.fault) }
{
    let mut found = found;
    let name = name.try_clone(alloc)?;
    found.names.insert(0, name)?;
    Ok(found)
}

/// The index of the first source of a composite that has its fault, None where no source has it.
pub fn refused_source(
    alloc: Global,
    refused: &RefusedComposite<'_>,
) -> Result<Option<usize>, OutOfMemory> {
    let composite = refused.composite;
    for index in 0..composite.sources.as_slice().len() {
        if is_source_refused(alloc, composite, index, &refused.fault)? {
            return Ok(Some(index));
        }
    }
    Ok(None)
}

// Whether a source has a fault.
fn is_source_refused(
    alloc: Global,
    composite: &CompositeAggregation,
    index: usize,
    fault: &RequestError,
) -> Result<bool, OutOfMemory> {
    let sources = composite.sources.as_slice();
    let (Some(source), Some(before)) = (sources.get(index), sources.get(..index)) else {
        return Ok(false);
    };
    let after = source.after_value(&composite.after);
    match fault {
        RequestError::Invalid(InvalidArgument::DuplicateSource) => {
            Ok(before.iter().any(|other| other.name() == source.name()))
        }
        RequestError::Invalid(InvalidArgument::NullAfter) => Ok(source.is_null_after(after)),
        RequestError::Invalid(InvalidArgument::AfterType) => Ok(source.is_other_after(after)),
        RequestError::Invalid(InvalidArgument::BadInterval)
        | RequestError::Invalid(InvalidArgument::IntervalChoice)
        | RequestError::Aggregation(_) => has_no_interval(alloc, source),
        _ => Ok(false),
    }
}

// Whether a source has nothing to divide values by, where it has to.
fn has_no_interval(
    alloc: Global,
    source: &CompositeAggregationSource,
) -> Result<bool, OutOfMemory> {
    match source {
        CompositeAggregationSource::Terms(_) => Ok(false),
        CompositeAggregationSource::Histogram(histogram) => Ok(histogram.interval < 1),
        CompositeAggregationSource::DateHistogram(dates) => has_no_dates(alloc, dates),
    }
}

// Whether a source of dates has no interval that may be asked, or an offset that may not.
fn has_no_dates(
    alloc: Global,
    dates: &DateHistogramCompositeAggregationSource,
) -> Result<bool, OutOfMemory> {
    let fixed = dates.fixed_interval.as_ref();
    let calendar = dates.calendar_interval;
    match date_division(alloc, fixed, calendar, dates.offset.as_ref()) {
        Ok(_) => Ok(false),
        Err(RequestError::OutOfMemory) => Err(OutOfMemory),
        Err(_) => Ok(true),
    }
}
