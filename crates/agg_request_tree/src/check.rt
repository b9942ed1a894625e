//! What a request may not ask.
ghost use Rattle.std.specs.Prelude.{◌≡◌, ◌≢◌, All, Any, IfErr, IfNone, IfSome, MatchBool, OnOk};
ghost use Rattle.agg_request_tree.specs.Faults.{CompositeHasCause, HasCause, HasFault, HasInterval};
ghost use Rattle.agg_request_tree.specs.Faults.{HaveOwnNames, IsSound, IsSoundRequest};
ghost use Rattle.agg_request_tree.specs.Names.{NamesAscend};
ghost use Rattle.agg_request_tree.specs.Request.{below_of, composites_in, own_composite};
ghost use Rattle.agg_request_tree.specs.Source.{name_of};

mod after;
mod intervals;

use crate::{
    Aggregation, AggregationVariants, Aggregations, CompositeAggregation,
    CompositeAggregationSource,
};
use after::find_after_fault;
use agg_values::{AfterKey, InvalidArgument, NameMap, RequestError, Text};
use intervals::check_intervals;
use std::alloc::Global;

// The most sources that a composite may have.
const MAX_SOURCES: usize = 16;

/// Whether a request may be asked: whether no composite of it, at any depth, has a fault. Which of
/// several faults is named is free. Memory is taken only for the text of an error.
pub fn check_request(alloc: Global, request: &Aggregations) -> Result<(), RequestError>
    ensures ok { OnOk result (IsSoundRequest request.now) }
    ensures names { OnOk result (NamesAscend request.now) }
    ensures err { IfErr result (HasCause request.now) }
{
    check_aggregations(alloc, request)
}

#[cycle(checks)]
fn check_aggregations<B: Drop>(
    alloc: Global,
    request: &NameMap<Aggregation<B>>,
) -> Result<(), RequestError>
    ensures ok { OnOk result (IsSoundRequest request.now) }
    ensures names { OnOk result (NamesAscend request.now) }
    ensures err { IfErr result (HasCause request.now) }
{
    for (_, aggregation) in request.iter() {
        check_aggregation(alloc, aggregation)?;
    }
    Ok(())
}

// Whether no composite has a fault, in an aggregation and those below it.
#[cycle(checks)]
fn check_aggregation<B: Drop>(
    alloc: Global,
    aggregation: &Aggregation<B>,
) -> Result<(), RequestError>
    ensures ok { OnOk result (All IsSound (composites_in aggregation.now)) }
    ensures names { OnOk result (NamesAscend (below_of aggregation.now)) }
    ensures err { IfErr result
        (λ error. Any (λ c. CompositeHasCause c error) (composites_in aggregation.now)) }
{
    check_own(alloc, &aggregation.agg)?;
    check_aggregations(alloc, &aggregation.sub_aggregation)
}

// Whether what an aggregation asks by itself has no fault.
fn check_own<B: Drop>(alloc: Global, agg: &AggregationVariants<B>) -> Result<(), RequestError>
    ensures ok { OnOk result (All IsSound (own_composite agg.now)) }
    ensures err { IfErr result
        (λ error. Any (λ c. CompositeHasCause c error) (own_composite agg.now)) }
{
    match agg {
        AggregationVariants::Composite(composite) => {
            check_composite(alloc, composite, composite.size, &composite.after)
        }
        _ => Ok(()),
    }
}

/// Whether a composite may be asked with this size and this after key in place of its own: whether
/// it has no fault then. Which of several faults is named is free. Memory is taken only for the
/// text of an error.
pub fn check_composite(
    alloc: Global,
    composite: &CompositeAggregation,
    size: u32,
    after: &NameMap<AfterKey>,
) -> Result<(), RequestError>
    ensures ok { OnOk result (IsSound (record composite.now { size = size; after = after.now })) }
    ensures err { IfErr result
        (CompositeHasCause (record composite.now { size = size; after = after.now })) }
{
    let sources = composite.sources.as_slice();
    if let Some(fault) = find_fault(sources, size, after) {
        return Err(RequestError::Invalid(fault));
    }
    // Intervals are read only where there are few sources.
    check_intervals(alloc, sources)
}

// A fault of the composite with these parts besides those of its intervals, if it has any. Names
// are compared only where there are few.
fn find_fault(
    sources: &[CompositeAggregationSource],
    size: u32,
    after: &NameMap<AfterKey>,
) -> Option<InvalidArgument>
    ensures some { IfSome result (λ fault. HasFault
        (record { sources = sources.now; size = size; after = after.now })
        (RequestError.Invalid fault)) }
    ensures none { IfNone result (All HasInterval sources.now
        → IsSound (record { sources = sources.now; size = size; after = after.now })) }
{
    if sources.is_empty() {
        return Some(InvalidArgument::NoSource);
    }
    if sources.len() > MAX_SOURCES {
        return Some(InvalidArgument::TooManySources);
    }
    if size == 0 {
        return Some(InvalidArgument::ZeroSize);
    }
    if has_duplicate(sources) {
        return Some(InvalidArgument::DuplicateSource);
    }
    find_after_fault(sources, after)
}

// Whether two sources have one name.
fn has_duplicate(sources: &[CompositeAggregationSource]) -> bool
    ensures { MatchBool result (¬ (HaveOwnNames sources.now)) (HaveOwnNames sources.now) }
{
    for (i, source) in sources.iter().enumerate() {
        if has_name(&sources[..i], source.name()) {
            return true;
        }
    }
    false
}

// Whether a source has this name.
fn has_name(sources: &[CompositeAggregationSource], name: &Text) -> bool
    ensures { MatchBool result (Any (λ source. name_of source ≡ name.now) sources.now)
        (All (λ source. name_of source ≢ name.now) sources.now) }
{
    for source in sources {
        if source.name() == name {
            return true;
        }
    }
    false
}
