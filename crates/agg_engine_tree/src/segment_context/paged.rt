//! The page that is set: what a composite takes of it, and whether a request may be asked with it.
ghost use Rattle.std.specs.Prelude.{◌≡◌, All, Any, IfErr, OnOk, option_map};
ghost use Rattle.agg_request_tree.specs.Faults.{CompositeHasCause, HasCause, IsSound};
ghost use Rattle.agg_request_tree.specs.Faults.{IsSoundRequest};
ghost use Rattle.agg_request_tree.specs.Names.{NamesAscend};
ghost use Rattle.agg_request_tree.specs.Request.{below_of, composites_in, own_composite};
ghost use Rattle.agg_engine_tree.specs.segment_context.Additions.{paged_agg, paged_composite};
ghost use Rattle.agg_engine_tree.specs.segment_context.Additions.{paged_in};
ghost use Rattle.agg_engine_tree.specs.segment_context.Pages.{paged};

use crate::segment_context::{AggContextParams, Page};
use agg_request_tree::{
    Aggregation, AggregationVariants, Aggregations, CompositeAggregation, check_composite,
    check_request,
};
use agg_values::{AfterKey, NameMap, RequestError, Text};
use std::alloc::Global;

/// Whether a request may be asked with the page that is set: whether no composite of it, at any
/// depth, has a fault, where the one at top level that has the page's name takes the page's size
/// and after key in place of its own. Which of several faults is named is free. Memory is taken
/// only for the text of an error.
pub fn check_paged(
    alloc: Global,
    request: &Aggregations,
    params: &AggContextParams,
) -> Result<(), RequestError>
    ensures ok { OnOk result (IsSoundRequest (paged params.now.page request.now)) }
    ensures names { OnOk result (NamesAscend request.now) }
    ensures err { IfErr result (HasCause (paged params.now.page request.now)) }
{
    for (name, aggregation) in request.iter() {
        check_aggregation(alloc, name, aggregation, params.page())?;
    }
    Ok(())
}

// Whether no composite has a fault with the page, in an aggregation of a name and those below it.
fn check_aggregation(
    alloc: Global,
    name: &Text,
    aggregation: &Aggregation,
    page: Option<&Page>,
) -> Result<(), RequestError>
    ensures ok { OnOk result (All IsSound (composites_in
        (paged_in (option_map (λ p. p.now) page.entry) name.now aggregation.now))) }
    ensures names { OnOk result (NamesAscend (below_of aggregation.now)) }
    ensures err { IfErr result (λ error. Any (λ c. CompositeHasCause c error) (composites_in
        (paged_in (option_map (λ p. p.now) page.entry) name.now aggregation.now))) }
{
    check_own(alloc, name, &aggregation.agg, page)?;
    check_request(alloc, &aggregation.sub_aggregation)
}

// Whether what an aggregation of a name asks by itself has no fault with the page.
fn check_own(
    alloc: Global,
    name: &Text,
    agg: &AggregationVariants,
    page: Option<&Page>,
) -> Result<(), RequestError>
    ensures ok { OnOk result (All IsSound (own_composite
        (paged_agg (option_map (λ p. p.now) page.entry) name.now agg.now))) }
    ensures err { IfErr result (λ error. Any (λ c. CompositeHasCause c error) (own_composite
        (paged_agg (option_map (λ p. p.now) page.entry) name.now agg.now))) }
{
    match agg {
        AggregationVariants::Composite(composite) => {
            let (size, after) = page_for(page, name, composite);
            check_composite(alloc, composite, size, after)
        }
        _ => Ok(()),
    }
}

/// The size and the after key of a composite: those of the page, if it is of that name, and else
/// its own.
pub fn page_for<'a>(
    page: Option<&'a Page>,
    name: &Text,
    composite: &'a CompositeAggregation,
) -> (u32, &'a NameMap<AfterKey>)
    ensures size { result.0 ≡ (paged_composite (option_map (λ p. p.now) page.entry) name.now
        composite.now).size }
    ensures after { result.1.now ≡ (paged_composite (option_map (λ p. p.now) page.entry) name.now
        composite.now).after }
{
    match page {
        Some(page) if page.name == *name => (page.size, &page.after),
        _ => (composite.size, &composite.after),
    }
}
