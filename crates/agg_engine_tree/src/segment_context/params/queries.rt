//! The queries of the filters of a request.
ghost use Rattle.std.specs.Prelude.{◌≡◌, ◌++◌, IfOk, OnOk, map};
ghost use Rattle.agg_request_tree.specs.Request.{listed_in};
ghost use Rattle.agg_engine_tree.specs.segment_context.Trees.{own_query, queries_of};

use agg_request_tree::{Aggregation, AggregationVariants, FilterQuery};
use agg_values::{ItemList, NameMap, OutOfMemory};
use std::alloc::Global;

/// The queries of the filters of a request, by name ascending, that of a filter before those below
/// it.
pub fn filter_queries<'a, B>(
    alloc: Global,
    request: &'a NameMap<Aggregation<B>>,
) -> Result<ItemList<&'a FilterQuery<B>>, OutOfMemory>
    ensures { IfOk result (λ queries. map (λ q. q.now) queries ≡ queries_of request.now) }
{
    let mut queries = ItemList::new(alloc);
    add_queries(request, &mut queries)?;
    Ok(queries)
}

// Adds the queries of a request.
#[cycle(queries)]
fn add_queries<'a, B>(
    request: &'a NameMap<Aggregation<B>>,
    queries: &mut ItemList<&'a FilterQuery<B>>,
) -> Result<(), OutOfMemory>
    ensures { OnOk result (map (λ q. q.now) queries.new
        ≡ map (λ q. q.now) queries.old ++ queries_of request.now) }
{
    for (_, aggregation) in request.iter() {
        add_queries_in(aggregation, queries)?;
    }
    Ok(())
}

// Adds the queries of an aggregation and those below it.
#[cycle(queries)]
fn add_queries_in<'a, B>(
    aggregation: &'a Aggregation<B>,
    queries: &mut ItemList<&'a FilterQuery<B>>,
) -> Result<(), OutOfMemory>
    ensures { OnOk result (map (λ q. q.now) queries.new
        ≡ map (λ q. q.now) queries.old ++ listed_in own_query aggregation.now) }
{
    add_own_query(&aggregation.agg, queries)?;
    add_queries(&aggregation.sub_aggregation, queries)
}

// Adds the query of an aggregation, if it is a filter.
fn add_own_query<'a, B>(
    agg: &'a AggregationVariants<B>,
    queries: &mut ItemList<&'a FilterQuery<B>>,
) -> Result<(), OutOfMemory>
    ensures { OnOk result (map (λ q. q.now) queries.new
        ≡ map (λ q. q.now) queries.old ++ own_query agg.now) }
{
    match agg {
        AggregationVariants::Filter(filter) => queries.push(filter.query()),
        _ => Ok(()),
    }
}
