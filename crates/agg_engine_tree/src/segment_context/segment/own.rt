//! The data of one aggregation.
ghost use Rattle.std.specs.Prelude.{◌≡◌, ◌<◌, IfErr, IfOk, length};
ghost use Rattle.agg_segment.specs.declared.query.QueryTree.{QueryTree as Tree};
ghost use Rattle.agg_request_tree.specs.Faults.{IsSound};
ghost use Rattle.agg_request_tree.specs.Request.{with_own_builder};
ghost use Rattle.agg_engine_tree.specs.segment_context.Additions.{AddsOwn, AppendsComposite};
ghost use Rattle.agg_engine_tree.specs.segment_context.Additions.{AppendsFilter, AppendsMetric};
ghost use Rattle.agg_engine_tree.specs.segment_context.Additions.{IsReadyForOwn, TreesFollow};
ghost use Rattle.agg_engine_tree.specs.segment_context.Additions.{page_of, paged_composite};
ghost use Rattle.agg_engine_tree.specs.segment_context.Tops.{KnowsOwn};
ghost use Rattle.agg_engine_tree.specs.segment_context.Trees.{own_tree};

use super::accessors::accessors_for;
use super::origin::Origin;
use crate::segment_context::paged::page_for;
use crate::segment_context::{AggKind, PerRequestAggSegCtx, SetupError};
use agg_composite::accessor::CompositeAggReqData;
use agg_filter::{DocumentQueryEvaluator, FilterAggReqData};
use agg_metric::{MetricAggReqData, StatsType};
use agg_request_tree::{AggregationVariants, CompositeAggregation};
use agg_values::Text;
use std::alloc::Global;

/// Adds the data of what an aggregation asks, and gives its kind and its index.
pub fn add_data<'s, B: Drop>(
    from: &Origin<'s, '_>,
    name: &Text,
    agg: &'s AggregationVariants<B>,
    ctx: &mut PerRequestAggSegCtx<'s>,
) -> Result<(AggKind, usize), SetupError>
    requires { IsReadyForOwn from.now ctx.old name.now agg.now }
    ensures ok { IfOk result (λ place. (made : B → Tree)
        → TreesFollow from.now ctx.old (own_tree (with_own_builder made agg.now))
        → AddsOwn made from.now name.now agg.now place ctx.old ctx.new) }
    ensures top { IfOk result (λ place.
        KnowsOwn from.now.is_top_level ctx.new.filter_req_data place.0 place.1) }
    ensures err { IfErr result (λ error. error ≡ SetupError.OutOfMemory) }
{
    let alloc = from.alloc;
    match agg {
        AggregationVariants::Filter(_) => Ok((AggKind::Filter, add_filter(from, name, ctx)?)),
        AggregationVariants::Composite(composite) => {
            Ok((
                AggKind::Composite,
                add_composite(from, name, composite, ctx)?,
            ))
        }
        AggregationVariants::Count(a) => add_stats(alloc, name, &a.field, StatsType::Count, ctx),
        AggregationVariants::Max(a) => add_stats(alloc, name, &a.field, StatsType::Max, ctx),
        AggregationVariants::Min(a) => add_stats(alloc, name, &a.field, StatsType::Min, ctx),
        AggregationVariants::Sum(a) => add_stats(alloc, name, &a.field, StatsType::Sum, ctx),
    }
}

// Adds the data of a filter, whose tree stands at the index of its data.
fn add_filter<'s>(
    from: &Origin<'s, '_>,
    name: &Text,
    ctx: &mut PerRequestAggSegCtx<'s>,
) -> Result<usize, SetupError>
    requires { length ctx.old.filter_req_data < length from.now.trees.now }
    ensures ok { IfOk result
        (λ index. AppendsFilter from.now name.now index ctx.old ctx.new) }
    ensures err { IfErr result (λ error. error ≡ SetupError.OutOfMemory) }
{
    let index = ctx.filter_req_data.as_slice().len();
    let req = FilterAggReqData {
        name: name.try_clone(from.alloc)?,
        evaluator: DocumentQueryEvaluator::new(from.alloc, &from.trees[index], from.reader)?,
        is_top_level: from.is_top_level,
    };
    ctx.filter_req_data.push(req)?;
    Ok(index)
}

// Adds the data of a composite, with the page that is set, if it is of that name.
fn add_composite<'s>(
    from: &Origin<'s, '_>,
    name: &Text,
    composite: &'s CompositeAggregation,
    ctx: &mut PerRequestAggSegCtx<'s>,
) -> Result<usize, SetupError>
    requires { IsSound (paged_composite (page_of from.now) name.now composite.now) }
    ensures ok { IfOk result (λ index. AppendsComposite from.now name.now
        (paged_composite (page_of from.now) name.now composite.now) index ctx.old ctx.new) }
    ensures err { IfErr result (λ error. error ≡ SetupError.OutOfMemory) }
{
    let index = ctx.composite_req_data.as_slice().len();
    let (size, after) = page_for(from.page, name, composite);
    let sources = composite.sources.as_slice();
    let req = CompositeAggReqData {
        name: name.try_clone(from.alloc)?,
        req: composite,
        size,
        composite_accessors: accessors_for(from.alloc, from.reader, sources, after)?,
    };
    ctx.composite_req_data.push(req)?;
    Ok(index)
}

// Adds the data of a metric, which computes this of a field.
fn add_stats(
    alloc: Global,
    name: &Text,
    field: &Text,
    computed: StatsType,
    ctx: &mut PerRequestAggSegCtx<'_>,
) -> Result<(AggKind, usize), SetupError>
    ensures kind { IfOk result (λ place. place.0 ≡ AggKind.StatsKind computed) }
    ensures ok { IfOk result
        (λ place. AppendsMetric name.now field.now computed place.1 ctx.old ctx.new) }
    ensures err { IfErr result (λ error. error ≡ SetupError.OutOfMemory) }
{
    let index = ctx.stats_metric_req_data.as_slice().len();
    let req = MetricAggReqData {
        name: name.try_clone(alloc)?,
        field: field.try_clone(alloc)?,
        collecting_for: computed,
    };
    ctx.stats_metric_req_data.push(req)?;
    Ok((AggKind::StatsKind(computed), index))
}
