//! The context of a request in a segment of coloured documents: a composite with a count of values
//! below it, and a filter.
ghost use Rattle.std.specs.Prelude.{◌≡◌, ◌≢◌, [], ◌∷◌, IfOk, map};
ghost use Rattle.agg_segment.specs.Marks.{AreMarks};
ghost use Rattle.agg_segment.specs.Query.{matches};
ghost use Rattle.agg_composite.specs.accessor.Accessors.{Fits};
ghost use Rattle.agg_engine_tree.specs.segment_context.Context.{HasFewSources};
ghost use Rattle.agg_engine_tree.specs.segment_context.Plan.{Plan, plan_of, plans_of};
ghost use Rattle.agg_composite_tests.specs.segment_context.Context.{HasCountFirst, IsContextIn};
ghost use Rattle.agg_composite_tests.specs.segment_context.Context.{planned};

use agg_composite::accessor::{CompositeAggReqData, CompositeSourceAccessors};
use agg_engine_tree::segment_context::{AggKind, AggRefNode, PerRequestAggSegCtx};
use agg_filter::{DocumentQueryEvaluator, FilterAggReqData};
use agg_low_tests::segment::given::{Given, segment_of};
use agg_metric::{MetricAggReqData, StatsType};
use agg_request_tree::CompositeAggregation;
use agg_segment::{FieldValue, QueryTree, SegmentReader};
use agg_values::{ItemList, OutOfMemory, Text};
use std::alloc::Global;
use std::test::Fail;

// The document 1 has two colours, and the document 2 has none.
const DOCUMENTS: &[&[(&str, Given)]] = &[
    &[
        ("colour", Given::Text("red")),
        ("size", Given::Signed(1)),
        ("size", Given::Text("large")),
    ],
    &[
        ("colour", Given::Text("blue")),
        ("colour", Given::Text("red")),
        ("size", Given::Signed(3)),
    ],
    &[("size", Given::Signed(4))],
];

/// The segment of these documents.
pub(crate) fn segment(alloc: Global) -> Result<SegmentReader, Fail> {
    Ok(segment_of(alloc, DOCUMENTS)?)
}

/// The context of a request in a segment: a composite with a count of the sizes below it, and the
/// filter of what is red.
pub(crate) fn context_of<'s>(
    alloc: Global,
    segment: &'s SegmentReader,
    composite: &'s CompositeAggregation,
) -> Result<PerRequestAggSegCtx<'s>, Fail>
    requires sources { HasFewSources composite.now.sources }
    requires room { composite.now.size ≢ 0 }
    ensures { IfOk result (IsContextIn segment.now) }
{
    let red = red_query(alloc)?;
    let filter = filter_data(alloc, segment, &red)?;
    let group = composite_data(alloc, segment, composite)?;
    assembled(alloc, filter, group)
}

// The context of this data.
fn assembled<'s>(
    alloc: Global,
    filter: FilterAggReqData,
    group: CompositeAggReqData<'s>,
) -> Result<PerRequestAggSegCtx<'s>, Fail>
    ensures filters { IfOk result (λ ctx. ctx.filter_req_data ≡ filter ∷ []) }
    ensures metrics { IfOk result (λ ctx. HasCountFirst ctx.stats_metric_req_data) }
    ensures composites { IfOk result (λ ctx. ctx.composite_req_data ≡ group.entry ∷ []) }
    ensures tree { IfOk result (λ ctx. plans_of (map plan_of ctx.agg_tree) ≡ planned) }
{
    Ok(PerRequestAggSegCtx {
        filter_req_data: one(alloc, filter)?,
        stats_metric_req_data: one(alloc, metric_data(alloc)?)?,
        composite_req_data: one(alloc, group)?,
        agg_tree: tree(alloc)?,
    })
}

// A composite with a count below it, and a filter, each with the first data of its kind.
fn tree(alloc: Global) -> Result<ItemList<AggRefNode>, OutOfMemory>
    ensures { IfOk result (λ nodes. plans_of (map plan_of nodes) ≡ planned) }
{
    let count = node(AggKind::StatsKind(StatsType::Count), ItemList::new(alloc));
    let group = node(AggKind::Composite, one(alloc, count)?);
    let mut nodes = one(alloc, group)?;
    nodes.push(node(AggKind::Filter, ItemList::new(alloc)))?;
    Ok(nodes)
}

// A node with the first data of its kind.
fn node(kind: AggKind, children: ItemList<AggRefNode>) -> AggRefNode
    ensures { plan_of result ≡ Plan.node kind 0 (plans_of (map plan_of children)) }
{
    AggRefNode {
        kind,
        idx_in_req_data: 0,
        children,
    }
}

// The list of one item.
fn one<T: Drop>(alloc: Global, item: T) -> Result<ItemList<T>, OutOfMemory>
    ensures { IfOk result (λ items. items ≡ item ∷ []) }
{
    let mut items = ItemList::new(alloc);
    items.push(item)?;
    Ok(items)
}

// The filter of a query in a segment.
fn filter_data(
    alloc: Global,
    segment: &SegmentReader,
    query: &QueryTree,
) -> Result<FilterAggReqData, Fail>
    ensures { IfOk result (λ req. AreMarks (matches query.now) segment.now req.evaluator) }
{
    Ok(FilterAggReqData {
        name: Text::copy_of(alloc, "red")?,
        evaluator: DocumentQueryEvaluator::new(alloc, query, segment)?,
        is_top_level: true,
    })
}

// A count of the sizes.
fn metric_data(alloc: Global) -> Result<MetricAggReqData, OutOfMemory>
    ensures { IfOk result (λ req. req.collecting_for ≡ StatsType.Count) }
{
    Ok(MetricAggReqData {
        name: Text::copy_of(alloc, "sizes")?,
        field: Text::copy_of(alloc, "size")?,
        collecting_for: StatsType::Count,
    })
}

// The query of what is red.
fn red_query(alloc: Global) -> Result<QueryTree, OutOfMemory> {
    let red = Text::copy_of(alloc, "red")?;
    Ok(QueryTree::Term {
        field: Text::copy_of(alloc, "colour")?,
        value: FieldValue::Str(red),
    })
}

// The data of a composite in a segment, from its first tuple on.
fn composite_data<'s>(
    alloc: Global,
    segment: &'s SegmentReader,
    composite: &'s CompositeAggregation,
) -> Result<CompositeAggReqData<'s>, Fail>
    ensures fits { IfOk result (Fits segment.now []) }
    ensures composite { IfOk result (λ req. req.req.now ≡ composite.now) }
    ensures size { IfOk result (λ req. req.size ≡ composite.now.size) }
{
    let mut accessors = ItemList::new(alloc);
    for source in composite.sources.as_slice() {
        let built = CompositeSourceAccessors::build_for_source(alloc, segment, source, None)?;
        accessors.push(built)?;
    }
    Ok(CompositeAggReqData {
        name: Text::copy_of(alloc, "colours")?,
        req: composite,
        size: composite.size,
        composite_accessors: accessors,
    })
}
