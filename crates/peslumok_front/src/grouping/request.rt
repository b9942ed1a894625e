//! The request that a grouping stands for.
ghost use Rattle.std.specs.Prelude.{◌≡◌, IfOk, IfErr, OnOk};
ghost use Rattle.agg_values.specs.Names.{put};
ghost use Rattle.peslumok_front.specs.grouping.Request.{AreGroupsOf, AreMetricsOf, HasGroups};
ghost use Rattle.peslumok_front.specs.grouping.Request.{HasNoRequest, HasTotal, IsCompositeOf};
ghost use Rattle.peslumok_front.specs.grouping.Request.{IsRequestOf, IsTotalOf, metric_asked};
ghost use Rattle.peslumok_front.specs.grouping.Request.{metric_name, of_kind};

use crate::grouping::error::GroupingError;
use crate::grouping::source::source_of;
use crate::grouping::{Grouping, metric_name};
use agg_request_tree::{
    Aggregation, AggregationVariants, CompositeAggregation, CountAggregation, FilterAggregation,
    FilterQuery, MaxAggregation, MinAggregation, SumAggregation,
};
use agg_segment::QueryTree;
use agg_values::{AfterKey, ItemList, NameMap, OutOfMemory, Text};
use peslumok_texts::words::{Metric, MetricKind};
use std::alloc::Global;

/// The name of the composite that is paged over.
pub const GROUPS: &str = "groups";

/// The name of the filter that all records match.
pub const TOTAL: &str = "total";

/// A page of the groups: how many it has room for, and the key after which it begins.
#[derive(Drop)]
pub struct AskedPage {
    pub size: u32,
    pub after: NameMap<AfterKey>,
}

/// The request of a page: the groups with the metrics below each, and with totals a filter that all
/// records match, with the metrics of all of them. It has no builder.
pub fn request_of<B: Drop>(
    alloc: Global,
    grouping: &Grouping<'_>,
    page: AskedPage,
) -> Result<NameMap<Aggregation<B>>, GroupingError>
    ensures asked { IfOk result (IsRequestOf grouping.now page) }
    ensures cause { IfErr result (HasNoRequest grouping.now) }
{
    let mut request = NameMap::new(alloc);
    put_groups(alloc, grouping, page, &mut request)?;
    if grouping.has_total {
        put_total(alloc, grouping, &mut request)?;
    }
    Ok(request)
}

// Puts the groups of a page under their name.
fn put_groups<B: Drop>(
    alloc: Global,
    grouping: &Grouping<'_>,
    page: AskedPage,
    request: &mut NameMap<Aggregation<B>>,
) -> Result<(), GroupingError>
    ensures asked { OnOk result (HasGroups grouping.now page request.old request.new) }
    ensures cause { IfErr result (HasNoRequest grouping.now) }
{
    let name = Text::copy_of(alloc, GROUPS)?;
    put(request, name, groups_of(alloc, grouping, page)?)?;
    Ok(())
}

// Puts the total under its name.
fn put_total<B: Drop>(
    alloc: Global,
    grouping: &Grouping<'_>,
    request: &mut NameMap<Aggregation<B>>,
) -> Result<(), OutOfMemory>
    ensures { OnOk result (HasTotal grouping.now request.old request.new) }
{
    let name = Text::copy_of(alloc, TOTAL)?;
    put(request, name, total_of(alloc, grouping)?)?;
    Ok(())
}

// The groups, with the metrics below each.
fn groups_of<B: Drop>(
    alloc: Global,
    grouping: &Grouping<'_>,
    page: AskedPage,
) -> Result<Aggregation<B>, GroupingError>
    ensures asked { IfOk result (AreGroupsOf grouping.now page) }
    ensures cause { IfErr result (HasNoRequest grouping.now) }
{
    let composite = composite_of(alloc, grouping, page)?;
    Ok(Aggregation {
        agg: AggregationVariants::Composite(composite),
        sub_aggregation: metrics_of(alloc, &grouping.metrics)?,
    })
}

// All records, with their metrics.
fn total_of<B: Drop>(alloc: Global, grouping: &Grouping<'_>) -> Result<Aggregation<B>, OutOfMemory>
    ensures { IfOk result (IsTotalOf grouping.now) }
{
    let sub_aggregation = metrics_of(alloc, &grouping.metrics)?;
    let all = FilterAggregation::of(FilterQuery::Tree(QueryTree::All));
    Ok(Aggregation {
        agg: AggregationVariants::Filter(all),
        sub_aggregation,
    })
}

fn composite_of(
    alloc: Global,
    grouping: &Grouping<'_>,
    page: AskedPage,
) -> Result<CompositeAggregation, GroupingError>
    ensures asked { IfOk result (IsCompositeOf grouping.now page) }
    ensures cause { IfErr result (HasNoRequest grouping.now) }
{
    let mut sources = ItemList::new(alloc);
    for by in grouping.by.iter() {
        let source = source_of(alloc, by, &grouping.types)?;
        sources.push(source)?;
    }
    let AskedPage { size, after } = page;
    Ok(CompositeAggregation {
        sources,
        size,
        after,
    })
}

// Each metric under its name.
fn metrics_of<B: Drop>(
    alloc: Global,
    metrics: &[Metric<'_>],
) -> Result<NameMap<Aggregation<B>>, OutOfMemory>
    ensures { IfOk result (AreMetricsOf metrics.now) }
{
    let mut below = NameMap::new(alloc);
    for metric in metrics {
        put_metric(alloc, metric, &mut below)?;
    }
    Ok(below)
}

// Puts a metric under its name.
fn put_metric<B: Drop>(
    alloc: Global,
    metric: &Metric<'_>,
    below: &mut NameMap<Aggregation<B>>,
) -> Result<(), OutOfMemory>
    ensures { OnOk result
        (below.new ≡ put (metric_name metric.now) (metric_asked metric.now) below.old) }
{
    let name = metric_name(alloc, metric)?;
    let aggregation = Aggregation {
        agg: variant_of(alloc, metric)?,
        sub_aggregation: NameMap::new(alloc),
    };
    put(below, name, aggregation)?;
    Ok(())
}

fn variant_of<B>(alloc: Global, metric: &Metric<'_>) -> Result<AggregationVariants<B>, OutOfMemory>
    ensures { IfOk result (λ agg. agg ≡ of_kind metric.now.kind metric.now.field.now) }
{
    let field = Text::copy_of(alloc, metric.field)?;
    Ok(match metric.kind {
        MetricKind::Count => AggregationVariants::Count(CountAggregation { field }),
        MetricKind::Sum => AggregationVariants::Sum(SumAggregation { field }),
        MetricKind::Min => AggregationVariants::Min(MinAggregation { field }),
        MetricKind::Max => AggregationVariants::Max(MaxAggregation { field }),
    })
}

// Puts a value under a name.
fn put<T: Drop>(values: &mut NameMap<T>, name: Text, value: T) -> Result<(), OutOfMemory>
    ensures { OnOk result (values.new ≡ put name value values.old) }
{
    values.insert(name, value)?;
    Ok(())
}
