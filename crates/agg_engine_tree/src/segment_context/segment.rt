//! The context of a request in a segment.
ghost use Rattle.std.specs.Prelude.{◌≡◌, IfErr, IfOk, map, true};
ghost use Rattle.agg_segment.specs.declared.query.QueryTree.{QueryTree as Tree};
ghost use Rattle.agg_request_tree.specs.Faults.{IsSoundRequest};
ghost use Rattle.agg_request_tree.specs.Request.{listed_in, with_builders, with_builders_in};
ghost use Rattle.agg_engine_tree.specs.segment_context.Additions.{AddsIn, AddsRequest, IsReadyFor};
ghost use Rattle.agg_engine_tree.specs.segment_context.Additions.{IsReadyIn, TreesFollow};
ghost use Rattle.agg_engine_tree.specs.segment_context.Context.{IsContextOf, Meaning};
ghost use Rattle.agg_engine_tree.specs.segment_context.Pages.{paged};
ghost use Rattle.agg_engine_tree.specs.segment_context.Plan.{plan_of, plans_of};
ghost use Rattle.agg_engine_tree.specs.segment_context.Tops.{KnowsTop, KnowTop};
ghost use Rattle.agg_engine_tree.specs.segment_context.Trees.{AreOfRequest, AreTreesOf, own_tree};
ghost use Rattle.agg_engine_tree.specs.segment_context.Trees.{trees_of};

mod accessors;
mod origin;
mod own;

use crate::segment_context::{
    AggContextParams, AggRefNode, AggregationsSegmentCtx, PerRequestAggSegCtx, SetupError,
};
use agg_request_tree::Aggregation;
use agg_segment::SegmentReader;
use agg_values::{ItemList, NameMap, Text};
use origin::Origin;
use own::add_data;
use std::alloc::Global;

/// The context of a request in a segment. A composite at top level that has the name of the page
/// that is set takes the page's size and after key. Filters at top level know it, and no others.
pub fn segment_context<'s, B: Drop>(
    alloc: Global,
    request: &'s NameMap<Aggregation<B>>,
    reader: &'s SegmentReader,
    params: &AggContextParams,
) -> Result<AggregationsSegmentCtx<'s>, SetupError>
    requires trees { AreOfRequest request.now params.now.trees }
    requires sound { IsSoundRequest (paged params.now.page request.now) }
    ensures ok { IfOk result (λ ctx. (made : B → Tree)
        → AreTreesOf made request.now params.now.trees
        → (meaning : Meaning) × (meaning.segment ≡ reader.now)
        × IsContextOf meaning ctx.per_request
        (paged params.now.page (with_builders made request.now))) }
    ensures top { IfOk result (λ ctx.
        KnowTop true ctx.per_request.filter_req_data
        (plans_of (map plan_of ctx.per_request.agg_tree))) }
    ensures err { IfErr result (λ error. error ≡ SetupError.OutOfMemory) }
{
    let from = Origin {
        alloc,
        reader,
        trees: params.trees(),
        page: params.page(),
        is_top_level: true,
    };
    let mut per_request = PerRequestAggSegCtx {
        filter_req_data: ItemList::new(alloc),
        stats_metric_req_data: ItemList::new(alloc),
        composite_req_data: ItemList::new(alloc),
        agg_tree: ItemList::new(alloc),
    };
    per_request.agg_tree = request_nodes(&from, request, &mut per_request)?;
    Ok(AggregationsSegmentCtx { per_request })
}

// Adds the data of a request, and gives its nodes, by name ascending.
#[cycle(nodes)]
fn request_nodes<'s, B: Drop>(
    from: &Origin<'s, '_>,
    request: &'s NameMap<Aggregation<B>>,
    ctx: &mut PerRequestAggSegCtx<'s>,
) -> Result<ItemList<AggRefNode>, SetupError>
    requires { IsReadyFor from.now ctx.old request.now }
    ensures ok { IfOk result (λ nodes. (made : B → Tree)
        → TreesFollow from.now ctx.old (trees_of (with_builders made request.now))
        → AddsRequest made from.now request.now nodes ctx.old ctx.new) }
    ensures top { IfOk result (λ nodes.
        KnowTop from.now.is_top_level ctx.new.filter_req_data (plans_of (map plan_of nodes))) }
    ensures err { IfErr result (λ error. error ≡ SetupError.OutOfMemory) }
{
    let mut nodes = ItemList::new(from.alloc);
    for (name, aggregation) in request.iter() {
        nodes.push(aggregation_node(from, name, aggregation, ctx)?)?;
    }
    Ok(nodes)
}

// Adds the data of an aggregation and of those below it, and gives its node.
#[cycle(nodes)]
fn aggregation_node<'s, B: Drop>(
    from: &Origin<'s, '_>,
    name: &Text,
    aggregation: &'s Aggregation<B>,
    ctx: &mut PerRequestAggSegCtx<'s>,
) -> Result<AggRefNode, SetupError>
    requires { IsReadyIn from.now ctx.old name.now aggregation.now }
    ensures ok { IfOk result (λ node. (made : B → Tree)
        → TreesFollow from.now ctx.old (listed_in own_tree (with_builders_in made aggregation.now))
        → AddsIn made from.now name.now aggregation.now node ctx.old ctx.new) }
    ensures top { IfOk result (λ node.
        KnowsTop from.now.is_top_level ctx.new.filter_req_data (plan_of node)) }
    ensures err { IfErr result (λ error. error ≡ SetupError.OutOfMemory) }
{
    let (kind, idx_in_req_data) = add_data(from, name, &aggregation.agg, ctx)?;
    let below = Origin {
        alloc: from.alloc,
        reader: from.reader,
        trees: from.trees,
        page: None,
        is_top_level: false,
    };
    let children = request_nodes(&below, &aggregation.sub_aggregation, ctx)?;
    Ok(AggRefNode {
        kind,
        idx_in_req_data,
        children,
    })
}
