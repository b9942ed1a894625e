use crate::segment_context::given::{nested, two_documents};
use agg_engine_tree::segment_context::{
    AggContextParams, AggKind, AggRefNode, AggTreeViewNode, AggregationsSegmentCtx,
    PerRequestAggSegCtx, segment_context,
};
use agg_expect::expect_equal;
use agg_metric::StatsType;
use agg_request_tree::{Aggregations, check_request};
use agg_segment::{Schema, SegmentReader};
use agg_values::{NameMap, OutOfMemory, Text};
use std::alloc::{AllocError, Global};
use std::test::Fail;

// The context of a request in a segment.
fn context_in<'s>(
    alloc: Global,
    request: &'s Aggregations,
    reader: &'s SegmentReader,
) -> Result<AggregationsSegmentCtx<'s>, Fail> {
    check_request(alloc, request)?;
    let params = AggContextParams::new(alloc, request, &Schema::new(alloc))?;
    Ok(segment_context(alloc, request, reader, &params)?)
}

// The names and kinds of views, with those below each in brackets.
fn write_views(views: &[AggTreeViewNode], text: &mut String) -> Result<(), AllocError> {
    for view in views {
        text.push_str(view.name.as_str())?;
        text.push_str(" ")?;
        text.push_str(view.kind.as_str())?;
        text.push_str("(")?;
        write_views(view.children.as_slice(), text)?;
        text.push_str(")")?;
    }
    Ok(())
}

// Views, written so.
fn text_of(alloc: Global, views: &[AggTreeViewNode]) -> Result<String, AllocError> {
    let mut text = String::new(alloc);
    write_views(views, &mut text)?;
    Ok(text)
}

// The views of a request in a segment, written so.
fn views_in(alloc: Global, request: &Aggregations, reader: &SegmentReader) -> Result<String, Fail> {
    let ctx = context_in(alloc, request, reader)?;
    views_of(alloc, &ctx.per_request)
}

fn views_of(alloc: Global, ctx: &PerRequestAggSegCtx<'_>) -> Result<String, Fail> {
    let views = ctx.get_view_tree()?;
    Ok(text_of(alloc, views.as_slice())?)
}

#[test]
fn shows_the_nodes_of_a_request(rt: HostRuntime) -> Result<(), Fail> {
    let alloc = rt.alloc();
    let request = nested(alloc)?;
    let reader = two_documents(alloc)?;
    let text = views_in(alloc, &request, &reader)?;
    expect_equal(
        text.as_str(),
        "g Composite(f Filter(h Composite())s Metric())",
    )
}

// The kind of the child of a name.
fn kind_below(
    alloc: Global,
    node: &AggRefNode,
    name: &str,
    ctx: &PerRequestAggSegCtx<'_>,
) -> Result<Option<AggKind>, AllocError> {
    let Ok(name) = Text::copy_of(alloc, name) else {
        return Err(AllocError);
    };
    match node.get_sub_agg(&name, ctx) {
        Some(child) => Ok(Some(child.kind)),
        None => Ok(None),
    }
}

// The first node has this name, and children of these names and kinds.
fn expect_children(alloc: Global, ctx: &PerRequestAggSegCtx<'_>) -> Result<(), Fail> {
    let Some(node) = ctx.agg_tree.as_slice().first() else {
        return Err(Fail::new("there is no node"));
    };
    let name = ctx.get_name(node).map(|name| name.as_str());
    let kinds = [
        kind_below(alloc, node, "f", ctx)?,
        kind_below(alloc, node, "s", ctx)?,
        kind_below(alloc, node, "h", ctx)?,
    ];
    let sum = AggKind::StatsKind(StatsType::Sum);
    expect_equal(
        (name, kinds),
        (Some("g"), [Some(AggKind::Filter), Some(sum), None]),
    )
}

// The first node of a request in a segment has this name and these children.
fn expect_children_in(
    alloc: Global,
    request: &Aggregations,
    reader: &SegmentReader,
) -> Result<(), Fail> {
    let ctx = context_in(alloc, request, reader)?;
    expect_children(alloc, &ctx.per_request)
}

#[test]
fn finds_children_by_name(rt: HostRuntime) -> Result<(), Fail> {
    let request = nested(rt.alloc())?;
    let reader = two_documents(rt.alloc())?;
    expect_children_in(rt.alloc(), &request, &reader)
}

// Sets the page of a composite of a name, with this size.
fn set_page(
    alloc: Global,
    params: &mut AggContextParams,
    name: &str,
    size: u32,
) -> Result<(), OutOfMemory> {
    params.set_page(Text::copy_of(alloc, name)?, size, NameMap::new(alloc));
    Ok(())
}

// Sets two pages, one after the other.
fn set_pages(alloc: Global, request: &Aggregations) -> Result<(), Fail> {
    let mut params = AggContextParams::new(alloc, request, &Schema::new(alloc))?;
    set_page(alloc, &mut params, "g", 3)?;
    set_page(alloc, &mut params, "h", 5)?;
    Ok(())
}

#[test]
fn takes_a_page(rt: HostRuntime) -> Result<(), Fail> {
    let request = nested(rt.alloc())?;
    set_pages(rt.alloc(), &request)
}
