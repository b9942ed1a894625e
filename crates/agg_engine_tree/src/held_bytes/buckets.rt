//! The bytes that the buckets of a tree of collectors take.
ghost use Rattle.agg_engine_tree.specs.collector_tree.Tree.{Fits, held_of};
ghost use Rattle.agg_engine_tree.specs.held_bytes.Checked.{IsChecked};
ghost use Rattle.agg_engine_tree.specs.held_bytes.HeldBytes.{held_bytes};
ghost use Rattle.agg_engine_tree.specs.segment_context.Context.{IsMeant, Meaning};

use crate::collector_tree::SegmentCollectorTree;
use crate::segment_context::PerRequestAggSegCtx;
use agg_request_tree::charges::bucket_bytes;

/// The bytes that the buckets of a tree take, unless they are more than u64 has.
pub fn held_bytes(tree: &SegmentCollectorTree<'_>, ctx: &PerRequestAggSegCtx<'_>) -> Option<u64>
    requires meant { (meaning : Meaning) × IsMeant meaning ctx.now }
    requires fits { Fits ctx.now (held_of tree.now) }
    ensures { IsChecked (held_bytes ctx.now (held_of tree.now)) result }
{
    match tree {
        SegmentCollectorTree::Composite(index, collector, below) => {
            let req = &ctx.composite_req_data.as_slice()[*index];
            let own = bucket_bytes(req.req).checked_mul(collector.num_buckets())?;
            own.checked_add(held_bytes(below, ctx)?)
        }
        SegmentCollectorTree::Filter(_, _, below) => held_bytes(below, ctx),
        SegmentCollectorTree::Metric(_, _) => Some(0),
        SegmentCollectorTree::Group(children) => {
            let mut bytes: u64 = 0;
            for child in children {
                bytes = bytes.checked_add(held_bytes(child, ctx)?)?;
            }
            Some(bytes)
        }
    }
}
