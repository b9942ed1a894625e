//! How a tree of collectors prepares parents.
ghost use Rattle.std.specs.Prelude.{◌≡◌, ◌⊎◌, [], ℕ, IfErr, IsErrOf, OnOk, false};
ghost use Rattle.agg_engine_tree.specs.declared.segment_context.context.PerRequestAggSegCtx
    as declared;
ghost use Rattle.agg_engine_tree.specs.collector_tree.Prepared.{IsPrepared};
ghost use Rattle.agg_engine_tree.specs.collector_tree.Tree.{Takes, group_of, held_of};

use crate::collector_tree::SegmentCollectorTree;
use agg_cache::{BucketId, CollectError};

/// Prepares parents up to this one, in each collector at the top of a tree.
#[cycle(prepare)]
pub fn prepare(
    node: &mut SegmentCollectorTree<'_>,
    max_bucket: BucketId,
) -> Result<(), CollectError>
    ensures ok { OnOk result ((ctx : declared.PerRequestAggSegCtx) (steps : ℕ)
        → Takes ctx [] false (held_of node.old) (held_of node.new) steps steps) }
    ensures prepared { OnOk result (IsPrepared max_bucket (held_of node.new)) }
    ensures errors { IfErr result
        (λ error. (error ≡ CollectError.TooMany) ⊎ (error ≡ CollectError.OutOfMemory)) }
    ensures too_many { IsErrOf result CollectError.TooMany → max_bucket ≡ 4294967295 }
{
    match node {
        SegmentCollectorTree::Composite(_, collector, _) => {
            collector.prepare_max_bucket(max_bucket)?;
            Ok(())
        }
        SegmentCollectorTree::Filter(_, collector, _) => collector.prepare_max_bucket(max_bucket),
        SegmentCollectorTree::Metric(_, collector) => collector.prepare_max_bucket(max_bucket),
        SegmentCollectorTree::Group(children) => prepare_all(children, max_bucket),
    }
}

// Prepares the parents up to a bucket in each of several trees.
#[cycle(prepare)]
fn prepare_all(
    children: &mut Vec<SegmentCollectorTree<'_>>,
    max_bucket: BucketId,
) -> Result<(), CollectError>
    ensures ok { OnOk result ((ctx : declared.PerRequestAggSegCtx) (steps : ℕ)
        → Takes ctx [] false (group_of children.old.items) (group_of children.new.items) steps
        steps) }
    ensures prepared { OnOk result (IsPrepared max_bucket (group_of children.new.items)) }
    ensures errors { IfErr result
        (λ error. (error ≡ CollectError.TooMany) ⊎ (error ≡ CollectError.OutOfMemory)) }
    ensures too_many { IsErrOf result CollectError.TooMany → max_bucket ≡ 4294967295 }
{
    for i in 0..children.len() {
        prepare(&mut children[i], max_bucket)?;
    }
    Ok(())
}
