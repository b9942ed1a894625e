//! The bytes of the buckets of a tree, and those that its request counts over what the tree took.
ghost use Rattle.std.specs.Prelude.{◌≡◌, ◌≤◌, ℕ, List};
ghost use Rattle.std.specs.List.{All};
ghost use Rattle.agg_composite.specs.buckets.Visits.{docs_in};
ghost use Rattle.agg_request_tree.specs.charges.Roof.{counts_of};
ghost use Rattle.agg_request_tree.specs.charges.Roof.Height.{High, Low};
ghost use Rattle.agg_engine_tree.specs.collector_tree.Tree.{Held, IsFlushed};
ghost use Rattle.agg_engine_tree.specs.held_bytes.HeldBytes.{held_bytes};
ghost use Rattle.agg_engine_tree.specs.held_bytes.Trees.{AreOfSegment, AreUnder, IsTreeOf};
ghost use Rattle.agg_engine_tree.specs.held_bytes.Trees.{over_parents};
ghost use Rattle.agg_request_tree.specs.Request.{Request};
ghost use Rattle.agg_segment.specs.Query.{matches};
ghost use Rattle.agg_segment.specs.Segment.{documents_at};
ghost use Rattle.agg_segment.specs.declared.query.QueryTree.{QueryTree};
ghost use Rattle.agg_engine_tree.specs.segment_context.Context.{Meaning};
ghost use Rattle.agg_engine_tree.specs.declared.segment_context.context.PerRequestAggSegCtx
    as declared;

/// Whatever waits in caches, a tree holds at most the bytes of the buckets that its request counts
/// over the documents that were taken under each parent, and at most those of the documents that
/// were taken where they all were under parent 0.
pub fn trees_hold_at_most_their_roof()
    ensures parents { (meaning : Meaning) (ctx : declared.PerRequestAggSegCtx)
        → (request : Request QueryTree) (held : Held) (taken : List (ℕ × ℕ))
        → IsTreeOf meaning ctx request held taken
        → (parents : ℕ) → AreUnder parents taken
        → held_bytes ctx held
        ≤ over_parents (counts_of matches request High) meaning.segment taken parents }
    ensures one_parent { (meaning : Meaning) (ctx : declared.PerRequestAggSegCtx)
        → (request : Request QueryTree) (held : Held) (taken : List (ℕ × ℕ))
        → IsTreeOf meaning ctx request held taken
        → All (λ e. e.0 ≡ 0) taken
        → held_bytes ctx held
        ≤ counts_of matches request High (documents_at meaning.segment (docs_in taken)) }
{}

/// Where nothing waits in caches, a tree holds at least the low bytes of the buckets that its
/// request counts over the documents that were taken under each parent, or over all of them where
/// they were under parent 0. They have to be documents of the segment.
pub fn flushed_trees_hold_at_least_their_low_roof()
    ensures parents { (meaning : Meaning) (ctx : declared.PerRequestAggSegCtx)
        → (request : Request QueryTree) (held : Held) (taken : List (ℕ × ℕ))
        → IsTreeOf meaning ctx request held taken
        → IsFlushed held
        → AreOfSegment meaning.segment taken
        → (parents : ℕ)
        → over_parents (counts_of matches request Low) meaning.segment taken parents
        ≤ held_bytes ctx held }
    ensures one_parent { (meaning : Meaning) (ctx : declared.PerRequestAggSegCtx)
        → (request : Request QueryTree) (held : Held) (taken : List (ℕ × ℕ))
        → IsTreeOf meaning ctx request held taken
        → IsFlushed held
        → AreOfSegment meaning.segment taken
        → All (λ e. e.0 ≡ 0) taken
        → counts_of matches request Low (documents_at meaning.segment (docs_in taken))
        ≤ held_bytes ctx held }
{}
