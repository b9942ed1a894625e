//! What holds of the walks of generated inputs, as their definition says it.
ghost use Rattle.std.specs.Prelude.{◌≤◌, ◌+◌, ℕ, Option};
ghost use Rattle.agg_values.specs.Nothing.{NoneIs};
ghost use Rattle.agg_cache.specs.Limits.{Limits};
ghost use Rattle.agg_segment.specs.declared.query.QueryTree.{QueryTree};
ghost use Rattle.agg_pages.specs.generated_walks.Walks.{GeneratedMayBeAsked};
ghost use Rattle.agg_pages.specs.generated_walks.Walks.{GeneratedRefusedAtMost};
ghost use Rattle.agg_pages.specs.generated_walks.Walks.{most_buckets, most_bytes};

/// A generated walk may be asked, and is never refused where the limits leave it its room: 100
/// buckets on a page, and the bytes of its request and of 100 buckets.
pub fn generated_walks_are_never_refused<B>()
    ensures asked { (query_for : B → Option QueryTree) (seed : ℕ)
        → GeneratedMayBeAsked query_for seed }
    ensures answered { (query_for : B → Option QueryTree) (seed : ℕ) (limits : Limits)
        → limits.in_use + most_bytes ≤ limits.memory_limit
        → most_buckets ≤ limits.bucket_limit
        → NoneIs (GeneratedRefusedAtMost query_for seed limits) }
{}
