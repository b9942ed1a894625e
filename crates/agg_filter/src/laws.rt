//! What the collectors of one filter have in common.
ghost use Rattle.std.specs.Prelude.{◌≡◌, ℕ, Bool, List, Some};
ghost use Rattle.agg_cache.specs.Waiting.{docs_of, is_id};
ghost use Rattle.agg_filter.specs.Filter.{Filter, FilterFor, count_of, id_of};
ghost use Rattle.agg_filter.specs.SubResults.{HasHanded};

use agg_cache::SubAggCache;

/// Collectors over any two caches give equal sub-results: for the same visits each parent has the
/// same count, and what is below its bucket got the same documents in the same order.
pub fn caches_give_equal_sub_results<C: SubAggCache, D: SubAggCache>()
    ensures counts { (is_match : ℕ → Bool) (one : Filter C) (other : Filter D)
        (visited given others : List (ℕ × ℕ))
        → FilterFor C.waiting is_match one visited given
        → FilterFor D.waiting is_match other visited others
        → (parent : ℕ) → count_of one parent ≡ count_of other parent }
    ensures documents { (is_match : ℕ → Bool) (one : Filter C) (other : Filter D)
        (visited given others : List (ℕ × ℕ))
        → HasHanded C.waiting is_match one visited given
        → HasHanded D.waiting is_match other visited others
        → (parent id other_id : ℕ)
        → id_of one parent ≡ Some id
        → id_of other parent ≡ Some other_id
        → docs_of (is_id id) given ≡ docs_of (is_id other_id) others }
{}
