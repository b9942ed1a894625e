//! Laws of visits, of pages, and of collectors that made the same visits.
ghost use Rattle.std.specs.Prelude.{◌≡◌, ℕ, All, List, length, map, take, true};
ghost use Rattle.std.specs.List.{AllZip};
ghost use Rattle.agg_values.specs.Names.{Named};
ghost use Rattle.agg_values.specs.declared.after_key.AfterKey.{AfterKey};
ghost use Rattle.agg_cache.specs.Waiting.{docs_of, is_id};
ghost use Rattle.agg_segment.specs.Segment.{Stored, documents_at};
ghost use Rattle.agg_request_tree.specs.Groups.{Group, Groups};
ghost use Rattle.agg_request_tree.specs.Occurrences.{bound_of, past_occurrences};
ghost use Rattle.agg_request_tree.specs.Source.{Sources, rules_of};
ghost use Rattle.agg_composite.specs.accessor.Accessors.{Fits};
ghost use Rattle.agg_composite.specs.declared.accessor.request_data.CompositeAggReqData.{
  CompositeAggReqData,
};
ghost use Rattle.agg_composite.specs.buckets.Cut.{tuples_under};
ghost use Rattle.agg_composite.specs.Composite.{Composite, CompositeFor, docs_under, page_of};
ghost use Rattle.agg_composite.specs.HeldTuples.{HoldsTuplesOf};
ghost use Rattle.agg_composite.specs.PageEntries.{entry_group, page_entries};
ghost use Rattle.agg_composite.specs.SubResults.{AreAlike, HasHanded, IsPageOf};
ghost use Rattle.agg_composite.specs.Visits.{TypedVisit, visits_past};
ghost use Rattle.agg_composite.specs.declared.page_entry.PageEntry.{PageEntry};

use agg_cache::SubAggCache;

/// The tuples of the visits of documents under a parent are their occurrences past the bound, and
/// there are no other visits.
pub fn visits_have_the_occurrences()
    ensures tuples { (sources : Sources) (segment : Stored) (after : Named AfterKey) (parent : ℕ)
        (docs : List ℕ) → tuples_under parent (visits_past sources segment after parent docs)
        ≡ past_occurrences sources (bound_of sources after) (documents_at segment docs) }
    ensures count { (sources : Sources) (segment : Stored) (after : Named AfterKey) (parent : ℕ)
        (docs : List ℕ) → length (visits_past sources segment after parent docs)
        ≡ length (past_occurrences sources (bound_of sources after) (documents_at segment docs)) }
{}

/// The buckets of a parent, as entries: their tuples stand for tuples, they are the lowest groups
/// of the visits, and where all was handed on, each has the documents that were given under its
/// id.
pub fn pages_have_the_lowest_groups<C: SubAggCache>()
    ensures encoded { (req : CompositeAggReqData) (collector : Composite C)
        (visited : List TypedVisit) (given : List (ℕ × ℕ))
        → CompositeFor C.waiting req collector visited given
        → HoldsTuplesOf req collector }
    ensures groups { (segment : Stored) (after : Named AfterKey) (req : CompositeAggReqData)
        → Fits segment after req
        → (collector : Composite C) (visited : List TypedVisit) (given : List (ℕ × ℕ))
        → CompositeFor C.waiting req collector visited given
        → (parent : ℕ) → (groups : List Group)
        × Groups (rules_of req.req.now.sources) (tuples_under parent visited) groups
        × (map entry_group (page_entries req (page_of collector parent)) ≡ take req.size groups) }
    ensures handed { (segment : Stored) (after : Named AfterKey) (req : CompositeAggReqData)
        → Fits segment after req
        → (collector : Composite C) (visited : List TypedVisit) (given : List (ℕ × ℕ))
        → HasHanded C.waiting req collector visited given
        → (parent : ℕ) → All (λ entry. docs_of (is_id entry.bucket_id) given
        ≡ docs_under (rules_of req.req.now.sources) parent entry.key visited)
        (page_entries req (page_of collector parent)) }
{}

/// Collectors over any two caches give equal sub-results: for the same visits their pages have the
/// same groups, and what is below a group got the same documents in the same order.
pub fn caches_give_equal_sub_results<C: SubAggCache, D: SubAggCache>()
    ensures { (segment : Stored) (after : Named AfterKey) (req : CompositeAggReqData)
        → Fits segment after req
        → (one : Composite C) (other : Composite D) (visited : List TypedVisit)
        (given others : List (ℕ × ℕ))
        → HasHanded C.waiting req one visited given
        → HasHanded D.waiting req other visited others
        → (parent : ℕ) (page page_other : List PageEntry)
        → IsPageOf req one parent page
        → IsPageOf req other parent page_other
        → AllZip (AreAlike given others) page page_other }
{}
