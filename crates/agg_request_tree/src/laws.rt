//! What holds of pages, as their definition says it.
ghost use Rattle.std.specs.Prelude.{◌≡◌, ◌≢◌, ◌↔◌, Bool, ℕ, ◌+◌, ◌*◌, ◌<◌, List, ◌++◌, length};
ghost use Rattle.std.specs.Prelude.{map, take, flat_map, All, AllPairs, Any, Contains};
ghost use Rattle.std.specs.Prelude.{IsPermutation};
ghost use Rattle.std.specs.List.{AllZip};
ghost use Rattle.std.specs.List.Sorted.{IsStrictlySortedBy};
ghost use Rattle.agg_segment.specs.storage.Document.{Fields};
ghost use Rattle.agg_values.specs.KeyOrder.{tuple_order};
ghost use Rattle.agg_values.specs.Laws.{IsSameness};
ghost use Rattle.agg_segment.specs.Query.{matches};
ghost use Rattle.agg_segment.specs.declared.query.QueryTree.{QueryTree};
ghost use Rattle.agg_request_tree.specs.Alike.{AreAlikeByClass, AreAllAlikeByClass, MatchAlike};
ghost use Rattle.agg_request_tree.specs.Groups.{Groups, Group};
ghost use Rattle.agg_request_tree.specs.Occurrences.{past_occurrences, bound_of};
ghost use Rattle.agg_request_tree.specs.BySource.{after_map};
ghost use Rattle.agg_request_tree.specs.Page.{Entry, IsPage, MayList, entry_of, group_of};
ghost use Rattle.agg_request_tree.specs.Page.{tuples_of};
ghost use Rattle.agg_request_tree.specs.Ranges.{HasStartOutOfRange};
ghost use Rattle.agg_request_tree.specs.Request.{Request};
ghost use Rattle.agg_request_tree.specs.Uncut.{counted, uncut, uncut_lists_of};
ghost use Rattle.agg_request_tree.specs.Faults.{HaveOwnNames};
ghost use Rattle.agg_request_tree.specs.Source.{rules_of, Sources};
ghost use Rattle.agg_request_tree.specs.Successive.{AreSuccessive, Step};
ghost use Rattle.agg_request_tree.specs.Successive.{entries_of, last_tuple, steps_over};
ghost use Rattle.agg_values.specs.Tuple.{KeyTuple};
ghost use Rattle.agg_request_tree.specs.declared.aggregation.CompositeAggregation as declared;
ghost use Rattle.agg_request_tree.specs.declared.aggregation.AggregationVariants as variants;

use crate::{
    CompositeAggregationSource, DateHistogramCompositeAggregationSource,
    HistogramCompositeAggregationSource, QueryBuildError, TermCompositeAggregationSource,
};

/// Every size, bound and list of documents has a page, and only one.
pub fn each_request_has_one_page()
    ensures exists { (sources : Sources) (size : ℕ) (bound : KeyTuple) (documents : List Fields)
        → (page : List Entry) × IsPage sources size bound documents page }
    ensures unique { (sources : Sources) (size : ℕ) (bound : KeyTuple) (documents : List Fields)
        → (page other : List Entry)
        → IsPage sources size bound documents page
        → IsPage sources size bound documents other
        → page ≡ other }
{}

/// Different places of a page hold different tuples.
pub fn a_page_lists_each_tuple_once()
    ensures { (sources : Sources) (size : ℕ) (bound : KeyTuple) (documents : List Fields)
        → (page : List Entry)
        → IsPage sources size bound documents page
        → AllPairs (λ entry other. entry.tuple ≢ other.tuple) page }
{}

/// Successive pages over the same documents, each past the last tuple of the one before, are one
/// page of all their sizes.
pub fn successive_pages_are_one_page()
    ensures two { (sources : Sources) (size more : ℕ) (bound : KeyTuple) (documents : List Fields)
        → (page next : List Entry)
        → IsPage sources size bound documents page
        → IsPage sources more (last_tuple bound page) documents next
        → IsPage sources (size + more) bound documents (page ++ next) }
    ensures all { (sources : Sources) (size : ℕ) (bound : KeyTuple) (documents : List Fields)
        → (pages : List (List Entry))
        → AreSuccessive sources bound (steps_over size documents pages)
        → IsPage sources (length pages * size) bound documents (flat_map (λ page. page) pages) }
{}

/// A page with fewer entries than its size lists every tuple of the documents past the bound.
pub fn a_page_with_room_is_the_last()
    ensures { (sources : Sources) (size : ℕ) (bound : KeyTuple) (documents : List Fields)
        → (page : List Entry)
        → IsPage sources size bound documents page
        → length page < size
        → All (Contains (tuples_of page)) (past_occurrences sources bound documents) }
{}

/// Successive pages list their tuples in ascending order and each once, also where the documents
/// change between them. Where some page has room, they list each tuple that each of them may list
/// past the bound.
pub fn successive_pages_list_each_tuple_once()
    ensures ascending { (sources : Sources) (bound : KeyTuple) (steps : List Step)
        → AreSuccessive sources bound steps
        → IsStrictlySortedBy (tuple_order (rules_of sources)) (tuples_of (entries_of steps)) }
    ensures once { (sources : Sources) (bound : KeyTuple) (steps : List Step)
        → AreSuccessive sources bound steps
        → AllPairs (λ entry other. entry.tuple ≢ other.tuple) (entries_of steps) }
    ensures whole { (sources : Sources) (bound : KeyTuple) (steps : List Step)
        → AreSuccessive sources bound steps
        → (tuple : KeyTuple)
        → All (λ step. MayList sources bound step.documents tuple) steps
        → Any (λ step. length step.page < step.size) steps
        → Contains (tuples_of (entries_of steps)) tuple }
{}

/// Successive pages over the same documents come to one with room, and have listed every tuple past
/// the bound then.
pub fn successive_pages_end_with_every_tuple()
    ensures ends { (sources : Sources) (size : ℕ) (bound : KeyTuple) (documents : List Fields)
        → (pages : List (List Entry))
        → AreSuccessive sources bound (steps_over size documents pages)
        → 0 < size
        → length (past_occurrences sources bound documents) < length pages
        → Any (λ page. length page < size) pages }
    ensures every { (sources : Sources) (size : ℕ) (bound : KeyTuple) (documents : List Fields)
        → (pages : List (List Entry))
        → AreSuccessive sources bound (steps_over size documents pages)
        → Any (λ page. length page < size) pages
        → All (Contains (tuples_of (flat_map (λ page. page) pages)))
        (past_occurrences sources bound documents) }
{}

/// The bound that a tuple gives as an after key is the tuple.
pub fn an_after_key_is_its_tuple()
    ensures { (sources : Sources) (tuple : KeyTuple)
        → HaveOwnNames sources
        → length tuple ≡ length sources
        → bound_of sources (after_map sources tuple) ≡ tuple }
{}

/// Each entry of a page counts its documents, and the order of all documents changes no tuple and
/// no count.
pub fn counts_are_of_the_documents()
    ensures counted { (sources : Sources) (size : ℕ) (bound : KeyTuple) (documents : List Fields)
        → (page : List Entry)
        → IsPage sources size bound documents page
        → All (λ entry. entry.count ≡ length entry.documents) page }
    ensures any_order { (sources : Sources) (size : ℕ) (bound : KeyTuple)
        → (documents others : List Fields) (page other : List Entry)
        → IsPermutation documents others
        → IsPage sources size bound documents page
        → IsPage sources size bound others other
        → map group_of page ≡ map group_of other }
{}

/// The order of the classes inside the fields of documents changes no tuple and no count of a page,
/// nor what a query matches, nor how often an aggregation at any depth lists a document, nor
/// whether a start of a bucket lies outside i64.
pub fn classes_count_in_any_order<B>()
    ensures pages { (sources : Sources) (size : ℕ) (bound : KeyTuple)
        → (documents others : List Fields) (page other : List Entry)
        → AreAllAlikeByClass documents others
        → IsPage sources size bound documents page
        → IsPage sources size bound others other
        → map group_of page ≡ map group_of other }
    ensures counts { (composite : declared.CompositeAggregation) (documents others : List Fields)
        → AreAllAlikeByClass documents others
        → length (counted composite documents) ≡ length (counted composite others) }
    ensures matches { (tree : QueryTree) (document other : Fields)
        → AreAlikeByClass document other
        → matches tree document ≡ matches tree other }
    ensures uncut { (is_match : B → Fields → Bool)
        → MatchAlike is_match
        → (aggregation : variants.AggregationVariants B) (documents others : List Fields)
        → AreAllAlikeByClass documents others
        → AreAllAlikeByClass (uncut is_match aggregation documents)
        (uncut is_match aggregation others) }
    ensures lists { (is_match : B → Fields → Bool)
        → MatchAlike is_match
        → (request : Request B) (documents others : List Fields)
        → AreAllAlikeByClass documents others
        → AllZip AreAllAlikeByClass (uncut_lists_of is_match request documents)
        (uncut_lists_of is_match request others) }
    ensures starts { (request : Request B) (documents others : List Fields)
        → AreAllAlikeByClass documents others
        → HasStartOutOfRange request documents ↔ HasStartOutOfRange request others }
{}

/// The lowest groups of the past occurrences of all documents, as many as the size, are a page.
pub fn the_lowest_groups_are_a_page()
    ensures { (sources : Sources) (size : ℕ) (bound : KeyTuple) (documents : List Fields)
        → (groups : List Group)
        → Groups (rules_of sources) (past_occurrences sources bound documents) groups
        → IsPage sources size bound documents
        (map (entry_of sources documents) (take size groups)) }
{}

/// Equality of sources, and of why a builder gave no query, goes by variant and content.
pub fn request_equality_is_sameness()
    ensures terms_sources { IsSameness ⟦<TermCompositeAggregationSource as PartialEq>⟧.eq }
    ensures histogram_sources { IsSameness ⟦<HistogramCompositeAggregationSource as PartialEq>⟧.eq }
    ensures date_sources { IsSameness ⟦<DateHistogramCompositeAggregationSource as PartialEq>⟧.eq }
    ensures sources { IsSameness ⟦<CompositeAggregationSource as PartialEq>⟧.eq }
    ensures build_errors { IsSameness ⟦<QueryBuildError as PartialEq>⟧.eq }
{}
