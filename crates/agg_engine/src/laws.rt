//! What holds of walks, as their definition says it.
ghost use Rattle.std.specs.Prelude.{◌≡◌, ◌≢◌, ◌↔◌, ℕ, List, [], Bool, false, All, filter, length};
ghost use Rattle.agg_values.specs.Tuple.{KeyTuple};
ghost use Rattle.agg_cache.specs.Limits.{Limits};
ghost use Rattle.agg_segment.specs.storage.Document.{Fields};
ghost use Rattle.agg_segment.specs.Query.{matches};
ghost use Rattle.agg_segment.specs.declared.query.QueryTree.{QueryTree};
ghost use Rattle.agg_request_tree.specs.Occurrences.{bound_of};
ghost use Rattle.agg_request_tree.specs.Page.{Entry, IsPage};
ghost use Rattle.agg_request_tree.specs.Request.{Request};
ghost use Rattle.agg_request_tree.specs.declared.aggregation.CompositeAggregation as composites;
ghost use Rattle.agg_request_tree.specs.charges.Settled.{IsSettled};
ghost use Rattle.agg_results.specs.declared.final_results.types.AggregationResults.{
  AggregationResults,
};
ghost use Rattle.agg_results.specs.Results.{AreResults};
ghost use Rattle.agg_engine.specs.NamedComposite.{IsCompositeNamed};
ghost use Rattle.agg_engine.specs.Refusals.{AreSettled, RefusedAtLeast, RefusedAtMost};
ghost use Rattle.agg_engine.specs.Refusals.{WalkRefusedAtLeast, WalkRefusedAtMost};
ghost use Rattle.agg_segment.specs.SnapshotDocuments.{SnapshotDocuments};
ghost use Rattle.agg_engine.specs.Walk.{IsWalk, after_in};
ghost use Rattle.agg_engine.specs.declared.walk.error.WalkError.{WalkError};

/// The walk over no snapshot has no page and has not ended.
pub fn a_walk_over_no_snapshot_has_no_page<B>()
    ensures walk { (is_match : B → Fields → Bool) (name : List ℕ) (query : QueryTree)
        (request : Request B)
        → IsWalk is_match name query request [] [] false }
    ensures only { (is_match : B → Fields → Bool) (name : List ℕ) (query : QueryTree)
        (request : Request B) (pages : List AggregationResults) (ended : Bool)
        → IsWalk is_match name query request [] pages ended
        → (pages ≡ []) × (ended ≡ false) }
{}

/// Every request has a walk over every list of snapshots, and only one.
pub fn each_request_has_one_walk<B>()
    ensures exists { (is_match : B → Fields → Bool) (name : List ℕ) (query : QueryTree)
        (request : Request B) (snapshots : List SnapshotDocuments)
        → (pages : List AggregationResults) × (ended : Bool)
        × IsWalk is_match name query request snapshots pages ended }
    ensures unique { (is_match : B → Fields → Bool) (name : List ℕ) (query : QueryTree)
        (request : Request B) (snapshots : List SnapshotDocuments)
        (pages others : List AggregationResults) (ended other : Bool)
        → IsWalk is_match name query request snapshots pages ended
        → IsWalk is_match name query request snapshots others other
        → (pages ≡ others) × (ended ≡ other) }
{}

/// The results of a request show an after key under the name of a composite with sources and room
/// exactly where its page is full.
pub fn a_full_page_shows_its_after_key<B>()
    ensures { (is_match : B → Fields → Bool) (name : List ℕ) (request : Request B)
        (documents : List Fields) (results : AggregationResults)
        (composite : composites.CompositeAggregation) (page : List Entry)
        → AreResults is_match request documents results
        → IsCompositeNamed name request composite
        → composite.sources ≢ []
        → composite.size ≢ 0
        → IsPage composite.sources composite.size
        (bound_of composite.sources composite.after) documents page
        → after_in name results ≢ [] ↔ length page ≡ composite.size }
{}

/// Whatever has to be refused may be refused: a request over segments, and a walk.
pub fn what_has_to_be_refused_may_be_refused<B>()
    ensures segments { (is_match : B → Fields → Bool) (limits : Limits) (query : QueryTree)
        (request : Request B) (segments : List (List Fields)) (why : WalkError)
        → RefusedAtLeast is_match limits query request segments why
        → RefusedAtMost is_match limits query request segments why }
    ensures walk { (is_match : B → Fields → Bool) (limits : Limits) (name : List ℕ)
        (query : QueryTree) (request : Request B) (snapshots : List SnapshotDocuments)
        (why : WalkError)
        → WalkRefusedAtLeast is_match limits name query request snapshots why
        → WalkRefusedAtMost is_match limits name query request snapshots why }
{}

/// A request that is settled over the documents of each segment that match has to be refused
/// exactly where it may be.
pub fn settled_snapshots_are_refused_exactly<B>()
    ensures { (is_match : B → Fields → Bool) (limits : Limits) (query : QueryTree)
        (request : Request B) (segments : List (List Fields)) (why : WalkError)
        → All (λ documents. IsSettled is_match request (filter (matches query) documents)) segments
        → RefusedAtMost is_match limits query request segments why
        ↔ RefusedAtLeast is_match limits query request segments why }
{}

/// A walk whose request is settled at each snapshot that it reaches has to be refused exactly where
/// it may be.
pub fn settled_walks_are_refused_exactly<B>()
    ensures { (is_match : B → Fields → Bool) (limits : Limits) (name : List ℕ) (query : QueryTree)
        (request : Request B) (snapshots : List SnapshotDocuments) (why : WalkError)
        → AreSettled is_match name query request snapshots
        → WalkRefusedAtMost is_match limits name query request snapshots why
        ↔ WalkRefusedAtLeast is_match limits name query request snapshots why }
{}
