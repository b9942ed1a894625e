//! Which requests may be written.
ghost use Rattle.std.specs.Prelude.{◌≡◌, ◌||◌, codes, not, option_map};
ghost use Rattle.std.specs.Map.{keys_of};
ghost use Rattle.std.specs.Str.{bytes_eq};
ghost use Rattle.agg_request.specs.json_values.Json.{is_among};
ghost use Rattle.agg_request.specs.reading.RequestJson.{kind_word};
ghost use Rattle.agg_request.specs.reading.Kinds.{are_free, may_hold, metric_kinds};
ghost use Rattle.agg_request.specs.Written.{all_may_be_written, has_no_null_min, have_no_null_min};
ghost use Rattle.agg_request.specs.Written.{is_null, may_be_written};

use agg_request_tree::{
    Aggregation, AggregationVariants, Aggregations, CompositeAggregationSource,
};
use agg_values::{CompositeIntermediateKey, NameMap};

/// Whether a request may be written: a metric has no aggregations below it, no aggregation below
/// another has the name of a member of a bucket, and no source has Null as its least value.
pub fn may_be_written(request: &Aggregations) -> bool
    ensures { result ≡ all_may_be_written request.now }
{
    all_may_be_written(request)
}

#[cycle(writable)]
fn all_may_be_written<B: Drop>(request: &NameMap<Aggregation<B>>) -> bool
    ensures { result ≡ all_may_be_written request.now }
{
    for (_, aggregation) in request.iter() {
        if !is_writable(aggregation) {
            return false;
        }
    }
    true
}

#[cycle(writable)]
fn is_writable<B: Drop>(aggregation: &Aggregation<B>) -> bool
    ensures { result ≡ may_be_written aggregation.now }
{
    if !has_no_null_min(&aggregation.agg) {
        return false;
    }
    may_hold(&aggregation.agg, &aggregation.sub_aggregation)
        && all_may_be_written(&aggregation.sub_aggregation)
}

// Whether no source of an aggregation has Null as its least value.
fn has_no_null_min<B>(agg: &AggregationVariants<B>) -> bool
    ensures { result ≡ has_no_null_min agg.now }
{
    match agg {
        AggregationVariants::Composite(composite) => {
            have_no_null_min(composite.sources.as_slice())
        }
        _ => true,
    }
}

// Whether no source has.
fn have_no_null_min(sources: &[CompositeAggregationSource]) -> bool
    ensures { result ≡ have_no_null_min sources.now }
{
    sources.iter().all(|source| !is_null(source.min()))
}

// Whether a key is Null, if there is one.
fn is_null(key: Option<&CompositeIntermediateKey>) -> bool
    ensures { result ≡ is_null (option_map (λ k. k.now) key.entry) }
{
    matches!(key, Some(CompositeIntermediateKey::Null))
}

// Whether an aggregation may have aggregations of these names below it.
fn may_hold<B: Drop>(agg: &AggregationVariants<B>, below: &NameMap<Aggregation<B>>) -> bool
    ensures { result ≡ may_hold (kind_word agg.now) (keys_of below.now) }
{
    (may_hold_some(agg) || below.is_empty()) && are_free(below)
}

// Whether an aggregation may have any below it.
fn may_hold_some<B>(agg: &AggregationVariants<B>) -> bool
    ensures { result ≡ not (is_among (kind_word agg.now) metric_kinds) }
{
    matches!(
        agg,
        AggregationVariants::Filter(_) | AggregationVariants::Composite(_)
    )
}

// Whether names are those of no member of a bucket.
fn are_free<B: Drop>(below: &NameMap<Aggregation<B>>) -> bool
    ensures { result ≡ are_free (keys_of below.now) }
{
    for name in below.keys() {
        if is_taken(name.as_str()) {
            return false;
        }
    }
    true
}

// Whether a name is that of a member of a bucket.
fn is_taken(name: &str) -> bool
    ensures { result ≡ bytes_eq name.now (codes "key") || bytes_eq name.now (codes "doc_count") }
{
    name == "key" || name == "doc_count"
}
