//! How often documents stand in the lists of nodes.
ghost use Rattle.std.specs.Prelude.{◌≡◌, ◌<◌, ◌*◌, ◌+◌, ℕ, List, IfOk, fold, length, map};
ghost use Rattle.std.specs.Prelude.{slice_index};
ghost use Rattle.std.specs.Io.Iter.{u64_saturate};
ghost use Rattle.agg_segment.specs.Query.{matches};
ghost use Rattle.agg_segment.specs.Segment.{Stored, document_at, documents_at, documents_of};
ghost use Rattle.agg_request_tree.specs.Uncut.{uncut};
ghost use Rattle.agg_engine_tree.specs.uncut.NodeData.{IsDataOf};
ghost use Rattle.agg_engine_tree.specs.uncut.Uncut.{Asked, own_weights, repeated, times};
ghost use Rattle.agg_engine_tree.specs.uncut.Weights.{AreWeighed, weights_of};

use crate::uncut::node_data::NodeData;
use agg_values::{DocId, OutOfMemory};
use std::alloc::Global;

/// How often each of some documents stands in a list.
#[derive(Clone, Copy)]
pub enum Weights<'a> {
    /// Once.
    Ones,
    /// As often as the number at its index says, and never where there is none.
    Each(&'a [u64]),
}

/// How many documents a node lists, where they stand so often in the list above it; at most the
/// greatest u64.
pub fn num_listed(node: &NodeData<'_, '_>, docs: &[DocId], weights: &Weights<'_>) -> u64
    requires { (segment : Stored) × (asks : Asked) × IsDataOf segment asks node.now }
    ensures { (segment : Stored) (asks : Asked) (exact : List ℕ)
        → AreWeighed segment asks exact node.now docs.now weights.now
        → result ≡ u64_saturate
        (length (uncut matches asks (repeated exact (documents_at segment docs.now)))) }
{
    match (node, weights) {
        (NodeData::Composite(req), Weights::Ones) => req.count_occurrences(docs),
        _ => num_weighed(node, docs, weights),
    }
}

// How many documents a node lists, counted document by document; at most the greatest u64.
fn num_weighed(node: &NodeData<'_, '_>, docs: &[DocId], weights: &Weights<'_>) -> u64
    requires { (segment : Stored) × (asks : Asked) × IsDataOf segment asks node.now }
    ensures { (segment : Stored) (asks : Asked) (exact : List ℕ)
        → AreWeighed segment asks exact node.now docs.now weights.now
        → result ≡ u64_saturate
        (length (uncut matches asks (repeated exact (documents_at segment docs.now)))) }
{
    let mut count: u64 = 0;
    for (index, doc) in docs.iter().enumerate() {
        count = count.saturating_add(own_weight(node, *doc, weight_at(weights, index)));
    }
    count
}

/// How often each document stands in the list of a node, where they stand so often in the list
/// above it.
pub fn own_weights(
    alloc: Global,
    node: &NodeData<'_, '_>,
    docs: &[DocId],
    weights: &Weights<'_>,
) -> Result<Vec<u64>, OutOfMemory>
    requires { (segment : Stored) × (asks : Asked) × IsDataOf segment asks node.now }
    ensures { (segment : Stored) (asks : Asked) (exact : List ℕ)
        → AreWeighed segment asks exact node.now docs.now weights.now
        → IfOk result (λ own. own.items
        ≡ map u64_saturate (own_weights asks exact (documents_at segment docs.now))) }
{
    let mut own = Vec::with_capacity(alloc, docs.len())?;
    for (index, doc) in docs.iter().enumerate() {
        own.push(own_weight(node, *doc, weight_at(weights, index)))?;
    }
    Ok(own)
}

/// The sum of numbers, at most the greatest u64.
pub fn total(numbers: &[u64]) -> u64
    ensures { result ≡ fold (λ sum n. u64_saturate (sum + n)) 0 numbers.now }
{
    numbers.iter().fold(0, |sum, n| sum.saturating_add(*n))
}

// How often a document stands in the list of a node, where it stands so often in that above it.
fn own_weight(node: &NodeData<'_, '_>, doc: DocId, weight: u64) -> u64
    requires { (segment : Stored) × (asks : Asked) × IsDataOf segment asks node.now }
    ensures { (segment : Stored) (asks : Asked) (exact : ℕ)
        → IsDataOf segment asks node.now → doc < length (documents_of segment)
        → weight ≡ u64_saturate exact
        → result ≡ u64_saturate (exact * times asks (document_at segment doc)) }
{
    weight.saturating_mul(node.times(doc))
}

// The weight of the document at an index.
fn weight_at(weights: &Weights<'_>, index: usize) -> u64
    ensures { (count : ℕ) → index < count
        → result ≡ slice_index (weights_of weights.now count) index }
{
    match weights {
        Weights::Ones => 1,
        Weights::Each(numbers) => numbers.get(index).copied().unwrap_or(0),
    }
}
