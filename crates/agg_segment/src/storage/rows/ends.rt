//! Where the numbers of each document end in a list.
ghost use Rattle.std.specs.Prelude.{◌≡◌, ◌≢◌, ◌<◌, ◌≤◌, ℕ};
ghost use Rattle.std.specs.Prelude.{length, get_or, IfOk};
ghost use Rattle.std.specs.List.{All};
ghost use Rattle.std.specs.List.Sorted.{IsNonDecreasing};
ghost use Rattle.agg_segment.specs.storage.Rows.{layout_docs, IsLaidOut};

use super::{DocEnd, Layout};
use agg_values::OutOfMemory;
use std::alloc::Global;

/// Which documents the numbers are of.
pub fn layout_of(alloc: Global, docs: &[u32]) -> Result<Layout, OutOfMemory>
    requires { IsNonDecreasing docs.now }
    ensures docs { IfOk result (λ layout. layout_docs layout ≡ docs.now) }
    ensures all { IfOk result (λ layout. IsLaidOut layout (length docs.now)) }
{
    let count = count_up_to_last(docs);
    if count / 2 < count_docs(docs) {
        return Ok(Layout::Dense(all_ends(alloc, docs, count)?));
    }
    Ok(Layout::Listed(doc_ends(alloc, docs)?))
}

// How many documents there are up to the last that is listed.
fn count_up_to_last(docs: &[u32]) -> usize
    requires { IsNonDecreasing docs.now }
    ensures { All (λ doc. doc < result) docs.now }
{
    if docs.is_empty() {
        return 0;
    }
    docs[docs.len() - 1] as usize + 1
}

// Where each of so many documents ends in a list.
fn all_ends(alloc: Global, docs: &[u32], count: usize) -> Result<Vec<u32>, OutOfMemory>
    requires ascending { IsNonDecreasing docs.now }
    requires all { All (λ doc. doc < count) docs.now }
    ensures docs { IfOk result (λ ends. layout_docs (Layout.Dense ends) ≡ docs.now) }
    ensures ends { IfOk result (λ ends. IsLaidOut (Layout.Dense ends) (length docs.now)) }
{
    let mut ends = Vec::with_capacity(alloc, count)?;
    let mut at = 0;
    for doc in 0..count {
        at = past_doc(docs, at, doc);
        let end = narrow(at)?;
        ends.push(end)?;
    }
    Ok(ends)
}

// The first place, from one on, that is not of a document.
fn past_doc(docs: &[u32], from: usize, doc: usize) -> usize
    requires { from ≤ length docs.now }
    ensures further { from ≤ result }
    ensures within { result ≤ length docs.now }
    ensures same { (k d : ℕ) → from ≤ k → k < result
        → get_or docs.now k d ≡ doc }
    ensures other { (d : ℕ) → result < length docs.now
        → get_or docs.now result d ≢ doc }
{
    let mut at = from;
    while at < docs.len() && docs[at] as usize == doc {
        at += 1;
    }
    at
}

// The distinct documents, with where each ends.
fn doc_ends(alloc: Global, docs: &[u32]) -> Result<Vec<DocEnd>, OutOfMemory>
    requires { IsNonDecreasing docs.now }
    ensures docs { IfOk result (λ ends. layout_docs (Layout.Listed ends) ≡ docs.now) }
    ensures ends { IfOk result (λ ends. IsLaidOut (Layout.Listed ends) (length docs.now)) }
{
    let mut ends = Vec::with_capacity(alloc, count_docs(docs))?;
    let mut at = 0;
    while at < docs.len() {
        let doc = docs[at];
        at = doc_end(docs, at);
        let end = narrow(at)?;
        ends.push(DocEnd { doc, end })?;
    }
    Ok(ends)
}

/// A count of numbers that fits 32 bits. More take more memory than there is.
pub fn narrow(count: usize) -> Result<u32, OutOfMemory>
    ensures { IfOk result (λ narrow. narrow ≡ count) }
{
    u32::try_from(count).map_err(|_| OutOfMemory)
}

// How many documents there are, as far as they ascend.
fn count_docs(docs: &[u32]) -> usize {
    let mut count = 0;
    let mut at = 0;
    while at < docs.len() {
        at = doc_end(docs, at);
        count += 1;
    }
    count
}

// Where the document at a place ends.
fn doc_end(docs: &[u32], from: usize) -> usize
    requires { from < length docs.now }
    ensures further { from < result }
    ensures within { result ≤ length docs.now }
    ensures same { (k d : ℕ) → from ≤ k → k < result
        → get_or docs.now k d ≡ get_or docs.now from d }
    ensures other { (d : ℕ) → result < length docs.now
        → get_or docs.now result d ≢ get_or docs.now from d }
{
    let doc = docs[from];
    let mut at = from + 1;
    while at < docs.len() && docs[at] == doc {
        at += 1;
    }
    at
}
