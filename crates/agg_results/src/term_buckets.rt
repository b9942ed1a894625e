//! Intermediate results of a terms aggregation.
ghost use Rattle.std.specs.Prelude.{◌≡◌};

use crate::IntermediateTermBucketEntry;
use agg_values::IntermediateKey;
use std::collections::HashMap;

/// What is held for the terms of a field: an entry for each term, and what is known of the terms
/// that aren't held.
#[derive(Drop)]
pub struct IntermediateTermBucketResult {
    entries: HashMap<IntermediateKey, IntermediateTermBucketEntry>,
    sum_other_doc_count: u64,
    doc_count_error_upper_bound: u64,
}

impl IntermediateTermBucketResult {
    /// The result of these parts.
    pub fn from_parts(
        entries: HashMap<IntermediateKey, IntermediateTermBucketEntry>,
        sum_other_doc_count: u64,
        doc_count_error_upper_bound: u64,
    ) -> IntermediateTermBucketResult
        ensures entries { result.entries ≡ entries }
        ensures sum { result.sum_other_doc_count ≡ sum_other_doc_count }
        ensures error { result.doc_count_error_upper_bound ≡ doc_count_error_upper_bound }
    {
        IntermediateTermBucketResult {
            entries,
            sum_other_doc_count,
            doc_count_error_upper_bound,
        }
    }

    /// The entry of each term.
    pub fn entries(&self) -> &HashMap<IntermediateKey, IntermediateTermBucketEntry>
        ensures { result.now ≡ self.now.entries }
    {
        &self.entries
    }

    /// The number of occurrences of the terms that aren't held.
    pub fn sum_other_doc_count(&self) -> u64
        ensures { result ≡ self.now.sum_other_doc_count }
    {
        self.sum_other_doc_count
    }

    /// By how many occurrences a held count may fall short.
    pub fn doc_count_error_upper_bound(&self) -> u64
        ensures { result ≡ self.now.doc_count_error_upper_bound }
    {
        self.doc_count_error_upper_bound
    }
}
