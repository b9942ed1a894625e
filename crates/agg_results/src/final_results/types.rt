//! The types of final results.
ghost use Rattle.std.specs.Prelude.{◌≡◌, ◌++◌, IfOk, OnOk, string_bytes};
ghost use Rattle.agg_results.specs.final_results.ResultsText.{results_text};

use crate::final_results::ending_text::write_ending;
use crate::final_results::own_members::OwnMembers;
use crate::final_results::result_text::write_results;
use agg_values::{AfterKey, CompositeKey, ItemList, NameMap, OutOfMemory, Text};

/// The results of a request, by name.
#[derive(Drop)]
#[cycle(final_results)]
pub struct AggregationResults(pub NameMap<AggregationResult>);

/// The result of one aggregation.
#[derive(Drop)]
#[cycle(final_results)]
pub enum AggregationResult {
    BucketResult(BucketResult),
    MetricResult(MetricResult),
}

/// The number that a metric gives, if there is one.
#[derive(Clone, Copy)]
pub struct SingleMetricResult {
    pub value: Option<i128>,
}

/// The result of a metric.
#[derive(Clone, Copy)]
pub enum MetricResult {
    Count(SingleMetricResult),
    Max(SingleMetricResult),
    Min(SingleMetricResult),
    Sum(SingleMetricResult),
}

/// A result that has buckets.
#[derive(Drop)]
#[cycle(final_results)]
pub enum BucketResult {
    Filter(FilterBucketResult),
    Composite {
        buckets: ItemList<CompositeBucketEntry>,
        /// The key after which the next page begins, empty where the page isn't full.
        after_key: NameMap<AfterKey>,
    },
}

/// The documents that a filter matches.
#[derive(Drop)]
#[cycle(final_results)]
pub struct FilterBucketResult {
    pub doc_count: u64,
    /// The results over these documents.
    pub sub_aggregations: AggregationResults,
}

/// One group of a page, as it is shown.
#[derive(Drop)]
#[cycle(final_results)]
pub struct CompositeBucketEntry {
    /// The shown key of each source, by its name.
    pub key: NameMap<CompositeKey>,
    pub doc_count: u64,
    /// The results over the documents of the group.
    pub sub_aggregation: AggregationResults,
}

impl AggregationResults {
    /// The results as JSON, with members ascending and no blanks.
    pub fn write_json(&self) -> Result<Text, OutOfMemory>
        ensures { IfOk result (λ text. text ≡ results_text self.now) }
    {
        let mut text = String::new(self.0.allocator());
        self.append_json(&mut text)?;
        Text::from_string(text)
    }

    /// Appends the text of `write_json`. After an error a part of it may have been appended.
    pub fn append_json(&self, text: &mut String) -> Result<(), OutOfMemory>
        ensures { OnOk result
            (string_bytes text.new ≡ string_bytes text.old ++ results_text self.now) }
    {
        write_results(self.0.allocator(), text, OwnMembers::none(), self)
    }

    /// Appends the text of `write_json`, and drops each bucket of a composite at the top once its
    /// text stands there. After an error a part of it may have been appended.
    pub fn into_json(self, text: &mut String) -> Result<(), OutOfMemory>
        ensures { OnOk result
            (string_bytes text.new ≡ string_bytes text.old ++ results_text self) }
    {
        write_ending(self.0.allocator(), text, self)
    }
}
