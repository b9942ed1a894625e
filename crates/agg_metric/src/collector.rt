//! The collector that computes a metric of a field in a segment.
ghost use Rattle.std.specs.Prelude.{◌≡◌, ◌<◌, ℕ, List, [], ◌++◌, IfErr, IsErrOf, OnOk};
ghost use Rattle.std.specs.Prelude.{length};
ghost use Rattle.agg_cache.specs.Waiting.{under};
ghost use Rattle.agg_cache.specs.declared.error.CollectError.{CollectError};
ghost use Rattle.agg_segment.specs.Segment.{Stored};
ghost use Rattle.agg_metric.specs.declared.request_data.MetricAggReqData as declared;

use crate::metric::{metric_of_none, take_documents};
use crate::{MetricAggReqData, StatsType};
use agg_cache::{BucketId, CollectError};
use agg_results::metric_results::IntermediateMetricResult;
use agg_segment::{Column, SegmentReader};
use agg_values::DocId;
use std::alloc::Global;
use std::marker::Model;

/// Computes a metric of the documents of a segment, under parents.
#[derive(Drop)]
pub struct SegmentMetricCollector<'s> {
    collecting_for: StatsType,
    // The columns of the field that is read.
    columns: &'s [Column],
    // The metric of each prepared parent.
    metrics: Vec<IntermediateMetricResult>,
}

impl<'s> Model for SegmentMetricCollector<'s> {
    ghost use Rattle.agg_metric.specs.Collector.{Metric};

    ghost Value = { Metric };

    ghost view = { λ collector. record {
      collecting_for = collector.collecting_for;
      columns = collector.columns.now;
      metrics = collector.metrics.items;
    } };
}

impl<'s> SegmentMetricCollector<'s> {
    ghost use Rattle.agg_metric.specs.Collector.{MetricFor, MetricTakes, Prepares};
    ghost use Rattle.agg_metric.specs.Collector.{metric_at, values_under};
    ghost use Rattle.agg_metric.specs.Metric.{IsTooMany, metric_of};

    /// A collector without a prepared parent.
    pub fn new(
        alloc: Global,
        req: &MetricAggReqData,
        segment: &'s SegmentReader,
    ) -> SegmentMetricCollector<'s>
        ensures empty { MetricFor segment.now req.now result [] }
        ensures parents { length result.metrics ≡ 0 }
    {
        SegmentMetricCollector {
            collecting_for: req.collecting_for,
            columns: segment.columns(&req.field),
            metrics: Vec::new(alloc),
        }
    }

    /// Prepares parents up to this one, without a value.
    pub fn prepare_max_bucket(&mut self, max_bucket: BucketId) -> Result<(), CollectError>
        ensures prepared { OnOk result (max_bucket < length self.new.metrics) }
        ensures parents { Prepares self.old self.new }
        ensures right { (segment : Stored) (req : declared.MetricAggReqData)
            (visited : List (ℕ × ℕ)) → MetricFor segment req self.old visited
            → MetricFor segment req self.new visited }
        ensures errors { IfErr result (λ e. e ≡ CollectError.OutOfMemory) }
    {
        let prepared = max_bucket as usize + 1;
        if prepared <= self.metrics.len() {
            return Ok(());
        }
        self.metrics
            .resize(prepared, metric_of_none(self.collecting_for))
            .map_err(|_| CollectError::OutOfMemory)
    }

    /// Visits documents under a parent: takes in all values of the field in these. What is there
    /// after an error isn't said.
    pub fn collect(
        &mut self,
        parent_bucket_id: BucketId,
        docs: &[DocId],
    ) -> Result<(), CollectError>
        requires parent { parent_bucket_id < length self.old.metrics }
        ensures visits { OnOk result
            (MetricTakes (under parent_bucket_id docs.now) self.old self.new) }
        ensures parents { length self.new.metrics ≡ length self.old.metrics }
        ensures too_many { (segment : Stored) (req : declared.MetricAggReqData)
            (visited : List (ℕ × ℕ)) → MetricFor segment req self.old visited
            → IsErrOf result CollectError.TooMany
            → IsTooMany req.collecting_for (values_under segment req.field parent_bucket_id
            (visited ++ under parent_bucket_id docs.now)) }
        ensures errors { IfErr result (λ e. e ≡ CollectError.TooMany) }
    {
        let metric = &mut self.metrics[parent_bucket_id as usize];
        take_documents(metric, self.columns, docs)?;
        Ok(())
    }

    /// The metric of a parent: that of no documents where it isn't prepared.
    pub fn result(&self, parent_bucket_id: BucketId) -> IntermediateMetricResult
        ensures metric { result ≡ metric_at self.now parent_bucket_id }
        ensures stands { (segment : Stored) (req : declared.MetricAggReqData)
            (visited : List (ℕ × ℕ)) → MetricFor segment req self.now visited
            → result ≡ metric_of req.collecting_for
            (values_under segment req.field parent_bucket_id visited) }
    {
        self.metrics
            .get(parent_bucket_id as usize)
            .copied()
            .unwrap_or(metric_of_none(self.collecting_for))
    }
}
