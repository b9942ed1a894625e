//! The text of groups.
ghost use Rattle.std.specs.Prelude.{◌≡◌, ◌++◌, IfErr, IfOk, List, OnOk, option_map};
ghost use Rattle.std.specs.Prelude.{string_bytes};
ghost use Rattle.std.specs.List.{AllZip};
ghost use Rattle.peslumok_front.specs.declared.tables.row.Row.{Row as Line};
ghost use Rattle.peslumok_front.specs.front.Columns.{HaveNoColumns, HaveOwnHeaders, columns_asked};
ghost use Rattle.peslumok_front.specs.front.Pages.{next_after};
ghost use Rattle.peslumok_front.specs.front.Written.{AreRowsOf, AreTotalRows, IsGroupRow};
ghost use Rattle.peslumok_front.specs.front.Written.{IsGroupsText, IsPageText, groups_in, total_in};
ghost use Rattle.peslumok_front.specs.front.Written.{total_written};

use crate::front::asked::Asked;
use crate::front::columns::columns_of;
use crate::front::failure::Failure;
use crate::grouping::{GROUPS, TOTAL};
use crate::tables::{Columns, Row, cells_of_group, cells_of_total, write_rows};
use agg_results::final_results::{
    AggregationResult, AggregationResults, BucketResult, CompositeBucketEntry, FilterBucketResult,
};
use agg_values::{AfterKey, NameMap, OutOfMemory, Text, copied_after_key};
use peslumok_texts::formats::OutputFormat;
use std::alloc::Global;

/// Writes pages, one after another, and keeps the memory of their text.
#[derive(Drop)]
pub struct PageWriter {
    pub alloc: Global,
    pub columns: Columns,
    pub output: OutputFormat,
    /// The text of the last page.
    pub text: String,
}

impl PageWriter {
    /// A writer of what is asked for, in its columns.
    pub fn new(alloc: Global, asked: &Asked<'_>) -> Result<PageWriter, Failure>
        ensures columns { IfOk result
            (λ writer. writer.columns ≡ columns_asked asked.now.grouping) }
        ensures output { IfOk result (λ writer. writer.output ≡ asked.now.output) }
        ensures apart { OnOk result (HaveOwnHeaders (columns_asked asked.now.grouping)) }
        ensures cause { IfErr result (HaveNoColumns (columns_asked asked.now.grouping)) }
    {
        Ok(PageWriter {
            alloc,
            columns: columns_of(alloc, &asked.grouping)?,
            output: asked.output,
            text: String::new(alloc),
        })
    }

    /// Makes the text of a page: its rows after the header, and after the last page the row of all
    /// records.
    pub fn write_page(
        &mut self,
        page: &AggregationResults,
        is_first: bool,
        is_last: bool,
    ) -> Result<(), OutOfMemory>
        ensures text { OnOk result (IsPageText self.old.columns self.old.output is_first is_last
            page.now (string_bytes self.new.text)) }
        ensures columns { self.new.columns ≡ self.old.columns }
        ensures output { self.new.output ≡ self.old.output }
    {
        let groups = groups_of(self.alloc, page)?;
        let total = total_written(self.alloc, page, is_last)?;
        self.write_groups(groups, total, is_first)
    }

    /// Makes the text of groups and a total: their rows after the header.
    pub fn write_groups(
        &mut self,
        groups: &[CompositeBucketEntry],
        total: Option<&FilterBucketResult>,
        is_first: bool,
    ) -> Result<(), OutOfMemory>
        ensures text { OnOk result (IsGroupsText self.old.columns self.old.output is_first
            groups.now (option_map (λ t. t.now) total.entry) (string_bytes self.new.text)) }
        ensures columns { self.new.columns ≡ self.old.columns }
        ensures output { self.new.output ≡ self.old.output }
    {
        let rows = rows_of(self.alloc, &self.columns, groups, total)?;
        self.text.clear();
        write_rows(
            self.alloc,
            &mut self.text,
            self.output,
            &self.columns,
            rows.as_slice(),
            is_first,
        )
    }
}

/// The key after which the page after a page begins, empty where there is none.
pub fn next_after(
    alloc: Global,
    page: &AggregationResults,
) -> Result<NameMap<AfterKey>, OutOfMemory>
    ensures { IfOk result (λ after. after ≡ next_after page.now) }
{
    let name = Text::copy_of(alloc, GROUPS)?;
    let Some(AggregationResult::BucketResult(BucketResult::Composite { after_key, .. })) = page
        .0
        .get(&name)
    else {
        return Ok(NameMap::new(alloc));
    };
    copied_after_key(alloc, after_key)
}

// The rows of groups, and that of a total.
fn rows_of(
    alloc: Global,
    columns: &Columns,
    groups: &[CompositeBucketEntry],
    total: Option<&FilterBucketResult>,
) -> Result<Vec<Row>, OutOfMemory>
    ensures { IfOk result (λ rows.
        AreRowsOf columns.now groups.now (option_map (λ t. t.now) total.entry) rows.items) }
{
    let mut rows = rows_of_groups(alloc, columns, groups)?;
    add_total(alloc, &mut rows, columns, total)?;
    Ok(rows)
}

// The groups of a page.
fn groups_of(
    alloc: Global,
    page: &AggregationResults,
) -> Result<&[CompositeBucketEntry], OutOfMemory>
    ensures { IfOk result (λ groups. groups.now ≡ groups_in page.now) }
{
    let name = Text::copy_of(alloc, GROUPS)?;
    match page.0.get(&name) {
        Some(AggregationResult::BucketResult(BucketResult::Composite { buckets, .. })) => {
            Ok(buckets.as_slice())
        }
        _ => Ok(&[]),
    }
}

// The total of a page, where it has one.
fn total_of(
    alloc: Global,
    page: &AggregationResults,
) -> Result<Option<&FilterBucketResult>, OutOfMemory>
    ensures { IfOk result (λ total. option_map (λ t. t.now) total ≡ total_in page.now) }
{
    let name = Text::copy_of(alloc, TOTAL)?;
    match page.0.get(&name) {
        Some(AggregationResult::BucketResult(BucketResult::Filter(total))) => Ok(Some(total)),
        _ => Ok(None),
    }
}

// The total that is written of a page: only that of the last one is.
fn total_written(
    alloc: Global,
    page: &AggregationResults,
    is_last: bool,
) -> Result<Option<&FilterBucketResult>, OutOfMemory>
    ensures { IfOk result (λ total.
        option_map (λ t. t.now) total ≡ total_written is_last page.now) }
{
    if !is_last {
        return Ok(None);
    }
    total_of(alloc, page)
}

// A row for each group.
fn rows_of_groups(
    alloc: Global,
    columns: &Columns,
    groups: &[CompositeBucketEntry],
) -> Result<Vec<Row>, OutOfMemory>
    ensures { IfOk result (λ rows. AllZip (IsGroupRow columns.now) groups.now rows.items) }
{
    let mut rows = Vec::with_capacity(alloc, groups.len())?;
    for group in groups {
        let row = cells_of_group(alloc, columns, group)?;
        rows.push(row)?;
    }
    Ok(rows)
}

// Appends the row of a total, where there is one.
fn add_total(
    alloc: Global,
    rows: &mut Vec<Row>,
    columns: &Columns,
    total: Option<&FilterBucketResult>,
) -> Result<(), OutOfMemory>
    ensures { OnOk result ((totals : List Line)
        × AreTotalRows columns.now (option_map (λ t. t.now) total.entry) totals
        × (rows.new.items ≡ rows.old.items ++ totals)) }
{
    if let Some(total) = total {
        let row = cells_of_total(alloc, columns, total.doc_count, &total.sub_aggregations)?;
        rows.push(row)?;
    }
    Ok(())
}
