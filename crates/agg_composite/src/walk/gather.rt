//! The choices that a document gives.
ghost use Rattle.std.specs.Prelude.{◌≡◌, ◌<◌, ◌++◌, ◌^◌, [], length, map, OnOk};
ghost use Rattle.agg_composite.specs.accessor.Accessors.{keys_read};
ghost use Rattle.agg_composite.specs.Choices.{AddsChoices, AreGathered, choice_at};
ghost use Rattle.agg_composite.specs.Choices.{divided_choices, values_read};
ghost use Rattle.agg_composite.specs.accessor.Least.{least_at, numbers_from};
ghost use Rattle.agg_composite.specs.accessor.Starts.{CanDivide, lane_number};

use super::choice::{Choice, missing_choice, side_of};
use super::index::index_at;
use crate::accessor::{
    CompositeAccessor, CompositeSourceAccessors, DividedColumn, Divisor, Encoded,
    PrecomputedAfterKey, lane_of,
};
use agg_request_tree::CompositeAggregationSource;
use agg_values::{DocId, Order, OutOfMemory};
use std::alloc::Global;

/// The choices of a document, source by source. The memory is kept from document to document.
#[derive(Drop)]
pub struct Gathered {
    /// The choices of all sources, end to end.
    pub choices: Vec<Choice>,
    /// How many of them each source has.
    pub sizes: Vec<usize>,
}

// A column that a source reads: the accessor at an index.
#[derive(Clone, Copy)]
struct SourceColumn<'r, 's> {
    source: &'r CompositeAggregationSource,
    accessors: &'r CompositeSourceAccessors<'s>,
    accessor: &'r CompositeAccessor<'s>,
    index: usize,
}

// The lane at an index, in a source's order.
#[derive(Clone, Copy)]
struct Lane<'r, 's> {
    order: Order,
    accessors: &'r CompositeSourceAccessors<'s>,
    index: usize,
}

impl Gathered {
    /// No choices.
    pub fn new(alloc: Global) -> Gathered
        ensures choices { result.choices.items ≡ [] }
        ensures sizes { result.sizes.items ≡ [] }
    {
        Gathered {
            choices: Vec::new(alloc),
            sizes: Vec::new(alloc),
        }
    }

    /// Takes the choices of a document; those that were there are gone.
    pub fn gather(
        &mut self,
        sources: &[CompositeAggregationSource],
        accessors: &[CompositeSourceAccessors<'_>],
        doc: DocId,
    ) -> Result<(), OutOfMemory>
        requires { length sources.now ≡ length accessors.now }
        ensures { OnOk result (AreGathered sources.now accessors.now doc
            self.new.sizes.items self.new.choices.items) }
    {
        self.choices.clear();
        self.sizes.clear();
        for index in 0..sources.len() {
            let before = self.choices.len();
            add_choices(&mut self.choices, &sources[index], &accessors[index], doc)?;
            self.sizes.push(self.choices.len() - before)?;
        }
        Ok(())
    }
}

// Appends the choices of a document for a source: its values, or Null where it has none and a
// missing value has a bucket.
fn add_choices(
    choices: &mut Vec<Choice>,
    source: &CompositeAggregationSource,
    accessors: &CompositeSourceAccessors<'_>,
    doc: DocId,
) -> Result<(), OutOfMemory>
    ensures { OnOk result (AddsChoices source.now accessors.now doc
        (values_read source.now accessors.now doc) choices.old.items choices.new.items) }
{
    let before = choices.len();
    add_values(choices, source, accessors, doc)?;
    if choices.len() != before {
        return Ok(());
    }
    if !source.missing_bucket() {
        return Ok(());
    }
    choices.push(missing_choice(source, accessors))?;
    Ok(())
}

// Appends the values of a document, by class ascending.
fn add_values<'r>(
    choices: &mut Vec<Choice>,
    source: &'r CompositeAggregationSource,
    accessors: &'r CompositeSourceAccessors<'_>,
    doc: DocId,
) -> Result<(), OutOfMemory>
    ensures { OnOk result (AddsChoices source.now accessors.now doc
        (keys_read source.now accessors.now.accessors doc) choices.old.items choices.new.items) }
{
    let order = source.order();
    let columns = accessors.accessors.as_slice();
    for turn in 0..columns.len() {
        let index = index_at(order, columns.len(), turn);
        let accessor = &columns[index];
        let numbers = accessor.column.values_for_doc(doc);
        let column = SourceColumn {
            source,
            accessors,
            accessor,
            index,
        };
        add_from(choices, &column, numbers)?;
    }
    Ok(())
}

// Appends those numbers of a column that aren't below the source's least value.
fn add_from(
    choices: &mut Vec<Choice>,
    read: &SourceColumn<'_, '_>,
    numbers: &[u64],
) -> Result<(), OutOfMemory>
    requires { read.now.index < 2 ^ 63 }
    ensures { OnOk result (choices.new.items ≡ choices.old.items
        ++ divided_choices read.now.source.now read.now.accessors.now read.now.accessor.now
        read.now.index
        (numbers_from (least_at read.now.accessors.now.min read.now.index) numbers.now)) }
{
    let least = read.accessors.least(read.index);
    // Most sources have no least value: then no number is looked at one by one.
    if let PrecomputedAfterKey::Next(0) = least {
        return add_column(choices, read, numbers);
    }
    for number in numbers {
        if least.gt(*number) {
            continue;
        }
        add_column(choices, read, &[*number])?;
    }
    Ok(())
}

// Appends numbers of a column, divided where the source divides them.
fn add_column(
    choices: &mut Vec<Choice>,
    read: &SourceColumn<'_, '_>,
    numbers: &[u64],
) -> Result<(), OutOfMemory>
    requires { read.now.index < 2 ^ 63 }
    ensures { OnOk result (choices.new.items ≡ choices.old.items
        ++ divided_choices read.now.source.now read.now.accessors.now read.now.accessor.now
        read.now.index numbers.now) }
{
    let lane = Lane {
        order: read.source.order(),
        accessors: read.accessors,
        index: lane_of(read.source, read.index),
    };
    let column = DividedColumn::new(read.source, read.accessor);
    match column.divisor {
        Divisor::Nothing => add_numbers(choices, &lane, numbers),
        _ => add_starts(choices, &lane, &column, numbers),
    }
}

// Appends numbers of a lane.
fn add_numbers(
    choices: &mut Vec<Choice>,
    lane: &Lane<'_, '_>,
    numbers: &[u64],
) -> Result<(), OutOfMemory>
    requires { lane.now.index < 2 ^ 63 }
    ensures { OnOk result (choices.new.items ≡ choices.old.items
        ++ map (choice_at lane.now.order lane.now.accessors.now lane.now.index) numbers.now) }
{
    for number in numbers {
        choices.push(choice_of(lane, *number))?;
    }
    Ok(())
}

// Appends the starts of numbers of a column, in a lane.
fn add_starts(
    choices: &mut Vec<Choice>,
    lane: &Lane<'_, '_>,
    column: &DividedColumn<'_>,
    numbers: &[u64],
) -> Result<(), OutOfMemory>
    requires index { lane.now.index < 2 ^ 63 }
    requires can { CanDivide column.now.divisor }
    ensures { OnOk result (choices.new.items ≡ choices.old.items
        ++ map (λ n. choice_at lane.now.order lane.now.accessors.now lane.now.index
        (lane_number column.now.divisor column.now.column.now.keys n)) numbers.now) }
{
    for number in numbers {
        let start = column.lane_number(*number);
        choices.push(choice_of(lane, start))?;
    }
    Ok(())
}

// A number of a lane as a choice.
fn choice_of(lane: &Lane<'_, '_>, number: u64) -> Choice
    requires { lane.now.index < 2 ^ 63 }
    ensures { result ≡ choice_at lane.now.order lane.now.accessors.now lane.now.index number }
{
    Choice {
        value: Encoded::at(lane.order, lane.index, number),
        side: side_of(lane.order, lane.accessors, lane.index, number),
    }
}
