ghost use Rattle.std.specs.Prelude.{◌≡◌, ◌<◌, ◌≤◌, ◌^◌, ◌&&◌, ◌||◌, ℕ, Bool, Some, IfOk};
ghost use Rattle.std.specs.Prelude.{length, not};
ghost use Rattle.std.specs.List.{All, list_any};
ghost use Rattle.agg_values.specs.TypedKey.{CompositeIntermediateKey};
ghost use Rattle.agg_segment.specs.Marks.{AreMarks, mark_at, passes, has_key};
ghost use Rattle.agg_segment.specs.Query.{holds};
ghost use Rattle.agg_segment.specs.SegmentLimits.{max_documents};
ghost use Rattle.agg_segment.specs.Spans.{is_in, IsSpanOf};

use super::key_test::{KeyTest, passing_span};
use super::span::Span;
use crate::SegmentReader;
use crate::storage::Column;
use agg_values::{DocId, OutOfMemory, Text};
use std::alloc::Global;

/// The documents with a key in a field that passes a test.
pub fn field_marks(
    alloc: Global,
    segment: &SegmentReader,
    field: &Text,
    test: KeyTest<'_>,
) -> Result<Vec<bool>, OutOfMemory>
    ensures { IfOk result
        (λ marks. AreMarks (holds (passes test.entry) field.now) segment.now marks.items) }
{
    let mut marks = same_marks(alloc, segment, false)?;
    for column in segment.columns(field) {
        mark_passing(&mut marks, column, test);
    }
    Ok(marks)
}

/// The same mark for each document.
pub fn same_marks(
    alloc: Global,
    segment: &SegmentReader,
    mark: bool,
) -> Result<Vec<bool>, OutOfMemory>
    ensures { IfOk result (λ marks. AreMarks (λ document. mark) segment.now marks.items) }
{
    Ok(vec![in alloc; mark; segment.num_docs() as usize]?)
}

// Marks the documents with a key in a column that passes a test.
fn mark_passing(marks: &mut [bool], column: &Column, test: KeyTest<'_>)
    requires { length marks.old ≤ max_documents }
    ensures each { length marks.new ≡ length marks.old }
    ensures told { (doc : ℕ) → doc < length marks.old
        → mark_at marks.new doc
        ≡ (mark_at marks.old doc || has_key (passes test.entry) doc column.now) }
{
    if let Some(span) = passing_span(test, column) {
        mark_column(marks, column, span);
    }
}

// Marks the documents that have a number of a column in a span.
fn mark_column(marks: &mut [bool], column: &Column, span: Span)
    requires { length marks.old ≤ max_documents }
    ensures each { length marks.new ≡ length marks.old }
    ensures told { (is_such : CompositeIntermediateKey → Bool) (doc : ℕ)
        → IsSpanOf column.now.keys is_such (Some span) → doc < length marks.old
        → mark_at marks.new doc ≡ (mark_at marks.old doc || has_key is_such doc column.now) }
{
    for (doc, mark) in marks.iter_mut().enumerate() {
        *mark = *mark || has_number_in(column, doc as DocId, span);
    }
}

// Whether a document has a number of a column in a span.
fn has_number_in(column: &Column, doc: DocId, span: Span) -> bool
    ensures { (is_such : CompositeIntermediateKey → Bool)
        → IsSpanOf column.now.keys is_such (Some span) → result ≡ has_key is_such doc column.now }
{
    has_number(column.values_for_doc(doc), span)
}

// Whether a number is in a span.
fn has_number(numbers: &[u64], span: Span) -> bool
    ensures found { result ≡ list_any (is_in span) numbers.now }
    ensures fit { All (λ n. n < 2 ^ 64) numbers.now }
{
    numbers.iter().any(|number| span.contains(*number))
}

/// Keeps the marks that others have too.
pub fn keep_marks(marks: &mut [bool], others: &[bool])
    requires { length marks.old ≡ length others.now }
    ensures each { length marks.new ≡ length marks.old }
    ensures told { (doc : ℕ) → doc < length marks.old
        → mark_at marks.new doc ≡ (mark_at marks.old doc && mark_at others.now doc) }
{
    for (doc, mark) in marks.iter_mut().enumerate() {
        *mark = *mark && others[doc];
    }
}

/// Adds the marks of others.
pub fn add_marks(marks: &mut [bool], others: &[bool])
    requires { length marks.old ≡ length others.now }
    ensures each { length marks.new ≡ length marks.old }
    ensures told { (doc : ℕ) → doc < length marks.old
        → mark_at marks.new doc ≡ (mark_at marks.old doc || mark_at others.now doc) }
{
    for (doc, mark) in marks.iter_mut().enumerate() {
        *mark = *mark || others[doc];
    }
}

/// Takes away the marks of others.
pub fn take_marks(marks: &mut [bool], others: &[bool])
    requires { length marks.old ≡ length others.now }
    ensures each { length marks.new ≡ length marks.old }
    ensures told { (doc : ℕ) → doc < length marks.old
        → mark_at marks.new doc ≡ (mark_at marks.old doc && not (mark_at others.now doc)) }
{
    for (doc, mark) in marks.iter_mut().enumerate() {
        *mark = *mark && !others[doc];
    }
}
