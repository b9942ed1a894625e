//! Documents as they are drawn, and segments of them.
ghost use Rattle.std.specs.Prelude.{◌≡◌, ◌*◌, ◌≤◌, ◌++◌, Ok, IfOk, OnOk, IsOkUnless};
ghost use Rattle.std.specs.Prelude.{codes, decimal};
ghost use Rattle.agg_segment.specs.Segment.{documents_of};
ghost use Rattle.agg_segment.specs.SegmentLimits.{max_documents};
ghost use Rattle.agg_pages.specs.generator.Draws.{draw, state_after};
ghost use Rattle.agg_pages.specs.generator.Documents.{generated_documents, texts_drawn};
ghost use Rattle.agg_pages.specs.generator.Documents.{values_drawn};

use crate::generator::draws::Generator;
use agg_segment::{BuildError, Document, FieldValue, SegmentBuilder, SegmentReader};
use agg_values::{OutOfMemory, Text};
use std::alloc::Global;

const NANOSECONDS_OF_A_DAY: u64 = 86_400_000_000_000;

/// A segment of the next documents.
pub(crate) fn next_segment(
    alloc: Global,
    generator: &mut Generator,
    count: u32,
) -> Result<SegmentReader, OutOfMemory>
    requires { count ≤ max_documents }
    ensures documents { IfOk result
        (λ segment. documents_of segment ≡ generated_documents generator.old 0 count) }
    ensures state { OnOk result (generator.new ≡ state_after (3 * count) generator.old) }
{
    let mut builder = SegmentBuilder::new(alloc);
    for _ in 0..count {
        let document = next_document(alloc, generator)?;
        unless_refused(builder.add_document(document))?;
    }
    unless_refused(builder.build())
}

// The document of the next three draws.
fn next_document(alloc: Global, generator: &mut Generator) -> Result<Document, OutOfMemory>
    ensures values { IfOk result (λ document. document
        ≡ values_drawn (draw generator.old 0) (draw generator.old 1) (draw generator.old 2)) }
    ensures state { generator.new ≡ state_after 3 generator.old }
{
    let a = generator.draw();
    let b = generator.draw();
    let d = generator.draw();
    document_of(alloc, a, b, d)
}

// The document of three draws.
fn document_of(alloc: Global, a: u64, b: u64, d: u64) -> Result<Document, OutOfMemory>
    ensures { IfOk result (λ document. document ≡ values_drawn a b d) }
{
    let number = (a % 50) as i64;
    let date = (d % 1_000 * NANOSECONDS_OF_A_DAY) as i64;
    let mut document = Document::new(alloc);
    document.add(Text::copy_of(alloc, "a")?, FieldValue::I64(number))?;
    add_text(alloc, &mut document, b)?;
    document.add(Text::copy_of(alloc, "d")?, FieldValue::Date(date))?;
    Ok(document)
}

// Adds the text of a draw, if there is one.
fn add_text(alloc: Global, document: &mut Document, drawn: u64) -> Result<(), OutOfMemory>
    ensures { OnOk result (document.new ≡ document.old ++ texts_drawn drawn) }
{
    if drawn % 7 == 0 {
        return Ok(());
    }
    let text = text_of(alloc, drawn % 20)?;
    document.add(Text::copy_of(alloc, "b")?, FieldValue::Str(text))
}

// The text of a number.
fn text_of(alloc: Global, number: u64) -> Result<Text, OutOfMemory>
    ensures { IfOk result (λ text. text ≡ codes "t" ++ decimal number) }
{
    Text::from_string(format!(in alloc; "t{number}")?)
}

// What was built, where nothing but memory can have been refused.
fn unless_refused<T: Drop>(built: Result<T, BuildError>) -> Result<T, OutOfMemory>
    requires { IsOkUnless built BuildError.OutOfMemory }
    ensures { IfOk result (λ value. built ≡ Ok value) }
{
    match built {
        Ok(value) => Ok(value),
        Err(BuildError::OutOfMemory) => Err(OutOfMemory),
        // By the condition.
        Err(BuildError::MixedNumbers | BuildError::TooManyDocuments) => unreachable!(),
    }
}
