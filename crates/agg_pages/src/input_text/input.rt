//! The input: a header and then snapshots, a line each.

ghost use Rattle.std.specs.Prelude.{◌≡◌, IfOk, IsErrOf};
ghost use Rattle.agg_segment.specs.Snapshot.{snapshots_documents};
ghost use Rattle.agg_pages.specs.input_text.Input.{AreNoInput, IsInput, IsInputOfLines};
ghost use Rattle.agg_pages.specs.input_text.StoredInput.{input_of};
ghost use Rattle.agg_values.specs.Nothing.{NoneIs};

use crate::document_json::InputError;
use crate::input_text::header::{Header, read_header};
use crate::input_text::lines::Lines;
use crate::input_text::snapshots::read_snapshots;
use agg_request::{HasName, NamedBuilder};
use agg_segment::Snapshot;
use agg_values::ItemList;
use std::alloc::Global;
use std::str::from_utf8;

/// How many bytes an input has at most.
pub const MAX_INPUT_BYTES: usize = 67_108_864;

/// A request over snapshots.
#[derive(Drop)]
pub struct Input<B = NamedBuilder> {
    pub header: Header<B>,
    pub snapshots: ItemList<Snapshot>,
}

/// The input that bytes stand for. The builders are those that a header may ask for.
pub fn read_input<B: HasName>(
    alloc: Global,
    builders: Vec<B>,
    bytes: &[u8],
) -> Result<Input<B>, InputError>
    ensures ok { IfOk result (λ i. IsInput builders.items B.name_of bytes.now (input_of i)) }
    ensures not_input { IsErrOf result InputError.NotInput
        → AreNoInput builders.items B.name_of bytes.now }
{
    if bytes.len() > MAX_INPUT_BYTES {
        return Err(InputError::NotInput);
    }
    match from_utf8(bytes) {
        Ok(text) => read_lines(alloc, builders, Lines::new(text)),
        Err(_) => Err(InputError::NotInput),
    }
}

// The input of lines.
fn read_lines<B: HasName>(
    alloc: Global,
    builders: Vec<B>,
    lines: Lines<'_>,
) -> Result<Input<B>, InputError>
    ensures ok { IfOk result
        (λ i. IsInputOfLines builders.items B.name_of lines.entry (input_of i)) }
    ensures not_input { IsErrOf result InputError.NotInput
        → NoneIs (IsInputOfLines builders.items B.name_of lines.entry) }
{
    let mut lines = lines;
    let first = lines.next().ok_or(InputError::NotInput)?;
    let header = read_header(alloc, builders, first)?;
    let snapshots = read_snapshots(alloc, lines)?;
    Ok(Input { header, snapshots })
}
