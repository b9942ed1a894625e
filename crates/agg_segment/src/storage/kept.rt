ghost use Rattle.std.specs.Prelude.{◌≡◌, ◌++◌, ℕ, List, [], length, IfOk};
ghost use Rattle.agg_segment.specs.storage.Document.{key_of};
ghost use Rattle.agg_segment.specs.storage.Cells.{pushed_key};
ghost use Rattle.agg_segment.specs.storage.Runs.{kept_key, IsKept};

use crate::storage::texts::Texts;
use crate::storage::{FROM_ZERO, FieldValue, Sign, from_zero};
use agg_values::{Address, ColumnPaginationOrder, OutOfMemory};

/// A value that a document gets: one of its own, or a text that is copied unless it is there.
#[derive(Drop)]
pub enum PushedValue<'t> {
    Owned(FieldValue),
    Text(&'t str),
}

/// What is kept of a value. The number of a text or an address is its place in a list.
#[derive(Clone, Copy)]
pub struct Kept {
    pub class: ColumnPaginationOrder,
    pub sign: Sign,
    pub number: u64,
}

/// Keeps a value that a document gets.
pub fn keep_pushed(
    texts: &mut Texts,
    addresses: &mut Vec<Address>,
    value: PushedValue<'_>,
) -> Result<Kept, OutOfMemory>
    ensures texts { (more : List (List ℕ)) × (texts.new ≡ texts.old ++ more) }
    ensures addresses { (more : List Address)
        × (addresses.new.items ≡ addresses.old.items ++ more) }
    ensures kept { IfOk result (λ kept. IsKept (length texts.new) (length addresses.new.items)
        kept.sign kept.class kept.number) }
    ensures key { IfOk result (λ kept. kept_key texts.new addresses.new.items
        kept.sign kept.class kept.number ≡ pushed_key value.entry) }
{
    match value {
        PushedValue::Owned(value) => keep(texts, addresses, value),
        PushedValue::Text(text) => {
            let place = texts.place_of(text)?;
            Ok(kept_small(ColumnPaginationOrder::Str, place as u64))
        }
    }
}

// Keeps a value.
fn keep(
    texts: &mut Texts,
    addresses: &mut Vec<Address>,
    value: FieldValue,
) -> Result<Kept, OutOfMemory>
    ensures texts { (more : List (List ℕ)) × (texts.new ≡ texts.old ++ more) }
    ensures addresses { (more : List Address)
        × (addresses.new.items ≡ addresses.old.items ++ more) }
    ensures kept { IfOk result (λ kept. IsKept (length texts.new) (length addresses.new.items)
        kept.sign kept.class kept.number) }
    ensures key { IfOk result (λ kept. kept_key texts.new addresses.new.items
        kept.sign kept.class kept.number ≡ key_of value) }
{
    Ok(match value {
        FieldValue::Bool(b) => kept_small(ColumnPaginationOrder::Bool, b as u64),
        FieldValue::Str(text) => {
            let place = texts.place(text)?;
            kept_small(ColumnPaginationOrder::Str, place as u64)
        }
        FieldValue::I64(n) => kept_signed(n),
        FieldValue::U64(n) => kept_unsigned(n),
        FieldValue::Ip(address) => {
            let place = addresses.len();
            addresses.push(address)?;
            kept_small(ColumnPaginationOrder::IpAddr, place as u64)
        }
        FieldValue::Date(ns) => kept_small(ColumnPaginationOrder::DateTime, from_zero(ns)),
    })
}

// What is kept of a value that says nothing of its field's numbers.
fn kept_small(class: ColumnPaginationOrder, number: u64) -> Kept
    ensures { result ≡ record { class = class; sign = Sign.Small; number = number } }
{
    Kept {
        class,
        sign: Sign::Small,
        number,
    }
}

fn kept_signed(n: i64) -> Kept
    ensures kept { IsKept 0 0 result.sign result.class result.number }
    ensures key { kept_key [] [] result.sign result.class result.number
        ≡ key_of (FieldValue.I64 n) }
{
    Kept {
        class: ColumnPaginationOrder::Numeric,
        sign: if n < 0 { Sign::Negative } else { Sign::Small },
        number: from_zero(n),
    }
}

fn kept_unsigned(n: u64) -> Kept
    ensures kept { IsKept 0 0 result.sign result.class result.number }
    ensures key { kept_key [] [] result.sign result.class result.number
        ≡ key_of (FieldValue.U64 n) }
{
    match i64::try_from(n) {
        Ok(n) => kept_signed(n),
        Err(_) => Kept {
            class: ColumnPaginationOrder::Numeric,
            sign: Sign::Large,
            number: n - FROM_ZERO,
        },
    }
}
