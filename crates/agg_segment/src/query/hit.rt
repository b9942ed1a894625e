ghost use Rattle.std.specs.Prelude.{◌≡◌, ◌==◌, ◌-ℤ◌, ◌^◌, ◌<◌, ℕ, pos, false, IfSome, IfNone};
ghost use Rattle.std.specs.Ordering.{int_cmp};
ghost use Rattle.agg_values.specs.Column.{class_rank};
ghost use Rattle.agg_segment.specs.storage.Columns.{keys_rank};
ghost use Rattle.agg_segment.specs.storage.Document.{key_of};
ghost use Rattle.agg_segment.specs.Spans.{IsHitOf, hit_cmp};

use crate::storage::{Column, ColumnType, FieldValue, OrdHit};

const TWO_TO_63: u64 = 9_223_372_036_854_775_808;

/// Where a value stands among the numbers of a column, if it is of the column's class.
pub fn hit_of(column: &Column, value: &FieldValue) -> Option<OrdHit>
    ensures other { IfNone result
        ((keys_rank column.now.keys == class_rank (key_of value.now)) ≡ false) }
    ensures same { IfSome result
        (λ hit. keys_rank column.now.keys ≡ class_rank (key_of value.now)) }
    ensures hit { IfSome result (λ hit. IsHitOf column.now.keys value.now hit) }
{
    match value {
        FieldValue::Bool(b) => match column.column_type() {
            ColumnType::Bool => Some(OrdHit::Exact(*b as u64)),
            _ => None,
        },
        FieldValue::Str(text) => match column.column_type() {
            ColumnType::Str => Some(column.term_ord_or_next(text)),
            _ => None,
        },
        FieldValue::I64(n) => match column.column_type() {
            ColumnType::I64 => Some(signed_hit(*n)),
            ColumnType::U64 => Some(unsigned_hit(*n)),
            _ => None,
        },
        FieldValue::U64(n) => match column.column_type() {
            ColumnType::I64 => Some(wide_signed_hit(*n)),
            ColumnType::U64 => Some(OrdHit::Exact(*n)),
            _ => None,
        },
        FieldValue::Ip(address) => match column.column_type() {
            ColumnType::IpAddr => Some(column.address_or_next(*address)),
            _ => None,
        },
        FieldValue::Date(ns) => match column.column_type() {
            ColumnType::DateTime => Some(signed_hit(*ns)),
            _ => None,
        },
    }
}

// Where a number stands among those of a column of i64.
fn signed_hit(n: i64) -> OrdHit
    ensures { (k : ℕ) → int_cmp (pos k -ℤ pos (2 ^ 63)) n ≡ hit_cmp result k }
{
    if n < 0 {
        return OrdHit::Exact((n - i64::MIN) as u64);
    }
    OrdHit::Exact(n as u64 + TWO_TO_63)
}

// The same for a number from 0 on.
fn wide_signed_hit(n: u64) -> OrdHit
    ensures { (k : ℕ) → k < 2 ^ 64 → int_cmp (pos k -ℤ pos (2 ^ 63)) (pos n) ≡ hit_cmp result k }
{
    if n < TWO_TO_63 {
        return OrdHit::Exact(n + TWO_TO_63);
    }
    OrdHit::AfterLast
}

// Where a number stands among those of a column of u64.
fn unsigned_hit(n: i64) -> OrdHit
    ensures { (k : ℕ) → int_cmp (pos k) n ≡ hit_cmp result k }
{
    if n < 0 {
        return OrdHit::Next(0);
    }
    OrdHit::Exact(n as u64)
}
