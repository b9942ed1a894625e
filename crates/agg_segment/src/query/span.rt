ghost use Rattle.std.specs.Prelude.{◌≡◌, ◌<◌, ◌^◌, ◌&&◌, ℕ, nat_le, nat_lt};
ghost use Rattle.std.specs.Ordering.{is_ge, is_gt, is_le, is_lt};
ghost use Rattle.agg_segment.specs.Query.{is_above, is_below, is_between, is_value};
ghost use Rattle.agg_segment.specs.Spans.{hit_cmp, is_in, IsSpanOf};

use super::RangeBound;
use super::hit::hit_of;
use crate::storage::{Column, FieldValue, OrdHit};

/// The numbers from the first to the last, none where the last is before the first.
#[derive(Clone, Copy, Debug)]
pub struct Span {
    first: u64,
    last: u64,
}

impl Span {
    /// All numbers.
    pub const ALL: Span = Span {
        first: 0,
        last: u64::MAX,
    };

    /// No number.
    const NONE: Span = Span { first: 1, last: 0 };

    /// Whether a number is in the span.
    pub fn contains(self, number: u64) -> bool
        ensures { result ≡ is_in self number }
    {
        self.first <= number && number <= self.last
    }

    /// The numbers that are in another span too.
    fn meet(self, other: Span) -> Span
        ensures { (n : ℕ) → is_in result n ≡ (is_in self n && is_in other n) }
    {
        Span {
            first: self.first.max(other.first),
            last: self.last.min(other.last),
        }
    }
}

/// The numbers of a column whose key is a value.
pub fn term_span(column: &Column, value: &FieldValue) -> Option<Span>
    ensures { IsSpanOf column.now.keys (is_value value.now) result }
{
    match hit_of(column, value)? {
        OrdHit::Exact(at) => Some(Span {
            first: at,
            last: at,
        }),
        OrdHit::Next(_) | OrdHit::AfterLast => Some(Span::NONE),
    }
}

/// The numbers of a column whose keys are between two bounds.
pub fn range_span(column: &Column, lower: &RangeBound, upper: &RangeBound) -> Option<Span>
    ensures { IsSpanOf column.now.keys (is_between lower.now upper.now) result }
{
    let above = span_above(column, lower)?;
    let below = span_below(column, upper)?;
    Some(above.meet(below))
}

fn span_above(column: &Column, bound: &RangeBound) -> Option<Span>
    ensures { IsSpanOf column.now.keys (is_above bound.now) result }
{
    match bound {
        RangeBound::Unbounded => Some(from_number(0)),
        RangeBound::Included(value) => Some(from_hit(hit_of(column, value)?)),
        RangeBound::Excluded(value) => Some(after_hit(hit_of(column, value)?)),
    }
}

fn span_below(column: &Column, bound: &RangeBound) -> Option<Span>
    ensures { IsSpanOf column.now.keys (is_below bound.now) result }
{
    match bound {
        RangeBound::Unbounded => Some(Span::ALL),
        RangeBound::Included(value) => Some(to_hit(hit_of(column, value)?)),
        RangeBound::Excluded(value) => Some(before_hit(hit_of(column, value)?)),
    }
}

// The numbers at a hit and after it.
fn from_hit(hit: OrdHit) -> Span
    ensures { (n : ℕ) → n < 2 ^ 64 → is_in result n ≡ is_ge (hit_cmp hit n) }
{
    match hit {
        OrdHit::Exact(at) | OrdHit::Next(at) => from_number(at),
        OrdHit::AfterLast => Span::NONE,
    }
}

// The numbers after a hit.
fn after_hit(hit: OrdHit) -> Span
    ensures { (n : ℕ) → n < 2 ^ 64 → is_in result n ≡ is_gt (hit_cmp hit n) }
{
    match hit {
        OrdHit::Exact(u64::MAX) | OrdHit::AfterLast => Span::NONE,
        OrdHit::Exact(at) => from_number(at + 1),
        OrdHit::Next(at) => from_number(at),
    }
}

// The numbers up to a hit.
fn to_hit(hit: OrdHit) -> Span
    ensures { (n : ℕ) → n < 2 ^ 64 → is_in result n ≡ is_le (hit_cmp hit n) }
{
    match hit {
        OrdHit::Exact(at) => Span { first: 0, last: at },
        OrdHit::Next(at) => before_number(at),
        OrdHit::AfterLast => Span::ALL,
    }
}

// The numbers before a hit.
fn before_hit(hit: OrdHit) -> Span
    ensures { (n : ℕ) → n < 2 ^ 64 → is_in result n ≡ is_lt (hit_cmp hit n) }
{
    match hit {
        OrdHit::Exact(at) | OrdHit::Next(at) => before_number(at),
        OrdHit::AfterLast => Span::ALL,
    }
}

fn from_number(first: u64) -> Span
    ensures { (n : ℕ) → n < 2 ^ 64 → is_in result n ≡ nat_le first n }
{
    Span {
        first,
        last: u64::MAX,
    }
}

fn before_number(end: u64) -> Span
    ensures { (n : ℕ) → is_in result n ≡ nat_lt n end }
{
    if end == 0 {
        return Span::NONE;
    }
    Span {
        first: 0,
        last: end - 1,
    }
}
