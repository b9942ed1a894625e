ghost use Rattle.agg_segment.specs.Marks.{passes};
ghost use Rattle.agg_segment.specs.Spans.{IsSpanOf};

use super::RangeBound;
use super::span::{Span, range_span, term_span};
use crate::storage::{Column, FieldValue};

/// What a query asks of a key.
#[derive(Clone, Copy)]
pub enum KeyTest<'t> {
    Any,
    Value(&'t FieldValue),
    Between(&'t RangeBound, &'t RangeBound),
}

/// The numbers of a column whose keys pass.
pub fn passing_span(test: KeyTest<'_>, column: &Column) -> Option<Span>
    ensures { IsSpanOf column.now.keys (passes test.entry) result }
{
    match test {
        KeyTest::Any => Some(Span::ALL),
        KeyTest::Value(value) => term_span(column, value),
        KeyTest::Between(lower, upper) => range_span(column, lower, upper),
    }
}
