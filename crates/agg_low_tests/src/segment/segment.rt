//! What small segments answer.
use crate::segment::given::{Given, document_of};
use agg_expect::{expect_equal, expect_equal_for};
use agg_segment::{
    BuildError, Column, ColumnType, FieldValue, OrdHit, QueryTree, RangeBound, Schema,
    SegmentBuilder, SegmentReader, by_class_keeps_the_keys, classes_match_in_any_order,
};
use agg_values::{Address, ColumnPaginationOrder, CompositeIntermediateKey, OutOfMemory, Text};
use std::alloc::Global;
use std::cmp::Ordering;
use std::test::Fail;

const FROM_ZERO: u64 = 9_223_372_036_854_775_808;

// Values of every class in one field.
const OF_EACH_CLASS: [(&str, Given); 7] = [
    ("a", Given::Unsigned(4)),
    ("a", Given::Text("z")),
    ("a", Given::Date(3)),
    ("a", Given::Truth(true)),
    ("a", Given::Address(7)),
    ("a", Given::Signed(-5)),
    ("a", Given::Text("a")),
];

// Adds values to the open document.
fn push_all(
    alloc: Global,
    builder: &mut SegmentBuilder,
    values: &[(&str, Given)],
) -> Result<(), OutOfMemory> {
    for (name, given) in values {
        let field = builder.field(name)?;
        builder.push(field, given.value(alloc)?)?;
    }
    Ok(())
}

// The numbers of a document in the first column of a field, none where there is no column.
fn numbers<'s>(segment: &'s SegmentReader, field: &Text, doc: u32) -> &'s [u64] {
    match segment.columns(field).first() {
        Some(column) => column.values_for_doc(doc),
        None => &[],
    }
}

// Adds a document's values one after another, and what is answered where it is finished.
fn finish_with(
    alloc: Global,
    builder: &mut SegmentBuilder,
    values: &[(&str, Given)],
) -> Result<Result<(), BuildError>, OutOfMemory> {
    push_all(alloc, builder, values)?;
    Ok(builder.finish())
}

// The segment of one document.
fn of_one(alloc: Global, values: &[(&str, Given)]) -> Result<SegmentReader, BuildError> {
    let mut builder = SegmentBuilder::new(alloc);
    finish_with(alloc, &mut builder, values)??;
    builder.build()
}

// The columns of a field with values of every class, and their numbers.
const COLUMNS: &[(ColumnType, &[u64])] = &[
    (ColumnType::Bool, &[1]),
    (ColumnType::Str, &[1, 0]),
    (ColumnType::I64, &[FROM_ZERO + 4, FROM_ZERO - 5]),
    (ColumnType::IpAddr, &[0]),
    (ColumnType::DateTime, &[FROM_ZERO + 3]),
];

fn expect_of_each_class(columns: &[Column]) -> Result<(), Fail> {
    expect_equal(columns.len(), COLUMNS.len())?;
    for (column, &expected) in columns.iter().zip(COLUMNS) {
        expect_equal((column.column_type(), column.values_for_doc(0)), expected)?;
    }
    Ok(())
}

#[test]
fn interleaved_classes_have_columns_of_their_own(rt: HostRuntime) -> Result<(), Fail> {
    let field = Text::copy_of(rt.alloc(), "a")?;
    let segment = of_one(rt.alloc(), &OF_EACH_CLASS)?;
    expect_of_each_class(segment.columns(&field))?;
    Ok(())
}

// Adds a text to the open document in each way.
fn push_twice(
    alloc: Global,
    builder: &mut SegmentBuilder,
    text: &'static str,
) -> Result<(), OutOfMemory> {
    let field = builder.field("a")?;
    builder.push_text(field, text)?;
    push_all(alloc, builder, &[("a", Given::Text(text))])
}

#[test]
fn pushed_texts_are_one_value_in_each_way(rt: HostRuntime) -> Result<(), Fail> {
    let mut builder = SegmentBuilder::new(rt.alloc());
    for text in ["b", "a", "b"] {
        push_twice(rt.alloc(), &mut builder, text)?;
    }
    builder.finish()?;
    let field = Text::copy_of(rt.alloc(), "a")?;
    let segment = builder.build()?;
    expect_equal(numbers(&segment, &field, 0), [1, 1, 0, 0, 1, 1].as_slice())
}

// Of a document with a signed number and one with a large number the second is refused.
fn expect_mix(alloc: Global, builder: &mut SegmentBuilder) -> Result<(), Fail> {
    let signed = finish_with(alloc, builder, &OF_EACH_CLASS)?;
    let large = finish_with(alloc, builder, &[("a", Given::Unsigned(FROM_ZERO))])?;
    expect_equal((signed, large), (Ok(()), MIX))
}

#[test]
fn mixed_numbers_are_refused(rt: HostRuntime) -> Result<(), Fail> {
    let mut builder = SegmentBuilder::new(rt.alloc());
    expect_mix(rt.alloc(), &mut builder)?;
    expect_equal(builder.build()?.num_docs(), 1)
}

// A document, given by its values, with what is answered where it is added.
type Added = (&'static [(&'static str, Given)], Result<(), BuildError>);

// Documents that are added one after another, and how many of them the segment has.
const MIXED: &[(&[Added], u32)] = &[
    (
        &[
            (&[("a", Given::Signed(-1))], Ok(())),
            (&[("a", Given::Unsigned(FROM_ZERO))], MIX),
            (&[("a", Given::Unsigned(FROM_ZERO - 1))], Ok(())),
        ],
        2,
    ),
    (
        &[
            (&[("a", Given::Unsigned(u64::MAX))], Ok(())),
            (&[("a", Given::Signed(i64::MIN))], MIX),
            (&[("a", Given::Signed(0))], Ok(())),
        ],
        2,
    ),
    (
        &[
            (
                &[
                    ("a", Given::Unsigned(FROM_ZERO)),
                    ("a", Given::Text("b")),
                    ("a", Given::Signed(-1)),
                ],
                MIX,
            ),
            (&[], Ok(())),
        ],
        1,
    ),
    (
        &[
            (
                &[("a", Given::Signed(-1)), ("b", Given::Unsigned(FROM_ZERO))],
                Ok(()),
            ),
            (&[("b", Given::Signed(-1))], MIX),
        ],
        1,
    ),
];

const MIX: Result<(), BuildError> = Err(BuildError::MixedNumbers);

// Adds documents, each with its answer.
fn expect_answers(
    alloc: Global,
    builder: &mut SegmentBuilder,
    documents: &[Added],
) -> Result<(), Fail> {
    for &(values, answer) in documents {
        let added = builder.add_document(document_of(alloc, values)?);
        expect_equal(added, answer)?;
    }
    Ok(())
}

#[test]
fn documents_that_mix_numbers_are_left_out(rt: HostRuntime) -> Result<(), Fail> {
    for &(documents, taken) in MIXED {
        let mut builder = SegmentBuilder::new(rt.alloc());
        expect_answers(rt.alloc(), &mut builder, documents)?;
        expect_equal(builder.build()?.num_docs(), taken)?;
    }
    Ok(())
}

#[test]
fn a_document_too_many_is_refused(rt: HostRuntime) -> Result<(), Fail> {
    let mut builder = SegmentBuilder::new(rt.alloc());
    for _ in 0..16_777_216u32 {
        builder.finish()?;
    }
    expect_equal(builder.finish(), Err(BuildError::TooManyDocuments))
}

// Each of nine documents has a number, all but one have two in another field, and the first and
// the last have one in a third.
fn layouts(alloc: Global) -> Result<SegmentReader, BuildError> {
    let mut builder = SegmentBuilder::new(alloc);
    for doc in 0..9 {
        finish_layout(alloc, &mut builder, doc)??;
    }
    builder.build()
}

fn finish_layout(
    alloc: Global,
    builder: &mut SegmentBuilder,
    doc: u64,
) -> Result<Result<(), BuildError>, OutOfMemory> {
    let number = Given::Unsigned(doc);
    let values = [
        ("each", number),
        ("most", number),
        ("most", Given::Unsigned(9)),
        ("few", number),
    ];
    let count = match doc {
        0 | 8 => 4,
        3 => 1,
        _ => 3,
    };
    finish_with(alloc, builder, &values[..count])
}

// The numbers of a document in a field.
type Numbers = (&'static str, u32, &'static [u64]);

const LAYOUTS: &[Numbers] = &[
    ("each", 0, &[FROM_ZERO]),
    ("each", 8, &[FROM_ZERO + 8]),
    ("each", 9, &[]),
    ("most", 0, &[FROM_ZERO, FROM_ZERO + 9]),
    ("most", 3, &[]),
    ("most", 4, &[FROM_ZERO + 4, FROM_ZERO + 9]),
    ("most", 8, &[FROM_ZERO + 8, FROM_ZERO + 9]),
    ("most", 9, &[]),
    ("few", 0, &[FROM_ZERO]),
    ("few", 1, &[]),
    ("few", 8, &[FROM_ZERO + 8]),
    ("few", 9, &[]),
    ("none", 0, &[]),
];

fn expect_numbers(
    alloc: Global,
    segment: &SegmentReader,
    expected: &[Numbers],
) -> Result<(), Fail> {
    for &(name, doc, wanted) in expected {
        let found = numbers(segment, &Text::copy_of(alloc, name)?, doc);
        expect_equal_for((name, doc), found, wanted)?;
    }
    Ok(())
}

#[test]
fn documents_have_their_numbers(rt: HostRuntime) -> Result<(), Fail> {
    expect_numbers(rt.alloc(), &layouts(rt.alloc())?, LAYOUTS)
}

// Adds two documents and one whose values are discarded, and opens another.
fn push_some(alloc: Global, builder: &mut SegmentBuilder) -> Result<(), Fail> {
    for (number, is_kept) in [(1, true), (4, true), (5, false)] {
        push_all(alloc, builder, &[("a", Given::Unsigned(number))])?;
        if !is_kept {
            builder.discard();
        }
        builder.finish()?;
    }
    push_all(alloc, builder, &[("a", Given::Unsigned(6))])?;
    Ok(())
}

const KEPT: &[Numbers] = &[
    ("a", 0, &[FROM_ZERO + 1]),
    ("a", 1, &[FROM_ZERO + 4]),
    ("a", 2, &[]),
    ("a", 3, &[]),
];

#[test]
fn open_documents_are_discarded(rt: HostRuntime) -> Result<(), Fail> {
    let mut builder = SegmentBuilder::new(rt.alloc());
    push_some(rt.alloc(), &mut builder)?;
    let segment = builder.build()?;
    expect_equal(segment.num_docs(), 3)?;
    expect_numbers(rt.alloc(), &segment, KEPT)
}

// Texts and addresses, and where they are among those of a segment.
const HITS: &[(&str, u128, OrdHit)] = &[
    ("a", 1, OrdHit::Next(0)),
    ("b", 2, OrdHit::Exact(0)),
    ("c", 3, OrdHit::Next(1)),
    ("d", 4, OrdHit::Exact(1)),
    ("e", 5, OrdHit::AfterLast),
];

fn text_hit(columns: &[Column], text: &Text) -> Option<OrdHit> {
    let column = columns.first()?;
    match column.column_type() {
        ColumnType::Str => Some(column.term_ord_or_next(text)),
        _ => None,
    }
}

fn address_hit(columns: &[Column], address: Address) -> Option<OrdHit> {
    let column = columns.first()?;
    match column.column_type() {
        ColumnType::IpAddr => Some(column.address_or_next(address)),
        _ => None,
    }
}

fn expect_text_hits(alloc: Global, columns: &[Column]) -> Result<(), Fail> {
    for &(text, _, hit) in HITS {
        let found = text_hit(columns, &Text::copy_of(alloc, text)?);
        expect_equal_for(text, (columns.len(), found), (1, Some(hit)))?;
    }
    Ok(())
}

fn expect_address_hits(columns: &[Column]) -> Result<(), Fail> {
    for &(_, address, hit) in HITS {
        let found = address_hit(columns, Address(address));
        expect_equal_for(address, (columns.len(), found), (1, Some(hit)))?;
    }
    Ok(())
}

#[test]
fn hits_are_the_first_places_not_below(rt: HostRuntime) -> Result<(), Fail> {
    let alloc = rt.alloc();
    let (texts, addresses) = (Text::copy_of(alloc, "a")?, Text::copy_of(alloc, "b")?);
    let segment = of_one(
        alloc,
        &[
            ("a", Given::Text("d")),
            ("b", Given::Address(4)),
            ("a", Given::Text("b")),
            ("b", Given::Address(2)),
            ("a", Given::Text("d")),
            ("b", Given::Address(4)),
        ],
    )?;
    expect_address_hits(segment.columns(&addresses))?;
    expect_text_hits(rt.alloc(), segment.columns(&texts))
}

// A column of a large and of a small number is unsigned, and the small one is a signed key.
fn expect_unsigned(alloc: Global, column: &Column) -> Result<(), Fail> {
    let kind = column.column_type();
    let numbers = column.values_for_doc(0);
    let class = kind.column_pagination_order();
    expect_equal(
        (kind, class),
        (ColumnType::U64, ColumnPaginationOrder::Numeric),
    )?;
    expect_equal(numbers, [FROM_ZERO, 7].as_slice())?;
    let (large, small) = (numbers[0], numbers[1]);
    let order = column.compare(large, small);
    let signed = column.decode(alloc, small)?;
    let unsigned = column.decode(alloc, large)?;
    let is_signed = matches!(signed, CompositeIntermediateKey::I64(7));
    let is_unsigned = matches!(unsigned, CompositeIntermediateKey::U64(FROM_ZERO));
    expect_equal(
        (order, is_signed, is_unsigned),
        (Ordering::Greater, true, true),
    )
}

#[test]
fn a_large_number_makes_a_column_unsigned(rt: HostRuntime) -> Result<(), Fail> {
    let alloc = rt.alloc();
    let field = Text::copy_of(alloc, "a")?;
    let segment = of_one(
        alloc,
        &[("a", Given::Unsigned(FROM_ZERO)), ("a", Given::Unsigned(7))],
    )?;
    let columns = segment.columns(&field);
    expect_equal(columns.len(), 1)?;
    for column in columns {
        expect_unsigned(rt.alloc(), column)?;
    }
    Ok(())
}

#[test]
fn copied_values_are_equal(rt: HostRuntime) -> Result<(), Fail> {
    for given in [Given::Truth(true), Given::Text("a")] {
        let value = given.value(rt.alloc())?;
        expect_equal(value.try_clone(rt.alloc())?, value)?;
    }
    Ok(())
}

#[test]
fn schemas_and_laws_are_called(rt: HostRuntime) -> Result<(), Fail> {
    let mut schema = Schema::new(rt.alloc());
    for _ in 0..2 {
        schema.add_field(Text::copy_of(rt.alloc(), "a")?)?;
    }
    expect_equal(schema.fields().len(), 2)?;
    by_class_keeps_the_keys();
    classes_match_in_any_order();
    Ok(())
}

// Whether the clone of a bound is the bound.
fn is_bound_cloned(alloc: Global) -> Result<bool, OutOfMemory> {
    let bound = RangeBound::Included(FieldValue::I64(5));
    let copy = bound.try_clone(alloc)?;
    Ok(matches!(copy, RangeBound::Included(FieldValue::I64(5))))
}

// Whether the clone of a query is the query.
fn is_query_cloned(alloc: Global) -> Result<bool, OutOfMemory> {
    let copy = QueryTree::All.try_clone(alloc)?;
    Ok(matches!(copy, QueryTree::All))
}

#[test]
fn queries_and_their_bounds_are_cloned(rt: HostRuntime) -> Result<(), Fail> {
    let cloned = (is_bound_cloned(rt.alloc())?, is_query_cloned(rt.alloc())?);
    expect_equal(cloned, (true, true))
}
