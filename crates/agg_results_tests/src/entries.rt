//! Entries, and names, added to what is held.
use crate::held::Given::{Filter, Metric, Page};
use crate::held::Metric::{Max, Min, Sum};
use crate::held::{
    Entries, Held, Named, Nested, add_to, empty_page, entry_of, held_of, held_page, page_of,
    tuple_of,
};
use crate::shown::{PAGE, shown};
use agg_expect::expect_equal;
use agg_results::{IntermediateTermBucketEntry, MergeError};
use agg_values::{Order, Text};
use std::alloc::Global;
use std::test::Fail;

// A composite with a maximum below it.
const PAGE_OF_MAXIMA: &str = r#"{"g":{"composite":{"sources":[{"a":{"terms":{"field":"a"}}}],
    "size":2},"aggs":{"m":{"max":{"field":"n"}}}}}"#;

// An entry of a number: how many occurrences it has, and what is below it.
type GivenEntry = (i64, u64, Named<Nested>);

// Requests, the entries of a page of three, one more, what is answered, and what is then shown.
const ADDED: &[(
    &str,
    Entries<Nested>,
    GivenEntry,
    Result<(), MergeError>,
    &str,
)] = &[
    (
        PAGE,
        &[(1, 2, &[]), (3, 1, &[])],
        (1, 3, &[]),
        Ok(()),
        r#"{"g":{"buckets":[{"doc_count":5,"key":{"a":1}},{"doc_count":1,"key":{"a":3}}]}}"#,
    ),
    (
        PAGE,
        &[(1, 2, &[]), (3, 1, &[])],
        (2, 7, &[]),
        Ok(()),
        concat!(
            r#"{"g":{"after_key":{"a":"i64:3"},"buckets":[{"doc_count":2,"key":{"a":1}},"#,
            r#"{"doc_count":7,"key":{"a":2}},{"doc_count":1,"key":{"a":3}}]}}"#,
        ),
    ),
    (
        PAGE,
        &[(1, 2, &[]), (3, 1, &[])],
        (1, u64::MAX, &[]),
        Err(MergeError::TooMany),
        r#"{"g":{"buckets":[{"doc_count":1,"key":{"a":3}}]}}"#,
    ),
    (
        PAGE_OF_MAXIMA,
        &[(1, 2, &[("m", Metric(Max(Some(4))))]), (3, 1, &[])],
        (1, 3, &[("m", Metric(Max(Some(6))))]),
        Ok(()),
        concat!(
            r#"{"g":{"buckets":[{"doc_count":5,"key":{"a":1},"m":{"value":6}},{"doc_count":1,"#,
            r#""key":{"a":3},"m":{"value":null}}]}}"#,
        ),
    ),
    (
        PAGE_OF_MAXIMA,
        &[(1, 2, &[]), (3, 1, &[("m", Metric(Max(Some(4))))])],
        (3, 3, &[("m", Metric(Min(Some(4))))]),
        Err(MergeError::Mismatch),
        r#"{"g":{"buckets":[{"doc_count":2,"key":{"a":1},"m":{"value":null}}]}}"#,
    ),
];

// What is answered where a page takes an entry in, and what is then shown.
fn shown_with_entry(
    alloc: Global,
    request: &str,
    entries: Entries<Nested>,
    (key, doc_count, below): GivenEntry,
) -> Result<(Result<(), MergeError>, Text), Fail> {
    let mut page = page_of(alloc, 3, entries)?;
    let answer = add_to(alloc, &mut page, key, entry_of(alloc, doc_count, below)?)?;
    Ok((answer, shown(alloc, request, held_page(alloc, page)?)?))
}

#[test]
fn an_entry_is_merged_and_after_an_error_it_is_gone(rt: HostRuntime) -> Result<(), Fail> {
    for &(request, entries, entry, answer, text) in ADDED {
        let found = shown_with_entry(rt.alloc(), request, entries, entry)?;
        expect_equal((found.0, found.1.as_str()), (answer, text))?;
    }
    Ok(())
}

#[test]
fn a_last_entry_is_put_at_the_end(rt: HostRuntime) -> Result<(), Fail> {
    let alloc = rt.alloc();
    let mut page = empty_page(alloc, 3, Order::Asc)?;
    page.push_last(tuple_of(alloc, 4)?, entry_of::<Nested>(alloc, 5, &[])?)?;
    let text = shown(alloc, PAGE, held_page(alloc, page)?)?;
    expect_equal(
        text.as_str(),
        r#"{"g":{"buckets":[{"doc_count":5,"key":{"a":4}}]}}"#,
    )
}

// Two sums and a filter.
const NAMES: &str = r#"{"x":{"filter":{"all":{}}},"y":{"sum":{"field":"n"}},
    "z":{"sum":{"field":"n"}}}"#;

type GivenName = (&'static str, Nested);

const NAMED: Named<Nested> = &[("x", Filter(3, &[])), ("y", Metric(Sum(4)))];

// What is held, a name with one more result, what is answered, and what is then shown.
const PUSHED: &[(Named<Nested>, GivenName, Result<(), MergeError>, &str)] = &[
    (
        NAMED,
        ("z", Metric(Sum(5))),
        Ok(()),
        r#"{"x":{"doc_count":3},"y":{"value":4},"z":{"value":5}}"#,
    ),
    (
        NAMED,
        ("x", Filter(4, &[])),
        Ok(()),
        r#"{"x":{"doc_count":7},"y":{"value":4},"z":{"value":0}}"#,
    ),
    (
        &[("x", Filter(3, &[])), ("y", Metric(Sum(i128::MAX)))],
        ("y", Metric(Sum(1))),
        Err(MergeError::TooMany),
        r#"{"x":{"doc_count":3},"y":{"value":0},"z":{"value":0}}"#,
    ),
    (
        NAMED,
        ("x", Page(2, &[])),
        Err(MergeError::Mismatch),
        r#"{"x":{"doc_count":0},"y":{"value":4},"z":{"value":0}}"#,
    ),
];

// What is answered where a name is pushed, whether it is then held, and what is then shown.
fn shown_with_name(
    alloc: Global,
    named: Named<Nested>,
    (name, given): &GivenName,
) -> Result<(Result<(), MergeError>, bool, Text), Fail> {
    let mut held = held_of(alloc, named)?;
    let key = Text::copy_of(alloc, name)?;
    let answer = held.push(key.try_clone(alloc)?, given.held(alloc)?);
    let is_held = held.get(&key).is_some();
    Ok((answer, is_held, shown(alloc, NAMES, held)?))
}

#[test]
fn a_pushed_name_is_merged_and_after_an_error_it_is_gone(rt: HostRuntime) -> Result<(), Fail> {
    for (named, pushed, answer, text) in PUSHED {
        let found = shown_with_name(rt.alloc(), named, pushed)?;
        let expected = (*answer, answer.is_ok(), *text);
        expect_equal((found.0, found.1, found.2.as_str()), expected)?;
    }
    Ok(())
}

#[test]
fn a_name_that_is_taken_out_is_not_held(rt: HostRuntime) -> Result<(), Fail> {
    let alloc = rt.alloc();
    let mut held = held_of(alloc, NAMED)?;
    let name = Text::copy_of(alloc, "x")?;
    let taken = [held.remove(&name).is_some(), held.remove(&name).is_some()];
    expect_equal((taken, held.get(&name).is_some()), ([true, false], false))
}

const MANY: u64 = 4_294_967_195;

// How many occurrences two entries have and what is below them, what is answered where the first
// takes the second in, and then the first's count and the number of its sub-results.
const ENTRIES: &[(
    (u64, Named<Nested>),
    (u64, Named<Nested>),
    Result<(), MergeError>,
    u64,
    usize,
)] = &[
    ((MANY, &[]), (MANY, &[]), Ok(()), 8_589_934_390, 0),
    ((u64::MAX - 1, &[]), (1, &[]), Ok(()), u64::MAX, 0),
    (
        (2, &[("m", Metric(Sum(4)))]),
        (3, &[("m", Metric(Sum(5))), ("n", Metric(Sum(6)))]),
        Ok(()),
        5,
        2,
    ),
    (
        (u64::MAX, &[("m", Metric(Sum(4)))]),
        (1, &[]),
        Err(MergeError::TooMany),
        0,
        0,
    ),
    (
        (2, &[("m", Metric(Sum(4))), ("n", Metric(Sum(6)))]),
        (3, &[("m", Metric(Max(None)))]),
        Err(MergeError::Mismatch),
        0,
        0,
    ),
];

// The count of an entry and the number of its sub-results.
fn counts_of(entry: &IntermediateTermBucketEntry) -> (u64, usize) {
    (entry.doc_count, entry.sub_aggregation.keys().count())
}

#[test]
fn entries_add_their_counts_and_after_an_error_hold_nothing(rt: HostRuntime) -> Result<(), Fail> {
    let alloc = rt.alloc();
    for &(first, second, answer, doc_count, names) in ENTRIES {
        let mut entry = entry_of(alloc, first.0, first.1)?;
        let found = entry.merge_fruits(entry_of(alloc, second.0, second.1)?);
        expect_equal((found, counts_of(&entry)), (answer, (doc_count, names)))?;
    }
    Ok(())
}
