//! What two machines hold as one: pages with nothing below, and sides that lack something.
use crate::held::Given::Page;
use crate::shown::{MergedRow, PAGE, shown_as_one};
use agg_expect::expect_equal;
use std::test::Fail;

const MANY: u64 = 4_294_967_195;

// Pages with nothing below their entries.
const PAGES: &[MergedRow] = &[
    (
        PAGE,
        &[("g", Page(3, &[(1, 50, &[]), (2, 30, &[])]))],
        &[("g", Page(3, &[(1, 60, &[]), (2, 25, &[])]))],
        r#"{"g":{"buckets":[{"doc_count":110,"key":{"a":1}},{"doc_count":55,"key":{"a":2}}]}}"#,
    ),
    (
        PAGE,
        &[("g", Page(4, &[(1, 50, &[]), (2, 30, &[])]))],
        &[("g", Page(4, &[(1, 60, &[]), (3, 25, &[])]))],
        concat!(
            r#"{"g":{"buckets":[{"doc_count":110,"key":{"a":1}},{"doc_count":30,"key":{"a":2}},"#,
            r#"{"doc_count":25,"key":{"a":3}}]}}"#,
        ),
    ),
    (
        PAGE,
        &[("g", Page(1, &[(5, MANY, &[])]))],
        &[("g", Page(1, &[(5, MANY, &[])]))],
        r#"{"g":{"after_key":{"a":"i64:5"},"buckets":[{"doc_count":8589934390,"key":{"a":5}}]}}"#,
    ),
    (
        PAGE,
        &[("g", Page(2, &[(5, MANY, &[])]))],
        &[("g", Page(2, &[(5, MANY, &[])]))],
        r#"{"g":{"buckets":[{"doc_count":8589934390,"key":{"a":5}}]}}"#,
    ),
    (
        PAGE,
        &[("g", Page(u32::MAX, &[(5, MANY, &[])]))],
        &[("g", Page(u32::MAX, &[(4, MANY, &[])]))],
        concat!(
            r#"{"g":{"buckets":[{"doc_count":4294967195,"key":{"a":4}},{"doc_count":4294967195,"#,
            r#""key":{"a":5}}]}}"#,
        ),
    ),
    (
        PAGE,
        &[("g", Page(2, &[(5, u64::MAX - 1, &[])]))],
        &[("g", Page(2, &[(5, 1, &[])]))],
        r#"{"g":{"buckets":[{"doc_count":18446744073709551615,"key":{"a":5}}]}}"#,
    ),
    (
        PAGE,
        &[("g", Page(2, &[(3, 1, &[]), (5, 1, &[])]))],
        &[("g", Page(2, &[(2, 1, &[]), (4, 1, &[])]))],
        concat!(
            r#"{"g":{"after_key":{"a":"i64:3"},"buckets":[{"doc_count":1,"key":{"a":2}},"#,
            r#"{"doc_count":1,"key":{"a":3}}]}}"#,
        ),
    ),
];

#[test]
fn pages_of_two_machines_are_one(rt: HostRuntime) -> Result<(), Fail> {
    for row in PAGES {
        expect_equal(shown_as_one(rt.alloc(), row)?.as_str(), row.3)?;
    }
    Ok(())
}

const ONE: &str = r#"{"g":{"buckets":[{"doc_count":7,"key":{"a":1}}]}}"#;

const EMPTY: &str = r#"{"g":{"buckets":[]}}"#;

// One side has no name, or a page without entries, or one without a target size.
const EMPTY_SIDES: &[MergedRow] = &[
    (PAGE, &[("g", Page(2, &[(1, 7, &[])]))], &[], ONE),
    (PAGE, &[], &[("g", Page(2, &[(1, 7, &[])]))], ONE),
    (PAGE, &[], &[], EMPTY),
    (
        PAGE,
        &[("g", Page(2, &[(1, 7, &[])]))],
        &[("g", Page(2, &[]))],
        ONE,
    ),
    (
        PAGE,
        &[("g", Page(2, &[]))],
        &[("g", Page(2, &[(1, 7, &[])]))],
        ONE,
    ),
    (PAGE, &[("g", Page(2, &[]))], &[("g", Page(2, &[]))], EMPTY),
    (
        PAGE,
        &[("g", Page(2, &[(1, 7, &[])]))],
        &[("g", Page(0, &[]))],
        ONE,
    ),
    (
        PAGE,
        &[("g", Page(0, &[]))],
        &[("g", Page(2, &[(1, 7, &[])]))],
        ONE,
    ),
    (PAGE, &[("g", Page(0, &[]))], &[("g", Page(0, &[]))], EMPTY),
];

#[test]
fn an_empty_side_adds_nothing(rt: HostRuntime) -> Result<(), Fail> {
    for row in EMPTY_SIDES {
        expect_equal(shown_as_one(rt.alloc(), row)?.as_str(), row.3)?;
    }
    Ok(())
}
