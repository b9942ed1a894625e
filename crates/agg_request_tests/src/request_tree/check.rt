//! Checks that no run of a program makes: with another size and after key than a composite's own.
use crate::request_tree::given::{GivenSource, Kind, composite_of, key_of};
use agg_expect::expect_equal_for;
use agg_low_tests::segment::given::Given;
use agg_request_tree::{CompositeAggregation, check_composite, check_request};
use agg_values::{AfterKey, InvalidArgument, NameMap, OutOfMemory, RequestError, Text};
use std::alloc::Global;
use std::test::Fail;

// A source of terms: its name, and whether it has a bucket for a missing value.
type Source = (&'static str, bool);

// The after value of a name. None is Null.
type After = (&'static str, Option<Given>);

const SIXTEEN: &[Source] = &[
    ("a", false),
    ("b", false),
    ("c", false),
    ("d", false),
    ("e", false),
    ("f", false),
    ("g", false),
    ("h", false),
    ("i", false),
    ("j", false),
    ("k", false),
    ("l", false),
    ("m", false),
    ("n", false),
    ("o", false),
    ("p", false),
];

const SEVENTEEN: &[Source] = &[
    ("a", false),
    ("b", false),
    ("c", false),
    ("d", false),
    ("e", false),
    ("f", false),
    ("g", false),
    ("h", false),
    ("i", false),
    ("j", false),
    ("k", false),
    ("l", false),
    ("m", false),
    ("n", false),
    ("o", false),
    ("p", false),
    ("q", false),
];

const ALIKE: &[Source] = &[("a", false); 17];

const ONE: Option<Given> = Some(Given::Signed(1));

// Sources, a size and after values, and the fault of a composite with these.
const COMPOSITES: &[(&[Source], u32, &[After], Option<InvalidArgument>)] = &[
    (&[("a", false)], 1, &[], None),
    (&[("a", false), ("b", false)], u32::MAX, &[], None),
    (&[("a", false), ("A", true)], 1, &[], None),
    (SIXTEEN, 1, &[], None),
    (
        &[("a", false), ("b", false)],
        1,
        &[("a", ONE), ("b", ONE)],
        None,
    ),
    (
        &[("a", true), ("b", true)],
        1,
        &[("a", None), ("b", None)],
        None,
    ),
    (&[("a", false), ("b", true)], 1, &[("b", None)], None),
    (&[("a", false), ("b", false)], 1, &[("c", None)], None),
    (&[], 1, &[], Some(InvalidArgument::NoSource)),
    (&[("a", false)], 0, &[], Some(InvalidArgument::ZeroSize)),
    (SEVENTEEN, 1, &[], Some(InvalidArgument::TooManySources)),
    (
        &[("a", false), ("a", false)],
        1,
        &[],
        Some(InvalidArgument::DuplicateSource),
    ),
    (
        &[("a", false), ("b", false), ("c", false), ("a", false)],
        1,
        &[],
        Some(InvalidArgument::DuplicateSource),
    ),
    (
        &[
            ("a", false),
            ("b", false),
            ("c", false),
            ("b", false),
            ("d", false),
        ],
        1,
        &[],
        Some(InvalidArgument::DuplicateSource),
    ),
    (
        &[("a", false)],
        1,
        &[("a", None)],
        Some(InvalidArgument::NullAfter),
    ),
    (
        &[("a", false), ("b", false)],
        1,
        &[("b", None)],
        Some(InvalidArgument::NullAfter),
    ),
    (
        &[("a", true), ("b", false)],
        1,
        &[("a", None), ("b", None)],
        Some(InvalidArgument::NullAfter),
    ),
    (
        &[("a", false), ("a", false)],
        0,
        &[],
        Some(InvalidArgument::ZeroSize),
    ),
    (ALIKE, 1, &[], Some(InvalidArgument::TooManySources)),
];

// The composite of sources of terms with these after values.
fn terms_of(
    alloc: Global,
    sources: &[Source],
    size: u32,
    after: &[After],
) -> Result<CompositeAggregation, OutOfMemory> {
    let mut given = Vec::new(alloc);
    for &(name, missing_bucket) in sources {
        given.push(GivenSource::of(name, Kind::Terms, missing_bucket))?;
    }
    let mut composite = composite_of(alloc, given.as_slice(), size)?;
    composite.after = after_of(alloc, after)?;
    Ok(composite)
}

fn after_of(alloc: Global, given: &[After]) -> Result<NameMap<AfterKey>, OutOfMemory> {
    let mut after = NameMap::new(alloc);
    for &(name, value) in given {
        let key = AfterKey::from(key_of(alloc, value)?);
        after.insert(Text::copy_of(alloc, name)?, key)?;
    }
    Ok(after)
}

// What is answered where a composite is checked with another size and after key than its own.
fn answer_with(
    alloc: Global,
    sources: &[Source],
    size: u32,
    after: &[After],
) -> Result<Option<RequestError>, OutOfMemory> {
    let after = after_of(alloc, after)?;
    let composite = terms_of(alloc, sources, 0, &[("a", None)])?;
    Ok(check_composite(alloc, &composite, size, &after).err())
}

#[test]
fn finds_faults_of_other_sizes_and_after_keys(rt: HostRuntime) -> Result<(), Fail> {
    for &(sources, size, after, fault) in COMPOSITES {
        let found = answer_with(rt.alloc(), sources, size, after)?;
        expect_equal_for(size, found, fault.map(RequestError::Invalid))?;
    }
    Ok(())
}

#[test]
fn finds_no_fault_in_no_aggregation(rt: HostRuntime) -> Result<(), Fail> {
    let alloc = rt.alloc();
    assert!(rt; check_request(alloc, &NameMap::new(alloc)).is_ok());
    Ok(())
}
