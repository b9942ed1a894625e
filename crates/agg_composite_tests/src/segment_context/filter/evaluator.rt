use crate::segment_context::filter::given::{Values, filter_of, red_in_segment};
use agg_expect::expect_equal;
use agg_segment::QueryTree;
use agg_values::{DocId, ItemList};
use std::test::Fail;

// Numbers of documents, and those of the red ones among them.
const BATCHES: &[(&[DocId], &[DocId])] = &[
    (&[], &[]),
    (&[0, 1, 2, 3], &[0, 2]),
    (&[2, 1, 0, 2], &[2, 0, 2]),
    (&[4, 1], &[]),
];

#[test]
fn filters_batches(rt: HostRuntime) -> Result<(), Fail> {
    let req = red_in_segment(rt.alloc())?;
    for &(docs, red) in BATCHES {
        let mut output = ItemList::new(rt.alloc());
        req.evaluator.filter_batch(docs, &mut output)?;
        expect_equal(output.as_slice(), red)?;
    }
    Ok(())
}

#[test]
fn tells_each_document(rt: HostRuntime) -> Result<(), Fail> {
    let req = red_in_segment(rt.alloc())?;
    for (doc, is_red) in [(0, true), (1, false), (2, true), (3, false), (4, false)] {
        expect_equal(req.evaluator.matches_document(doc), is_red)?;
    }
    Ok(())
}

// A document without a value.
const EMPTY: Values = &[];

// Documents, and how many bytes a filter of them takes.
const SIZES: &[(&[Values], u64)] = &[(&[], 256), (&[EMPTY; 8], 257), (&[EMPTY; 9], 258)];

#[test]
fn takes_a_bit_for_each_document(rt: HostRuntime) -> Result<(), Fail> {
    for &(documents, bytes) in SIZES {
        let req = filter_of(rt.alloc(), &QueryTree::All, documents)?;
        expect_equal(req.get_memory_consumption(), bytes)?;
    }
    Ok(())
}
