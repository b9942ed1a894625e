//! Encoded tuples, back as the tuples that they stand for.
ghost use Rattle.std.specs.Prelude.{◌≡◌, ◌<◌, IfOk, length};
ghost use Rattle.agg_values.specs.Tuple.{KeyTuple};
ghost use Rattle.agg_values.specs.TypedKey.{CompositeIntermediateKey as Key};
ghost use Rattle.agg_segment.specs.storage.Columns.{StandsForKey, encoded_key};
ghost use Rattle.agg_composite.specs.accessor.Decoded.{IsEncoded, decoded, decoded_key};
ghost use Rattle.agg_composite.specs.accessor.Decoded.{decoded_keys};
ghost use Rattle.agg_composite.specs.accessor.Encoding.{StandFor, StandsFor, raw_of};
ghost use Rattle.agg_composite.specs.accessor.Lanes.{keys_at, lanes};

use crate::accessor::encoded::Encoded;
use crate::accessor::lanes::count_of_lanes;
use crate::accessor::numbers::moved_down;
use crate::accessor::{CompositeAccessor, CompositeAggReqData, CompositeSourceAccessors};
use agg_request_tree::CompositeAggregationSource;
use agg_values::{CompositeIntermediateKey, Order, OutOfMemory, Tuple};
use std::alloc::Global;

/// The tuple that an encoded tuple stands for.
pub fn decode_tuple(
    alloc: Global,
    req: &CompositeAggReqData<'_>,
    encoded: &[Encoded],
) -> Result<Tuple, OutOfMemory>
    requires { IsEncoded req.now encoded.now }
    ensures { IfOk result (λ tuple. tuple ≡ decoded req.now encoded.now) }
{
    let sources = req.req.sources.as_slice();
    decode_keys(alloc, sources, req.composite_accessors.as_slice(), encoded)
}

// The keys that encoded keys stand for, source by source.
fn decode_keys(
    alloc: Global,
    sources: &[CompositeAggregationSource],
    accessors: &[CompositeSourceAccessors<'_>],
    encoded: &[Encoded],
) -> Result<Tuple, OutOfMemory>
    requires sources { length sources.now ≡ length encoded.now }
    requires accessors { length accessors.now ≡ length encoded.now }
    requires stand { (keys : KeyTuple) × StandFor sources.now accessors.now encoded.now keys }
    ensures { IfOk result (λ tuple.
        tuple ≡ decoded_keys sources.now accessors.now encoded.now) }
{
    let mut tuple = Tuple::with_capacity(alloc, encoded.len())?;
    for (i, key) in encoded.iter().enumerate() {
        let of_source = accessors[i].accessors.as_slice();
        tuple.push(decode_key(alloc, &sources[i], of_source, *key)?)?;
    }
    Ok(tuple)
}

// The key that an encoded key of a source stands for.
fn decode_key(
    alloc: Global,
    source: &CompositeAggregationSource,
    accessors: &[CompositeAccessor<'_>],
    encoded: Encoded,
) -> Result<CompositeIntermediateKey, OutOfMemory>
    requires { (key : Key) × StandsFor source.now accessors.now encoded key }
    ensures { IfOk result (λ key. key ≡ decoded_key source.now accessors.now encoded) }
{
    if encoded.lane == 0 || encoded.lane > count_of_lanes(source, accessors) {
        return Ok(CompositeIntermediateKey::Null);
    }
    let number = number_of(source.order(), encoded.raw);
    decode_number(alloc, source, accessors, encoded.lane - 1, number)
}

// The key that a number of the lane at an index stands for.
fn decode_number(
    alloc: Global,
    source: &CompositeAggregationSource,
    accessors: &[CompositeAccessor<'_>],
    index: usize,
    number: u64,
) -> Result<CompositeIntermediateKey, OutOfMemory>
    requires index { index < length (lanes source.now accessors.now) }
    requires number { StandsForKey (keys_at source.now accessors.now index) number }
    ensures { IfOk result (λ key.
        key ≡ encoded_key (keys_at source.now accessors.now index) number) }
{
    match source {
        CompositeAggregationSource::Histogram(_) => {
            Ok(CompositeIntermediateKey::I64(moved_down(number)))
        }
        CompositeAggregationSource::Terms(_) | CompositeAggregationSource::DateHistogram(_) => {
            accessors[index].column.decode(alloc, number)
        }
    }
}

// The number that stands in an encoded key, as it is or as its complement.
fn number_of(order: Order, raw: u64) -> u64
    ensures { result ≡ raw_of order raw }
{
    match order {
        Order::Asc => raw,
        Order::Desc => u64::MAX - raw,
    }
}
