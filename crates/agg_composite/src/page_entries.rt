//! The buckets of a parent, as the entries of a page.
ghost use Rattle.std.specs.Prelude.{◌≡◌, [], All, IfOk, MatchOption, length};
ghost use Rattle.std.specs.Map.{keys_of};
ghost use Rattle.agg_composite.specs.accessor.Decoded.{IsEncoded};
ghost use Rattle.agg_composite.specs.EncodedEntries.{encoded_of, listed_of};
ghost use Rattle.agg_composite.specs.PageEntries.{AreNone, IsNext, entry_of, page_entries};

use crate::PageEntry;
use crate::accessor::{CompositeAggReqData, Encoded, decode_tuple};
use crate::buckets::Bucket;
use crate::stored_tuple::StoredTuple;
use agg_values::freeing::FreeingIter;
use agg_values::{ItemList, OutOfMemory};
use std::alloc::Global;
use std::marker::Model;

/// The buckets of a parent that are still to come as the entries of a page, ascending. A bucket is
/// dropped once its entry is made. Contracts see the encoded tuples with their buckets.
#[derive(Drop)]
pub struct PageEntries {
    encoded: EncodedEntries,
}

/// Buckets still to come, with room in each tuple for as many keys as it may have.
#[derive(Drop)]
pub enum EncodedEntries {
    One(FreeingIter<(StoredTuple<Encoded, 1>, Bucket)>),
    Two(FreeingIter<(StoredTuple<Encoded, 2>, Bucket)>),
    Four(FreeingIter<(StoredTuple<Encoded, 4>, Bucket)>),
    Eight(FreeingIter<(StoredTuple<Encoded, 8>, Bucket)>),
    Sixteen(FreeingIter<(StoredTuple<Encoded, 16>, Bucket)>),
    /// Of one key each, by their counts alone.
    Listed(FreeingIter<(StoredTuple<Encoded, 1>, u64)>),
}

impl Model for PageEntries {
    ghost use Rattle.agg_composite.specs.accessor.Encoding.{EncodedTuple};
    ghost use Rattle.agg_composite.specs.buckets.Page.{Page};
    ghost use Rattle.agg_composite.specs.EncodedEntries.{encoded_of};

    ghost Value = { Page EncodedTuple };

    ghost view = { λ entries. encoded_of entries.encoded };
}

impl PageEntries {
    /// No entries.
    pub fn none(alloc: Global) -> PageEntries
        ensures { result ≡ [] }
    {
        let none = FreeingIter::new(Vec::new(alloc));
        PageEntries::new(EncodedEntries::One(none))
    }

    /// The entries of these buckets.
    pub(crate) fn new(encoded: EncodedEntries) -> PageEntries
        ensures { result ≡ encoded_of encoded }
    {
        PageEntries { encoded }
    }

    /// How many entries are still to come.
    pub fn len(&self) -> usize
        ensures { result ≡ length self.now }
    {
        match &self.encoded {
            EncodedEntries::One(buckets) => buckets.len(),
            EncodedEntries::Two(buckets) => buckets.len(),
            EncodedEntries::Four(buckets) => buckets.len(),
            EncodedEntries::Eight(buckets) => buckets.len(),
            EncodedEntries::Sixteen(buckets) => buckets.len(),
            EncodedEntries::Listed(counts) => counts.len(),
        }
    }

    /// The next entry, None exactly where none is left.
    pub fn next_entry(
        &mut self,
        alloc: Global,
        req: &CompositeAggReqData<'_>,
    ) -> Result<Option<PageEntry>, OutOfMemory>
        requires { All (IsEncoded req.now) (keys_of self.old) }
        ensures { IfOk result (λ next. MatchOption next
            (AreNone self.old self.new) (IsNext req.now self.old self.new)) }
    {
        match &mut self.encoded {
            EncodedEntries::One(buckets) => next_of(alloc, buckets, req),
            EncodedEntries::Two(buckets) => next_of(alloc, buckets, req),
            EncodedEntries::Four(buckets) => next_of(alloc, buckets, req),
            EncodedEntries::Eight(buckets) => next_of(alloc, buckets, req),
            EncodedEntries::Sixteen(buckets) => next_of(alloc, buckets, req),
            EncodedEntries::Listed(counts) => next_listed(alloc, counts, req),
        }
    }

    /// The entries that are still to come, as a list.
    pub(crate) fn into_list(
        self,
        alloc: Global,
        req: &CompositeAggReqData<'_>,
    ) -> Result<ItemList<PageEntry>, OutOfMemory>
        requires { All (IsEncoded req.now) (keys_of self) }
        ensures { IfOk result (λ page. page ≡ page_entries req.now self) }
    {
        let mut rest = self;
        let mut page = Vec::with_capacity(alloc, rest.len())?;
        while let Some(entry) = rest.next_entry(alloc, req)? {
            page.push(entry)?;
        }
        Ok(ItemList::from_vec(page))
    }
}

// The entry of the next bucket, None exactly where none is left.
fn next_of<const N: usize>(
    alloc: Global,
    buckets: &mut FreeingIter<(StoredTuple<Encoded, N>, Bucket)>,
    req: &CompositeAggReqData<'_>,
) -> Result<Option<PageEntry>, OutOfMemory>
    requires { All (IsEncoded req.now) (keys_of buckets.old) }
    ensures { IfOk result (λ next. MatchOption next
        (AreNone buckets.old buckets.new) (IsNext req.now buckets.old buckets.new)) }
{
    match buckets.next() {
        Some((tuple, bucket)) => Ok(Some(entry(alloc, req, tuple.as_slice(), bucket)?)),
        None => Ok(None),
    }
}

// The entry of the next tuple of one key and its count, None exactly where none is left.
fn next_listed(
    alloc: Global,
    counts: &mut FreeingIter<(StoredTuple<Encoded, 1>, u64)>,
    req: &CompositeAggReqData<'_>,
) -> Result<Option<PageEntry>, OutOfMemory>
    requires { All (IsEncoded req.now) (keys_of (listed_of counts.old)) }
    ensures { IfOk result (λ next. MatchOption next
        (AreNone (listed_of counts.old) (listed_of counts.new))
        (IsNext req.now (listed_of counts.old) (listed_of counts.new))) }
{
    match counts.next() {
        Some((tuple, count)) => {
            let bucket = Bucket { count, id: 0 };
            Ok(Some(entry(alloc, req, tuple.as_slice(), bucket)?))
        }
        None => Ok(None),
    }
}

// The entry of an encoded tuple with its bucket.
fn entry(
    alloc: Global,
    req: &CompositeAggReqData<'_>,
    encoded: &[Encoded],
    bucket: Bucket,
) -> Result<PageEntry, OutOfMemory>
    requires { IsEncoded req.now encoded.now }
    ensures { IfOk result (λ entry. entry ≡ entry_of req.now (encoded.now, bucket)) }
{
    Ok(PageEntry {
        key: decode_tuple(alloc, req, encoded)?,
        doc_count: bucket.count,
        bucket_id: bucket.id,
    })
}
