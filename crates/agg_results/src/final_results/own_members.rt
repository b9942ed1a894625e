//! The members of an object of sub-results beside these.
ghost use Rattle.std.specs.Prelude.{◌≡◌, [], OnOk, option_map, string_bytes};
ghost use Rattle.agg_results.specs.final_results.Appending.{AppendsMembers, above, below};
ghost use Rattle.agg_results.specs.final_results.OwnMembers.{member_of, own_members};
ghost use Rattle.agg_results.specs.final_results.ResultsText.{count_member, plain_members};

use crate::final_results::json_text::{JsonText, write_comma, write_name};
use crate::final_results::{CompositeBucketEntry, FilterBucketResult};
use agg_values::{CompositeKey, NameMap, OutOfMemory};
use std::alloc::Global;
use std::cmp::Ordering;

/// The members of a bucket or of a filter beside its sub-results that are still to be written.
#[derive(Drop)]
pub struct OwnMembers<'a> {
    doc_count: Option<&'a u64>,
    key: Option<&'a NameMap<CompositeKey>>,
}

impl<'a> OwnMembers<'a> {
    /// None, as of results that stand in no bucket and no filter.
    pub fn none() -> OwnMembers<'a>
        ensures { own_members result ≡ [] }
    {
        OwnMembers {
            doc_count: None,
            key: None,
        }
    }

    /// The members of a filter.
    pub fn of_filter(filter: &'a FilterBucketResult) -> OwnMembers<'a>
        ensures { own_members result ≡ count_member filter.now.doc_count }
    {
        OwnMembers {
            doc_count: Some(&filter.doc_count),
            key: None,
        }
    }

    /// The members of a bucket.
    pub fn of_bucket(bucket: &'a CompositeBucketEntry) -> OwnMembers<'a>
        ensures { own_members result ≡ plain_members bucket.now.doc_count bucket.now.key }
    {
        OwnMembers {
            doc_count: Some(&bucket.doc_count),
            key: Some(&bucket.key),
        }
    }

    /// Appends those whose names come before this name. One of this very name is left out.
    pub fn write_below(
        &mut self,
        alloc: Global,
        text: &mut String,
        first: &mut bool,
        name: &str,
    ) -> Result<(), OutOfMemory>
        ensures text { OnOk result (AppendsMembers (below name.now (own_members self.old))
            first.old first.new (string_bytes text.old) (string_bytes text.new)) }
        ensures left { OnOk result
            (own_members self.new ≡ above name.now (own_members self.old)) }
    {
        write_member_below(alloc, text, first, name, "doc_count", &mut self.doc_count)?;
        write_member_below(alloc, text, first, name, "key", &mut self.key)
    }

    /// Appends those that are left.
    pub fn write_rest(
        self,
        alloc: Global,
        text: &mut String,
        first: &mut bool,
    ) -> Result<(), OutOfMemory>
        ensures { OnOk result (AppendsMembers (own_members self.entry)
            first.old first.new (string_bytes text.old) (string_bytes text.new)) }
    {
        write_member(alloc, text, first, "doc_count", self.doc_count)?;
        write_member(alloc, text, first, "key", self.key)
    }
}

// Appends a member, if there is one and its name comes before the other. At the very name it is
// left out.
fn write_member_below<T: JsonText>(
    alloc: Global,
    text: &mut String,
    first: &mut bool,
    other: &str,
    name: &str,
    value: &mut Option<&T>,
) -> Result<(), OutOfMemory>
    ensures text { OnOk result
        (AppendsMembers
        (below other.now (member_of name.now T.json (option_map (λ v. v.now) value.old)))
        first.old first.new (string_bytes text.old) (string_bytes text.new)) }
    ensures left { OnOk result
        (member_of name.now T.json (option_map (λ v. v.now) value.new)
        ≡ above other.now (member_of name.now T.json (option_map (λ v. v.now) value.old))) }
{
    match other.cmp(name) {
        Ordering::Less => Ok(()),
        Ordering::Equal => {
            *value = None;
            Ok(())
        }
        Ordering::Greater => write_member(alloc, text, first, name, value.take()),
    }
}

// Appends a member, if there is one.
fn write_member<T: JsonText>(
    alloc: Global,
    text: &mut String,
    first: &mut bool,
    name: &str,
    value: Option<&T>,
) -> Result<(), OutOfMemory>
    ensures { OnOk result
        (AppendsMembers (member_of name.now T.json (option_map (λ v. v.now) value.entry))
        first.old first.new (string_bytes text.old) (string_bytes text.new)) }
{
    let Some(value) = value else {
        return Ok(());
    };
    write_comma(text, first)?;
    write_name(alloc, text, name)?;
    value.write_to(alloc, text)
}
