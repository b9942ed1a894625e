//! The dictionaries of gathered texts and addresses.
ghost use Rattle.std.specs.Prelude.{◌≡◌, ◌≢◌, ◌<◌, ◌↔◌, ◌++◌, ℕ, List};
ghost use Rattle.std.specs.Prelude.{IsTrue, IfOk, OnOk, length};
ghost use Rattle.std.specs.List.{All, Contains};
ghost use Rattle.std.specs.List.Sorted.{IsStrictlySortedBy};
ghost use Rattle.agg_values.specs.Names.{name_cmp};
ghost use Rattle.std.specs.declared.cmp.Ordering.TheVariants.{Less};
ghost use Rattle.agg_segment.specs.storage.Dictionary.{address_at, last_text};
ghost use Rattle.agg_segment.specs.storage.Dictionary.{HasOrdinal, AreByText};

use super::by_text::sort_by_text;
use crate::storage::{AddressList, Dictionary};
use agg_values::{Address, OutOfMemory, Text};
use std::alloc::Global;

/// The dictionary of the texts at places. The ordinals of the places are written.
pub fn dictionary_of(
    alloc: Global,
    texts: &[Text],
    ordinals: &mut [u64],
    numbers: &[u64],
) -> Result<Dictionary, OutOfMemory>
    requires within { All (λ n. n < length texts.now) numbers.now }
    requires each { length ordinals.old ≡ length texts.now }
    ensures { IfOk result (λ dictionary.
        All (HasOrdinal texts.now dictionary ordinals.new) numbers.now) }
{
    let places = places_by_text(alloc, texts, numbers)?;
    let found = number_places(alloc, texts, ordinals, &places)?;
    Dictionary::of(alloc, found)
}

// The distinct texts of places that ascend by text. The ordinals of the places are written.
fn number_places(
    alloc: Global,
    texts: &[Text],
    ordinals: &mut [u64],
    places: &[usize],
) -> Result<Vec<Text>, OutOfMemory>
    requires within { All (λ p. p < length texts.now) places.now }
    requires sorted { AreByText texts.now places.now }
    requires each { length ordinals.old ≡ length texts.now }
    ensures ascending { IfOk result (λ found. IsStrictlySortedBy name_cmp found.items) }
    ensures ordinals { IfOk result
        (λ found. All (HasOrdinal texts.now found.items ordinals.new) places.now) }
{
    let mut found = Vec::with_capacity(alloc, places.len())?;
    for place in places {
        add_text(alloc, &mut found, &texts[*place])?;
        ordinals[*place] = (found.len() - 1) as u64;
    }
    Ok(found)
}

// Appends a text, unless it is the last.
fn add_text(alloc: Global, found: &mut Vec<Text>, text: &Text) -> Result<(), OutOfMemory>
    requires ascending { IsStrictlySortedBy name_cmp found.old.items }
    requires after { 0 < length found.old.items
        → name_cmp text.now (last_text found.old.items) ≢ Less }
    ensures ascending { IsStrictlySortedBy name_cmp found.new.items }
    ensures more { (more : List (List ℕ)) × (found.new.items ≡ found.old.items ++ more) }
    ensures some { OnOk result (0 < length found.new.items) }
    ensures last { OnOk result (last_text found.new.items ≡ text.now) }
{
    if is_last(found, text) {
        return Ok(());
    }
    found.push(text.try_clone(alloc)?)?;
    Ok(())
}

// Whether a text is the last of a list.
fn is_last(found: &[Text], text: &Text) -> bool
    ensures some { IsTrue result → 0 < length found.now }
    ensures last { 0 < length found.now → IsTrue result ↔ (last_text found.now ≡ text.now) }
{
    let count = found.len();
    count > 0 && found[count - 1] == *text
}

// The distinct places, ascending by text.
fn places_by_text(alloc: Global, texts: &[Text], numbers: &[u64]) -> Result<Vec<usize>, OutOfMemory>
    requires { All (λ n. n < length texts.now) numbers.now }
    ensures all { IfOk result (λ places. All (Contains places.items) numbers.now) }
    ensures within { IfOk result (λ places. All (λ p. p < length texts.now) places.items) }
    ensures sorted { IfOk result (λ places. AreByText texts.now places.items) }
{
    let places = places_of(alloc, numbers)?;
    sort_by_text(alloc, texts, places)
}

/// The list of the addresses at places.
pub fn address_list_of(
    alloc: Global,
    addresses: &[Address],
    numbers: &[u64],
) -> Result<AddressList, OutOfMemory>
    requires { All (λ n. n < length addresses.now) numbers.now }
    ensures { IfOk result (λ list. All
        (λ n. Contains list (address_at addresses.now n)) numbers.now) }
{
    let found = addresses_of(alloc, addresses, numbers)?;
    AddressList::of(alloc, found)
}

// The distinct places, ascending.
fn places_of(alloc: Global, numbers: &[u64]) -> Result<Vec<usize>, OutOfMemory>
    ensures all { IfOk result (λ places. All (Contains places.items) numbers.now) }
    ensures only { IfOk result (λ places. All (Contains numbers.now) places.items) }
{
    let mut places = Vec::with_capacity(alloc, numbers.len())?;
    for number in numbers {
        places.push(*number as usize)?;
    }
    places.sort_unstable();
    places.dedup();
    Ok(places)
}

// The numbers of the addresses at places.
fn addresses_of(
    alloc: Global,
    addresses: &[Address],
    numbers: &[u64],
) -> Result<Vec<u128>, OutOfMemory>
    requires { All (λ n. n < length addresses.now) numbers.now }
    ensures { IfOk result (λ found. All
        (λ n. Contains found.items (address_at addresses.now n).0) numbers.now) }
{
    let mut found = Vec::with_capacity(alloc, numbers.len())?;
    for number in numbers {
        found.push(addresses[*number as usize].0)?;
    }
    Ok(found)
}
