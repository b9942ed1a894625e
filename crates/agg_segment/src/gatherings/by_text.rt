ghost use Rattle.std.specs.Prelude.{◌≡◌, IfOk, map, get_or};
ghost use Rattle.std.specs.List.{All};
ghost use Rattle.std.specs.List.Sorted.{IsPermutation};
ghost use Rattle.agg_values.specs.Names.{name_cmp};
ghost use Rattle.agg_segment.specs.storage.Dictionary.{text_at, AreByText};
ghost use Rattle.agg_segment.specs.Fronts.{front_number, keyed_cmp, AreBytes, IsKeyed};

use agg_values::{OutOfMemory, Text};
use std::alloc::Global;
use std::cmp::Ordering;

// A place with the first eight bytes of its text, as a number.
#[derive(Clone, Copy)]
struct KeyedPlace {
    front: u64,
    place: usize,
}

/// The places, ascending by text.
pub fn sort_by_text(
    alloc: Global,
    texts: &[Text],
    places: Vec<usize>,
) -> Result<Vec<usize>, OutOfMemory>
    ensures permutation { IfOk result (λ sorted. IsPermutation places.items sorted.items) }
    ensures sorted { IfOk result (λ sorted. AreByText texts.now sorted.items) }
{
    let mut keyed = keyed_places(alloc, texts, places)?;
    keyed.sort_unstable_by(|a, b| compare_places(texts, *a, *b));
    places_in(alloc, &keyed)
}

// The places with the first bytes of their texts.
fn keyed_places(
    alloc: Global,
    texts: &[Text],
    places: Vec<usize>,
) -> Result<Vec<KeyedPlace>, OutOfMemory>
    ensures places { IfOk result (λ keyed. map (λ k. k.place) keyed.items ≡ places.items) }
    ensures keyed { IfOk result (λ keyed. All (IsKeyed texts.now) keyed.items) }
{
    let mut keyed = Vec::with_capacity(alloc, places.len())?;
    for place in &places {
        keyed.push(keyed_place(texts, *place))?;
    }
    Ok(keyed)
}

// A place with the first bytes of its text.
fn keyed_place(texts: &[Text], place: usize) -> KeyedPlace
    ensures place { result.place ≡ place }
    ensures keyed { IsKeyed texts.now result }
{
    let front = front_of(text_or_empty(texts, place));
    KeyedPlace { front, place }
}

// The first eight bytes of a text as a number, the first of them the highest.
fn front_of(text: &str) -> u64
    ensures bytes { AreBytes text.now }
    ensures front { result ≡ front_number 8 text.now }
{
    let bytes = text.as_bytes();
    let mut front = 0;
    for at in 0..8 {
        front = front * 256 + u64::from(byte_or_zero(bytes, at));
    }
    front
}

// The byte at a place, 0 where there is none.
fn byte_or_zero(bytes: &[u8], at: usize) -> u8
    ensures { result ≡ get_or bytes.now at 0 }
{
    match bytes.get(at) {
        Some(byte) => *byte,
        None => 0,
    }
}

// How two places compare by their fronts, and where these are equal by their texts.
fn compare_places(texts: &[Text], left: KeyedPlace, right: KeyedPlace) -> Ordering
    ensures { result ≡ keyed_cmp texts.now left right }
{
    match left.front.cmp(&right.front) {
        Ordering::Equal => compare_texts(texts, left.place, right.place),
        unequal => unequal,
    }
}

// How the texts at two places compare.
fn compare_texts(texts: &[Text], left: usize, right: usize) -> Ordering
    ensures { result ≡ name_cmp (text_at texts.now left) (text_at texts.now right) }
{
    text_or_empty(texts, left).cmp(text_or_empty(texts, right))
}

// The text at a place, empty where there is none.
fn text_or_empty(texts: &[Text], place: usize) -> &str
    ensures { result.now ≡ text_at texts.now place }
{
    match texts.get(place) {
        Some(text) => text.as_str(),
        None => "",
    }
}

// The places alone.
fn places_in(alloc: Global, keyed: &[KeyedPlace]) -> Result<Vec<usize>, OutOfMemory>
    ensures { IfOk result (λ places. places.items ≡ map (λ k. k.place) keyed.now) }
{
    let mut places = Vec::with_capacity(alloc, keyed.len())?;
    for one in keyed {
        places.push(one.place)?;
    }
    Ok(places)
}
