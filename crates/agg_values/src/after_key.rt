ghost use Rattle.std.specs.Prelude.{◌≡◌, ℤ, ℕ, Bool, ◌∷◌, ◌++◌, codes, decimal, string_bytes, IfOk};
ghost use Rattle.std.specs.Prelude.{IfErr, MatchResult};
ghost use Rattle.std.specs.Fmt.{signed_decimal};
ghost use Rattle.std.specs.List.{Contains};
ghost use Rattle.agg_values.specs.Address.{address_text};
ghost use Rattle.agg_values.specs.AddressGrammar.{IsAddressText};
ghost use Rattle.agg_values.specs.KeyText.{colon, key_text, kind_text, value_text, IsKeyText};
ghost use Rattle.agg_values.specs.KeyText.{IsValueText, IsSignedText, IsUnsignedText, IsRefusedAs};
ghost use Rattle.agg_values.specs.Nothing.{NoneIs};
ghost use Rattle.agg_values.specs.TypedKey.{CompositeIntermediateKey};
ghost use Rattle.agg_values.specs.TypedKey.key.{Bool as Truth, IpAddr, U64};

use crate::address::read_address;
use crate::{Address, CompositeIntermediateKey, KeyTextError, NameMap, OutOfMemory, Text};
use std::alloc::{AllocError, Global};

/// A key that a page begins after.
#[derive(Debug, Drop, PartialEq)]
pub struct AfterKey(pub CompositeIntermediateKey);

impl AfterKey {
    /// Reads a text `type:value`. The first refusal that applies is answered, or want of memory for
    /// a `str`.
    pub fn read(alloc: Global, text: &Text) -> Result<AfterKey, KeyTextError>
        ensures ok { IfOk result (λ key. IsKeyText text.now key.0) }
        ensures err { IfErr result (λ error. IsRefusedAs text.now error) }
        ensures each { (key : CompositeIntermediateKey) → IsKeyText text.now key
            → MatchResult result (λ read. read.0 ≡ key)
            (λ error. error ≡ KeyTextError.OutOfMemory) }
    {
        let (kind, value) = text.as_str().split_once(':').ok_or(KeyTextError::NoColon)?;
        Ok(AfterKey(read_value(alloc, kind, value)?))
    }

    /// Writes a text that reads back as the key.
    pub fn write(&self, alloc: Global) -> Result<Text, OutOfMemory>
        ensures text { IfOk result (λ text. text ≡ key_text self.now.0) }
        ensures reads_back { IfOk result (λ text. IsKeyText text self.now.0) }
    {
        Text::from_string(written_key(alloc, &self.0)?)
    }
}

/// An equal after key.
pub fn copied_after_key(
    alloc: Global,
    after: &NameMap<AfterKey>,
) -> Result<NameMap<AfterKey>, OutOfMemory>
    ensures { IfOk result (λ copy. copy ≡ after.now) }
{
    let mut copy = NameMap::new(alloc);
    for (source, key) in after.iter() {
        copy.insert(source.try_clone(alloc)?, AfterKey(key.0.try_clone(alloc)?))?;
    }
    Ok(copy)
}

impl From<CompositeIntermediateKey> for AfterKey {
    ghost from_gives = { λ key after. after.0 ≡ key };

    fn from(key: CompositeIntermediateKey) -> AfterKey {
        AfterKey(key)
    }
}

impl From<AfterKey> for CompositeIntermediateKey {
    ghost from_gives = { λ after key. key ≡ after.0 };

    fn from(after: AfterKey) -> CompositeIntermediateKey {
        let AfterKey(key) = after;
        key
    }
}

fn written_key(alloc: Global, key: &CompositeIntermediateKey) -> Result<String, AllocError>
    ensures text { IfOk result (λ text. string_bytes text ≡ key_text key.now) }
    ensures reads_back { IsValueText (value_text key.now) key.now }
{
    match key {
        CompositeIntermediateKey::Bool(b) => format!(in alloc; "bool:{b}"),
        CompositeIntermediateKey::Str(text) => format!(in alloc; "str:{}", text.as_str()),
        CompositeIntermediateKey::I64(n) => signed_text(alloc, "i64", *n),
        CompositeIntermediateKey::U64(n) => unsigned_text(alloc, *n),
        CompositeIntermediateKey::DateTime(ns) => signed_text(alloc, "dt", *ns),
        CompositeIntermediateKey::IpAddr(address) => ip_text(alloc, *address),
        CompositeIntermediateKey::Null => String::from_str(alloc, "null:"),
    }
}

fn signed_text(alloc: Global, kind: &str, n: i64) -> Result<String, AllocError>
    ensures text { IfOk result (λ text. string_bytes text ≡ kind.now ++ colon ∷ signed_decimal n) }
    ensures reads_back { IsSignedText (signed_decimal n) n }
{
    format!(in alloc; "{kind}:{n}")
}

fn unsigned_text(alloc: Global, n: u64) -> Result<String, AllocError>
    ensures text { IfOk result (λ text. string_bytes text ≡ key_text (U64 n)) }
    ensures reads_back { IsUnsignedText (decimal n) n }
{
    format!(in alloc; "u64:{n}")
}

fn ip_text(alloc: Global, address: Address) -> Result<String, AllocError>
    ensures text { IfOk result (λ text. string_bytes text ≡ key_text (IpAddr address)) }
    ensures reads_back { IsAddressText (address_text address.0) address.0 }
{
    format!(in alloc; "ip:{address}")
}

fn read_value(
    alloc: Global,
    kind: &str,
    value: &str,
) -> Result<CompositeIntermediateKey, KeyTextError>
    requires first_colon { ¬ (Contains kind.now colon) }
    ensures ok { IfOk result (λ key. IsKeyText (kind.now ++ colon ∷ value.now) key) }
    ensures err { IfErr result (λ error. IsRefusedAs (kind.now ++ colon ∷ value.now) error) }
{
    match kind {
        "bool" => Ok(CompositeIntermediateKey::Bool(read_truth(value)?)),
        "str" => Ok(CompositeIntermediateKey::Str(Text::copy_of(alloc, value)?)),
        "i64" => Ok(CompositeIntermediateKey::I64(read_signed(value)?)),
        "u64" => Ok(CompositeIntermediateKey::U64(read_unsigned(value)?)),
        "dt" => Ok(CompositeIntermediateKey::DateTime(read_signed(value)?)),
        "ip" => Ok(CompositeIntermediateKey::IpAddr(read_address(value).ok_or(
            KeyTextError::BadValue,
        )?)),
        "null" => Ok(CompositeIntermediateKey::Null),
        "f64" => Err(KeyTextError::Unsupported),
        _ => Err(KeyTextError::UnknownType),
    }
}

fn read_truth(value: &str) -> Result<bool, KeyTextError>
    ensures { MatchResult result (λ b. IsValueText value.now (Truth b))
        (λ e. (e ≡ KeyTextError.BadValue) × NoneIs (λ b. IsValueText value.now (Truth b))) }
{
    value.parse().map_err(|_| KeyTextError::BadValue)
}

fn read_signed(value: &str) -> Result<i64, KeyTextError>
    ensures { MatchResult result (IsSignedText value.now)
        (λ e. (e ≡ KeyTextError.BadValue) × NoneIs (IsSignedText value.now)) }
{
    value.parse().map_err(|_| KeyTextError::BadValue)
}

fn read_unsigned(value: &str) -> Result<u64, KeyTextError>
    ensures { MatchResult result (IsUnsignedText value.now)
        (λ e. (e ≡ KeyTextError.BadValue) × NoneIs (IsUnsignedText value.now)) }
{
    value.parse().map_err(|_| KeyTextError::BadValue)
}
