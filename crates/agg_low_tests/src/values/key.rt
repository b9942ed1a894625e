use agg_expect::expect_equal;
use agg_values::{Address, IntermediateKey, Key, OutOfMemory, Text};
use std::alloc::Global;
use std::test::Fail;

// A key that keeps its type.
#[derive(Clone, Copy)]
enum Typed {
    Truth(bool),
    Signed(i64),
    Unsigned(u64),
    Address(u128),
}

fn typed_key(typed: Typed) -> IntermediateKey {
    match typed {
        Typed::Truth(truth) => IntermediateKey::Bool(truth),
        Typed::Signed(number) => IntermediateKey::I64(number),
        Typed::Unsigned(number) => IntermediateKey::from(Key::U64(number)),
        Typed::Address(address) => IntermediateKey::IpAddr(Address(address)),
    }
}

// A key without its type.
#[derive(Clone, Copy)]
enum Bare {
    Text(&'static str),
    Signed(i64),
    Unsigned(u64),
}

fn bare_key(alloc: Global, bare: Bare) -> Result<Key, OutOfMemory> {
    Ok(match bare {
        Bare::Text(text) => Key::Str(Text::copy_of(alloc, text)?),
        Bare::Signed(number) => Key::I64(number),
        Bare::Unsigned(number) => Key::U64(number),
    })
}

// Keys with their type and without it, each with its text.
const KEYS: &[(Typed, &str, Bare, &str)] = &[
    (Typed::Truth(true), "true", Bare::Unsigned(1), "1"),
    (Typed::Signed(-5), "-5", Bare::Signed(-5), "-5"),
    (
        Typed::Address(0xffff_0102_0304),
        "::ffff:1.2.3.4",
        Bare::Text("1.2.3.4"),
        "1.2.3.4",
    ),
    (Typed::Unsigned(5), "5", Bare::Unsigned(5), "5"),
];

#[test]
fn typed_keys_have_texts(rt: HostRuntime) -> Result<(), Fail> {
    for &(typed, text, _, _) in KEYS {
        expect_equal(typed_key(typed).to_string(rt.alloc())?.as_str(), text)?;
    }
    Ok(())
}

// A key is this one, with this text.
fn expect_key(alloc: Global, key: &Key, bare: Bare, text: &str) -> Result<(), Fail> {
    let shown = key.to_string(alloc)?;
    let expected = bare_key(alloc, bare)?;
    expect_equal((shown.as_str(), key), (text, &expected))
}

#[test]
fn takes_the_type_away(rt: HostRuntime) -> Result<(), Fail> {
    for &(typed, _, bare, text) in KEYS {
        let key = Key::from_intermediate(rt.alloc(), typed_key(typed))?;
        expect_key(rt.alloc(), &key, bare, text)?;
    }
    Ok(())
}
