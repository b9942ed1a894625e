use crate::values::given::Given;
use agg_expect::{expect_equal, expect_equal_for};
use agg_values::{AfterKey, CompositeIntermediateKey, KeyTextError, OutOfMemory, Text};
use std::alloc::Global;
use std::test::Fail;

// What is read of a text.
fn read(alloc: Global, text: &str) -> Result<Result<AfterKey, KeyTextError>, OutOfMemory> {
    Ok(AfterKey::read(alloc, &Text::copy_of(alloc, text)?))
}

// Texts, and the keys that are read of them.
const READ: &[(&str, Given)] = &[
    ("str:a:b", Given::Text("a:b")),
    ("null:x", Given::Null),
    ("u64:5", Given::Unsigned(5)),
    ("i64:+007", Given::Signed(7)),
    ("dt:-1", Given::Date(-1)),
    ("bool:false", Given::Truth(false)),
    ("ip:1.2.3.4", Given::Address(0xffff_0102_0304)),
];

#[test]
fn reads_each_kind(rt: HostRuntime) -> Result<(), Fail> {
    let alloc = rt.alloc();
    for &(text, given) in READ {
        let key = AfterKey(given.key(alloc)?);
        expect_equal_for(text, read(alloc, text)?, Ok(key))?;
    }
    Ok(())
}

// Texts of no key, and why.
const REFUSED: &[(&str, KeyTextError)] = &[
    ("", KeyTextError::NoColon),
    ("null", KeyTextError::NoColon),
    ("f64:1", KeyTextError::Unsupported),
    ("x:1", KeyTextError::UnknownType),
    ("I64:1", KeyTextError::UnknownType),
    (":1", KeyTextError::UnknownType),
    ("i64:", KeyTextError::BadValue),
    ("i64:9223372036854775808", KeyTextError::BadValue),
    ("u64:-0", KeyTextError::BadValue),
    ("u64:18446744073709551616", KeyTextError::BadValue),
    ("dt:1.0", KeyTextError::BadValue),
    ("bool:True", KeyTextError::BadValue),
    ("ip:1.2.3.04", KeyTextError::BadValue),
];

#[test]
fn answers_the_first_refusal(rt: HostRuntime) -> Result<(), Fail> {
    for &(text, refusal) in REFUSED {
        expect_equal_for(text, read(rt.alloc(), text)?, Err(refusal))?;
    }
    Ok(())
}

// Keys, and their texts.
const WRITTEN: &[(Given, &str)] = &[
    (Given::Truth(true), "bool:true"),
    (Given::Text(":é\"\n:"), "str::é\"\n:"),
    (Given::Signed(i64::MIN), "i64:-9223372036854775808"),
    (Given::Unsigned(u64::MAX), "u64:18446744073709551615"),
    (Given::Date(-1), "dt:-1"),
    (Given::Address(1), "ip:::1"),
    (Given::Null, "null:"),
];

// A key's text is this, and is read as the key.
fn expect_text(alloc: Global, key: &CompositeIntermediateKey, text: &str) -> Result<(), Fail> {
    let written = AfterKey::from(key.try_clone(alloc)?).write(alloc)?;
    let read = CompositeIntermediateKey::from(AfterKey::read(alloc, &written)?);
    expect_equal((written.as_str(), &read), (text, key))
}

#[test]
fn reads_what_it_wrote(rt: HostRuntime) -> Result<(), Fail> {
    for &(given, text) in WRITTEN {
        expect_text(rt.alloc(), &given.key(rt.alloc())?, text)?;
    }
    Ok(())
}
