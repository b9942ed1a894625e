use agg_expect::{expect_equal, expect_equal_for};
use agg_values::{Address, OutOfMemory, Text};
use std::alloc::Global;
use std::test::Fail;

// Addresses, and their texts.
const WRITTEN: &[(u128, &str)] = &[
    (0, "::"),
    (1, "::1"),
    (281_470_698_652_420, "::ffff:1.2.3.4"),
    (u128::MAX, "ffff:ffff:ffff:ffff:ffff:ffff:ffff:ffff"),
];

#[test]
fn writes_the_recommended_text(rt: HostRuntime) -> Result<(), Fail> {
    for &(number, text) in WRITTEN {
        let written = Address(number).write(rt.alloc())?;
        let shown = Address(number).to_string(rt.alloc())?;
        expect_equal((written.as_str(), shown.as_str()), (text, text))?;
    }
    Ok(())
}

// The text that is written of the address of a text.
fn rewritten(alloc: Global, text: &str) -> Result<Option<Text>, OutOfMemory> {
    match Address::read(&Text::copy_of(alloc, text)?) {
        Some(address) => Ok(Some(address.write(alloc)?)),
        None => Ok(None),
    }
}

// Texts of addresses, and the texts that are written of these.
const READ: &[(&str, &str)] = &[
    ("2001:DB8:0:0:0:0:0:1", "2001:db8::1"),
    ("1:0:0:2:3:0:0:4", "1::2:3:0:0:4"),
    ("1:0:0:2:0:0:0:3", "1:0:0:2::3"),
    ("1:0:2:3:4:5:6:7", "1:0:2:3:4:5:6:7"),
    ("0001:000a::", "1:a::"),
    ("1.2.3.4", "::ffff:1.2.3.4"),
    ("::FFFF:102:304", "::ffff:1.2.3.4"),
    ("64:ff9b::1.2.3.4", "64:ff9b::102:304"),
    ("1:2:3:4:5:6:7::", "1:2:3:4:5:6:7:0"),
];

// Texts of no address.
const REFUSED: &[&str] = &[
    "",
    "1.2.3.04",
    "1.2.3.256",
    "1.2.3.4.5",
    "::1::2",
    "1:2:3:4:5:6:7",
    "1:2:3:4:5:6:7:8::",
    "12345::",
    "1.2.3.4::",
    "[::1]",
    "fe80::1%1",
    " ::1",
];

#[test]
fn writes_what_it_read(rt: HostRuntime) -> Result<(), Fail> {
    for &(text, canonical) in READ {
        let written = rewritten(rt.alloc(), text)?.ok_or("refused")?;
        expect_equal_for(text, written.as_str(), canonical)?;
    }
    Ok(())
}

#[test]
fn refuses_other_texts(rt: HostRuntime) -> Result<(), Fail> {
    for &text in REFUSED {
        expect_equal_for(text, rewritten(rt.alloc(), text)?, None)?;
    }
    Ok(())
}
