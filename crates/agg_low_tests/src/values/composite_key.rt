use crate::values::given::Given;
use agg_expect::expect_equal;
use agg_values::{CompositeKey, OutOfMemory, Text};
use std::alloc::Global;
use std::test::Fail;

// A key as it is shown.
#[derive(Clone, Copy)]
enum Shown {
    Signed(i64),
    Unsigned(u64),
    Text(&'static str),
    Null,
}

// Keys, and how they are shown.
const SHOWN: &[(Given, Shown)] = &[
    (Given::Date(-1_500_000), Shown::Signed(-1)),
    (Given::Address(0xffff_0102_0304), Shown::Text("1.2.3.4")),
    (Given::Address(1), Shown::Text("::1")),
    (Given::Unsigned(5), Shown::Unsigned(5)),
    (Given::Null, Shown::Null),
];

fn shown_key(alloc: Global, shown: Shown) -> Result<CompositeKey, OutOfMemory> {
    Ok(match shown {
        Shown::Signed(number) => CompositeKey::I64(number),
        Shown::Unsigned(number) => CompositeKey::U64(number),
        Shown::Text(text) => CompositeKey::Str(Text::copy_of(alloc, text)?),
        Shown::Null => CompositeKey::Null,
    })
}

#[test]
fn shows_each_class(rt: HostRuntime) -> Result<(), Fail> {
    let alloc = rt.alloc();
    for &(given, shown) in SHOWN {
        let composite = CompositeKey::from_intermediate(alloc, given.key(alloc)?)?;
        expect_equal(composite, shown_key(alloc, shown)?)?;
    }
    Ok(())
}
