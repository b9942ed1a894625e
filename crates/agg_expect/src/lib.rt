//! Comparisons that fail a test, for the crates of tests.
#![tactic(auto)]

ghost use Rattle.std.specs.Prelude.{◌≡◌, OnErr, OnOk, false, true};

use std::fmt::Debug;
use std::test::Fail;

/// Fails exactly where the value that was found is not the expected one.
pub fn expect_equal<T: PartialEq + Debug + Drop>(found: T, expected: T) -> Result<(), Fail>
    ensures equal { OnOk result (T.eq found expected ≡ true) }
    ensures unequal { OnErr result (T.eq found expected ≡ false) }
{
    if found == expected {
        return Ok(());
    }
    Err(Fail::new(format_args!("found {found:?}\nexpected {expected:?}")))
}

/// Fails exactly where the value that was found for a case of a table is not the expected one. The
/// message names the case.
pub fn expect_equal_for<T: PartialEq + Debug + Drop>(
    case: impl Debug + Drop,
    found: T,
    expected: T,
) -> Result<(), Fail>
    ensures equal { OnOk result (T.eq found expected ≡ true) }
    ensures unequal { OnErr result (T.eq found expected ≡ false) }
{
    if found == expected {
        return Ok(());
    }
    Err(Fail::new(format_args!("for {case:?}: found {found:?}\nexpected {expected:?}")))
}
