use agg_expect::expect_equal;
use agg_values::{OrderTarget, Text};
use std::alloc::Global;
use std::test::Fail;

// A text is read as this target, which is displayed as the text.
fn expect_target(alloc: Global, text: &str, target: &OrderTarget) -> Result<(), Fail> {
    let read = OrderTarget::from_text(Text::copy_of(alloc, text)?);
    let shown = read.to_string(alloc)?;
    expect_equal((shown.as_str(), &read == target), (text, true))
}

#[test]
fn reads_and_displays_targets(rt: HostRuntime) -> Result<(), Fail> {
    expect_target(rt.alloc(), "_key", &OrderTarget::Key)?;
    expect_target(rt.alloc(), "_count", &OrderTarget::default())?;
    let prices = Text::copy_of(rt.alloc(), "prices")?;
    expect_target(rt.alloc(), "prices", &OrderTarget::SubAggregation(prices))
}
