ghost use Rattle.std.specs.Prelude.{◌≡◌};
ghost use Rattle.agg_values.specs.Column.{class_rank};
ghost use Rattle.agg_values.specs.TypedKey.{truth_or_number, address_of, text_of};
ghost use Rattle.agg_values.specs.KeyOrder.{ascending_order, directed, null_rank, key_order};

use crate::CompositeIntermediateKey;
use std::cmp::Ordering;

/// The direction in which a source's keys ascend.
#[derive(Clone, Copy, Debug, PartialEq, Eq, Default)]
pub enum Order {
    Asc,
    #[default]
    Desc,
}

/// The place of Null among a source's keys.
#[derive(Clone, Copy, Debug, PartialEq, Eq, Default)]
pub enum MissingOrder {
    /// First in `Asc`, last in `Desc`.
    #[default]
    Default,
    First,
    Last,
}

/// How two keys of one source compare in its order.
pub fn composite_intermediate_key_ordering(
    left_opt: &CompositeIntermediateKey,
    right_opt: &CompositeIntermediateKey,
    order: Order,
    missing_order: MissingOrder,
) -> Ordering
    ensures { result ≡ key_order order missing_order left_opt.now right_opt.now }
{
    null_place(left_opt, order, missing_order)
        .cmp(&null_place(right_opt, order, missing_order))
        .then(compare_directed(left_opt, right_opt, order))
}

// 0 where Null comes before the values, 2 where it comes after them, and 1 for a value.
fn null_place(key: &CompositeIntermediateKey, order: Order, missing_order: MissingOrder) -> u8
    ensures { result ≡ null_rank order missing_order key.now }
{
    let first = match missing_order {
        MissingOrder::First => 0,
        MissingOrder::Last => 2,
        MissingOrder::Default => match order {
            Order::Asc => 0,
            Order::Desc => 2,
        },
    };
    match key {
        CompositeIntermediateKey::Null => first,
        _ => 1,
    }
}

fn compare_directed(
    left: &CompositeIntermediateKey,
    right: &CompositeIntermediateKey,
    order: Order,
) -> Ordering
    ensures { result ≡ directed order ascending_order left.now right.now }
{
    match order {
        Order::Asc => compare_ascending(left, right),
        Order::Desc => compare_ascending(right, left),
    }
}

fn compare_ascending(left: &CompositeIntermediateKey, right: &CompositeIntermediateKey) -> Ordering
    ensures { result ≡ ascending_order left.now right.now }
{
    class_place(left)
        .cmp(&class_place(right))
        .then_with(|| number_in(left).cmp(&number_in(right)))
        .then_with(|| address_in(left).cmp(&address_in(right)))
        .then_with(|| text_in(left).cmp(text_in(right)))
}

fn class_place(key: &CompositeIntermediateKey) -> u8
    ensures { result ≡ class_rank key.now }
{
    match key {
        CompositeIntermediateKey::Null => 0,
        CompositeIntermediateKey::Bool(_) => 1,
        CompositeIntermediateKey::Str(_) => 2,
        CompositeIntermediateKey::I64(_) | CompositeIntermediateKey::U64(_) => 3,
        CompositeIntermediateKey::IpAddr(_) => 4,
        CompositeIntermediateKey::DateTime(_) => 5,
    }
}

fn number_in(key: &CompositeIntermediateKey) -> i128
    ensures { result ≡ truth_or_number key.now }
{
    match key {
        CompositeIntermediateKey::Bool(b) => i128::from(*b),
        CompositeIntermediateKey::I64(n) | CompositeIntermediateKey::DateTime(n) => i128::from(*n),
        CompositeIntermediateKey::U64(n) => i128::from(*n),
        _ => 0,
    }
}

fn address_in(key: &CompositeIntermediateKey) -> u128
    ensures { result ≡ address_of key.now }
{
    match key {
        CompositeIntermediateKey::IpAddr(address) => address.0,
        _ => 0,
    }
}

fn text_in(key: &CompositeIntermediateKey) -> &str
    ensures { result.now ≡ text_of key.now }
{
    match key {
        CompositeIntermediateKey::Str(text) => text.as_str(),
        _ => "",
    }
}
