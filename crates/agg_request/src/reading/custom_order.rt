//! What buckets are ordered by, and its JSON.
ghost use Rattle.std.specs.Prelude.{◌≡◌, IfOk};
ghost use Rattle.serde_json.specs.Data.{string};
ghost use Rattle.serde_json.specs.View.{view};
ghost use Rattle.agg_values.specs.OrderTarget.{target_of};
ghost use Rattle.agg_request.specs.reading.CompositeJson.{order_word};
ghost use Rattle.agg_request.specs.reading.OrderJson.{IsOrderJson, IsPair, data_of_order};
ghost use Rattle.agg_request.specs.reading.OrderJson.{read_back};
ghost use Rattle.agg_request.specs.json_values.Reading.{IsReading};

use crate::json_values::ReadError;
use crate::json_values::json_value::{only_item, only_member};
use crate::reading::composite::order_of;
use agg_values::{Order, OrderTarget, OutOfMemory, Text};
use serde_json::{Map, Value};
use std::alloc::Global;

/// What buckets are ordered by, and in which direction: by their counts, descending, where nothing
/// else is said.
#[derive(Drop, PartialEq, Eq, Default)]
pub struct CustomOrder {
    pub target: OrderTarget,
    pub order: Order,
}

impl CustomOrder {
    /// The order that a value says: an object of one pair, a target with `asc` or `desc`, or an
    /// array of one such object.
    pub fn read(alloc: Global, value: &Value) -> Result<CustomOrder, ReadError>
        ensures { IsReading (λ lenient. IsOrderJson (view value.now)) ⊥ result }
    {
        match only_item(value) {
            Some(item) => read_pair(alloc, item),
            None => read_pair(alloc, value),
        }
    }

    /// The object of one pair that says it. Read, it is the same order, but for a sub-aggregation
    /// of the name `_key` or `_count`, which reads as the key or the count.
    pub fn write(&self, alloc: Global) -> Result<Value, OutOfMemory>
        ensures written { IfOk result (λ value. view value ≡ data_of_order self.now) }
        ensures back { IfOk result (λ value. IsOrderJson (view value) (read_back self.now)) }
    {
        let mut pair = Map::new(alloc);
        pair.insert(self.target.to_string(alloc)?, word(alloc, self.order)?)?;
        Ok(Value::from(pair))
    }
}

// The order of a pair.
fn read_pair(alloc: Global, value: &Value) -> Result<CustomOrder, ReadError>
    ensures { IsReading (λ lenient. IsPair (view value.now)) ⊥ result }
{
    let Some((name, found)) = only_member(value) else {
        return Err(ReadError::Grammar);
    };
    let Some(word) = found.as_str() else {
        return Err(ReadError::Grammar);
    };
    let Some(order) = order_of(word) else {
        return Err(ReadError::Grammar);
    };
    let target = read_target(alloc, name)?;
    Ok(CustomOrder { target, order })
}

// The target of a text.
fn read_target(alloc: Global, name: &str) -> Result<OrderTarget, OutOfMemory>
    ensures { IfOk result (λ target. target ≡ target_of name.now) }
{
    Ok(OrderTarget::from_text(Text::copy_of(alloc, name)?))
}

// The word for an order.
fn word(alloc: Global, order: Order) -> Result<Value, OutOfMemory>
    ensures { IfOk result (λ value. view value ≡ string (order_word order)) }
{
    let word = match order {
        Order::Asc => "asc",
        Order::Desc => "desc",
    };
    Ok(Value::from(String::from_str(alloc, word)?))
}
