//! What holds of orders of buckets.
ghost use Rattle.std.specs.Prelude.{◌≡◌};
ghost use Rattle.agg_values.specs.Laws.{IsSameness};
ghost use Rattle.agg_values.specs.declared.order.Order.TheVariants.{Desc};
ghost use Rattle.agg_values.specs.declared.order_target.OrderTarget.TheVariants.{Count};
ghost use Rattle.agg_request.specs.declared.reading.custom_order.CustomOrder.{
  CustomOrder as Declared,
};

use crate::reading::CustomOrder;

/// Equality of orders of buckets goes by target and direction.
pub fn order_equality_is_sameness()
    ensures { IsSameness ⟦<CustomOrder as PartialEq>⟧.eq }
{}

/// Buckets go by their counts, descending, where nothing else is said.
pub fn the_default_order()
    ensures { (order : Declared) → ⟦<CustomOrder as Default>⟧.is_default order
        → order ≡ record { target = Count; order = Desc } }
{}
