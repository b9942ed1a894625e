ghost use Rattle.std.specs.Prelude.{◌≡◌, Some, ◌≢◌, ⊤};
ghost use Rattle.std.specs.Cmp.{IsTotalOrder};
ghost use Rattle.std.specs.declared.cmp.Ordering.TheVariants.{Less, Greater};
ghost use Rattle.std.specs.Ordering.{nat_cmp};
ghost use Rattle.agg_values.specs.Column.{class_of, class_rank};
ghost use Rattle.agg_values.specs.declared.column.ColumnPaginationOrder.{ColumnPaginationOrder};
ghost use Rattle.agg_values.specs.TypedKey.{IsCanonical};
ghost use Rattle.agg_values.specs.KeyOrder.{SourceRules, key_order, tuple_order};
ghost use Rattle.agg_values.specs.Laws.{IsExactOn, IsReverseOn, IsCanonicalTuple, IsSameness};
ghost use Rattle.agg_values.specs.TypedKey.{CompositeIntermediateKey};
ghost use Rattle.agg_values.specs.TypedKey.key.{Null};
ghost use Rattle.agg_values.specs.declared.order.Order.{Order};
ghost use Rattle.agg_values.specs.declared.order.Order.TheVariants.{Asc, Desc};
ghost use Rattle.agg_values.specs.declared.order.MissingOrder.{MissingOrder};
ghost use Rattle.agg_values.specs.declared.order_target.OrderTarget.{OrderTarget};
ghost use Rattle.agg_values.specs.declared.order.MissingOrder.TheVariants.{Default, First, Last};

use crate::{
    Address, AfterKey, AggregationError, ColumnPaginationOrder, CompositeIntermediateKey,
    CompositeKey, DateHistogramParseError, IntermediateKey, InvalidArgument, Key, KeyTextError,
    MissingOrder, Order, OrderTarget, OutOfMemory, ProjectedNumber, RequestError, Text, TooMany,
    Tuple,
};

/// The order of keys is total, for each order and missing order.
pub fn key_order_is_total()
    ensures { (order : Order) (missing : MissingOrder) → IsTotalOrder (key_order order missing) }
{}

/// On canonical keys Equal is answered only for the same key.
pub fn key_order_is_exact()
    ensures { (order : Order) (missing : MissingOrder)
        → IsExactOn IsCanonical (key_order order missing) }
{}

/// `Desc` is the reverse of `Asc`, but for the place of Null, which `First` and `Last` fix.
pub fn desc_reverses_asc()
    ensures values { (missing : MissingOrder)
        → IsReverseOn (λ key. key ≢ Null) (key_order Desc missing) (key_order Asc missing) }
    ensures by_default { IsReverseOn (λ key. ⊤) (key_order Desc Default) (key_order Asc Default) }
    ensures first { (order : Order) (key : CompositeIntermediateKey)
        → (key ≢ Null) → key_order order First Null key ≡ Less }
    ensures last { (order : Order) (key : CompositeIntermediateKey)
        → (key ≢ Null) → key_order order Last Null key ≡ Greater }
    ensures first_in_asc { (key : CompositeIntermediateKey)
        → (key ≢ Null) → key_order Asc Default Null key ≡ Less }
    ensures last_in_desc { (key : CompositeIntermediateKey)
        → (key ≢ Null) → key_order Desc Default Null key ≡ Greater }
{}

/// The order of tuples is total, for each list of orders and missing orders.
pub fn tuple_order_is_total()
    ensures { (rules : SourceRules) → IsTotalOrder (tuple_order rules) }
{}

/// On tuples of canonical keys, one for each source, Equal is answered only for the same tuple.
pub fn tuple_order_is_exact()
    ensures { (rules : SourceRules) → IsExactOn (IsCanonicalTuple rules) (tuple_order rules) }
{}

/// Equality goes by variant and content.
pub fn equality_is_sameness()
    ensures texts { IsSameness ⟦<Text as PartialEq>⟧.eq }
    ensures addresses { IsSameness ⟦<Address as PartialEq>⟧.eq }
    ensures keys { IsSameness ⟦<CompositeIntermediateKey as PartialEq>⟧.eq }
    ensures tuples { IsSameness ⟦<Tuple as PartialEq>⟧.eq }
    ensures after_keys { IsSameness ⟦<AfterKey as PartialEq>⟧.eq }
    ensures shown_keys { IsSameness ⟦<CompositeKey as PartialEq>⟧.eq }
    ensures bucket_keys { IsSameness ⟦<Key as PartialEq>⟧.eq }
    ensures intermediate_keys { IsSameness ⟦<IntermediateKey as PartialEq>⟧.eq }
    ensures orders { IsSameness ⟦<Order as PartialEq>⟧.eq }
    ensures missing_orders { IsSameness ⟦<MissingOrder as PartialEq>⟧.eq }
    ensures classes { IsSameness ⟦<ColumnPaginationOrder as PartialEq>⟧.eq }
    ensures order_targets { IsSameness ⟦<OrderTarget as PartialEq>⟧.eq }
    ensures wants_of_memory { IsSameness ⟦<OutOfMemory as PartialEq>⟧.eq }
    ensures overflows { IsSameness ⟦<TooMany as PartialEq>⟧.eq }
    ensures key_text_errors { IsSameness ⟦<KeyTextError as PartialEq>⟧.eq }
    ensures invalid_arguments { IsSameness ⟦<InvalidArgument as PartialEq>⟧.eq }
    ensures date_histogram_parse_errors { IsSameness ⟦<DateHistogramParseError as PartialEq>⟧.eq }
    ensures aggregation_errors { IsSameness ⟦<AggregationError as PartialEq>⟧.eq }
    ensures request_errors { IsSameness ⟦<RequestError as PartialEq>⟧.eq }
{}

/// Projected numbers are equal by variant and number, where their numbers are by themselves.
pub fn projected_equality_is_sameness<T: PartialEq>()
    requires { IsSameness T.eq }
    ensures { IsSameness ⟦<ProjectedNumber<T> as PartialEq>⟧.eq }
{}

/// The direction is descending, the place of Null follows it, and buckets go by their count, where
/// nothing else is said.
pub fn the_defaults()
    ensures order { (order : Order)
        → ⟦<Order as Default>⟧.is_default order → order ≡ Desc }
    ensures missing_order { (missing : MissingOrder)
        → ⟦<MissingOrder as Default>⟧.is_default missing → missing ≡ Default }
    ensures order_target { (target : OrderTarget)
        → ⟦<OrderTarget as Default>⟧.is_default target → target ≡ OrderTarget.Count }
{}

/// The classes ascend as the keys of different classes do.
pub fn classes_ascend_as_keys()
    ensures { (key other : CompositeIntermediateKey) (class next : ColumnPaginationOrder)
        → class_of key ≡ Some class → class_of other ≡ Some next
        → ⟦<ColumnPaginationOrder as Ord>⟧.cmp class next
        ≡ nat_cmp (class_rank key) (class_rank other) }
{}
