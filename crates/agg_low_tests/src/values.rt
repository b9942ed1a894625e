//! Tests of keys, their order and their texts.
mod address;
mod after_key;
mod column;
mod composite_key;
mod given;
mod item_list;
mod key;
mod name_map;
mod number;
mod order;
mod order_target;
mod request_error;
mod sets;
mod text;
mod tuple;
mod typed_key;
