//! Maps that know their greatest key: a hash map, and a heap of the same keys.
#![tactic(auto)]

mod dyn_array_heap_map;
mod heap_map;
mod heap_map_iter;
mod lazy_heap_map;
mod look_up;
mod map_and_heap;
mod vec_key;

pub use dyn_array_heap_map::DynArrayHeapMap;
pub use heap_map::HeapMap;
pub use heap_map_iter::HeapMapIter;
pub use lazy_heap_map::LazyHeapMap;
