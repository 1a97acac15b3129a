// Reduction of terms in words: the environment's store, the normal-order step in place, reducing towards an aim.
// The memory is fixed and lent by the caller: heap, scratch words and stack are slices.

#![tactic(auto)]

pub mod budget;
pub mod declare;
mod find;
mod make;
pub mod reduce;
mod spine;
pub mod step;
pub mod store;
