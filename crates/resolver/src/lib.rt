// Declarations as they are written turned into terms: names are resolved.
// The memory is fixed and lent by the caller: tree, table, frames and terms are words with places in them. That a place fits into a word is a clause
// on the tree's length, which the type of a slice does not say.

#![tactic(auto)]

pub mod declarations;
pub mod names;
pub mod nodes;
pub mod walk;
