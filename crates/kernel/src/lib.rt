// The type checker: inference by a loop over frames, and the checking of declarations.
// The memory is fixed and lent by the caller: places, frames and types on the heap are numbers and words. What a turn asks of the machine holds
// between two turns alone, so it is a clause.

#![tactic(auto)]

mod agree;
mod argument;
mod back;
mod body;
mod check;
mod codomain;
mod domain;
mod down;
pub mod failure;
mod frames;
mod function;
mod infer;
mod leaf;
pub mod machine;
mod rested;
mod sorted;
mod turn;
