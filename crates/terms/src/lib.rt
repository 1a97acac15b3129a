// Terms kept in words: read, compared, copied, lifted, substituted.
// The memory is fixed and lent by the caller, so a term is a slice and a place, and what is written has its end beside it. A place is a
// number, since it is kept in words too and outlives what is lent; so that a term stands there, or that there is room, is a clause.

#![tactic(auto)]

pub mod copy;
pub mod lift;
pub mod number;
mod rewrite;
pub mod sign;
pub mod subst;
#[cfg(test)]
mod tests;
pub mod walk;
