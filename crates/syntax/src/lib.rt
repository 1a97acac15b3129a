// The text format: tokens, and the declarations that they say.
// The memory is fixed and lent by the caller: the tree and the notes of names are words.

#![tactic(auto)]

mod atoms;
pub mod compare;
mod data;
mod declarations;
pub mod lexer;
mod limits;
pub mod locate;
pub mod parse;
pub mod problem;
mod reading;
pub mod scan;
pub mod tag;
mod terms;
mod write;

ghost use Rattle.syntax.specs.Grammar.{OneReading};

// A text is at most one row of declarations. A function for a theorem, as in crate theory.
pub fn one_reading_stands() -> u8
    ensures { OneReading }
{
    0
}
