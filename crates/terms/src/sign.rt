// The node at a place of the words.
ghost use Rattle.std.specs.Prelude.{◌≡◌, ℕ, ◌+◌, ◌^◌, ◌<◌, ◌≤◌, List, [], ◌∷◌, length};
ghost use Rattle.theory.specs.Terms.{Term};
ghost use Rattle.terms.specs.Words.{At, Holds, root, sign_words, sign_of, has_parts, under};
ghost use Rattle.terms.specs.Writing.{Appends};

use crate::number::{number_of, put_number};

// A de Bruijn index.
#[derive(Clone, Copy, Debug, PartialEq, Eq)]
pub struct Index(pub usize);

// The level of a sort.
#[derive(Clone, Copy, Debug, PartialEq, Eq)]
pub struct Level(pub u32);

// A node: with two parts (Pi, Lam, App), a variable, a sort, or a head with its numbers.
#[derive(Clone, Copy, Debug, PartialEq, Eq)]
pub enum Sign {
    Pi,
    Lam,
    App,
    Var(Index),
    Sort(Level),
    Def(u32),
    Data(u32),
    Con(u32, u32),
    Rec(u32, u32),
    Eq(u32),
    Refl(u32),
    Along(u32, u32),
}

// The node that three words say. The numbers of the words become nodes here alone, and nodes numbers in `push_sign` alone.
fn decode(tag: u32, low: u32, high: u32) -> Sign
    ensures { result ≡ sign_of tag low high }
{
    match tag {
        0 => Sign::Pi,
        1 => Sign::Lam,
        2 => Sign::App,
        3 => Sign::Var(Index(number_of(low, high))),
        4 => Sign::Sort(Level(low)),
        5 => Sign::Def(low),
        6 => Sign::Data(low),
        7 => Sign::Con(low, high),
        8 => Sign::Rec(low, high),
        9 => Sign::Eq(low),
        10 => Sign::Refl(low),
        _ => Sign::Along(low, high),
    }
}

// The root of the term that stands there.
pub fn sign_at(words: &[u32], at: usize) -> Sign
    requires { Holds words.now at }
    ensures { (t : Term) (rest : List ℕ) → At words.now at t rest → result ≡ root t }
{
    decode(words[at], words[at + 1], words[at + 2])
}

// Three words.
fn push_three(out: &mut [u32], at: usize, tag: u32, low: u32, high: u32) -> usize
    requires { at + 3 ≤ length out.old }
    ensures { Appends out.old at (tag ∷ low ∷ high ∷ []) out.new result }
{
    out[at..at + 3].copy_from_slice(&[tag, low, high]);
    at + 3
}

// A variable, its index in two words.
fn push_index(out: &mut [u32], at: usize, index: Index) -> usize
    requires { at + 3 ≤ length out.old }
    ensures { Appends out.old at (sign_words (Sign.Var index)) out.new result }
{
    out[at] = 3;
    put_number(out, at + 1, index.0)
}

// The words of a node.
pub fn push_sign(out: &mut [u32], at: usize, sign: Sign) -> usize
    requires { at + 3 ≤ length out.old }
    ensures { Appends out.old at (sign_words sign) out.new result }
{
    match sign {
        Sign::Pi => push_three(out, at, 0, 0, 0),
        Sign::Lam => push_three(out, at, 1, 0, 0),
        Sign::App => push_three(out, at, 2, 0, 0),
        Sign::Var(index) => push_index(out, at, index),
        Sign::Sort(level) => push_three(out, at, 4, level.0, 0),
        Sign::Def(i) => push_three(out, at, 5, i, 0),
        Sign::Data(i) => push_three(out, at, 6, i, 0),
        Sign::Con(i, k) => push_three(out, at, 7, i, k),
        Sign::Rec(i, j) => push_three(out, at, 8, i, j),
        Sign::Eq(i) => push_three(out, at, 9, i, 0),
        Sign::Refl(i) => push_three(out, at, 10, i, 0),
        Sign::Along(i, j) => push_three(out, at, 11, i, j),
    }
}

impl Sign {
    // Has the node parts?
    pub fn has_parts(self) -> bool
        ensures { result ≡ has_parts self }
    {
        matches!(self, Sign::Pi | Sign::Lam | Sign::App)
    }

    // The number of binders around the node's second part, if there are `depth` around the node.
    pub fn inner_depth(self, depth: usize) -> usize
        requires { depth + 1 < 2 ^ 64 }
        ensures { result ≡ under self depth }
    {
        match self {
            Sign::Pi | Sign::Lam => depth + 1,
            _ => depth,
        }
    }
}
