// A term written anew node by node.
ghost use Rattle.std.specs.Prelude.{ℕ, ◌-◌, ◌^◌, ◌≤◌, List, [], length};
ghost use Rattle.theory.specs.Terms.{Term};
ghost use Rattle.terms.specs.Words.{At, sign_words};
ghost use Rattle.terms.specs.Copying.{Writes};
ghost use Rattle.terms.specs.Rewriting.{HoldsEach, rewritten};

use crate::copy::WriteError;
use crate::number::{number_at, push_number};
use crate::sign::{Sign, push_sign, sign_at};

// What is put for the nodes of a term.
pub trait Rule {
    ghost use Rattle.terms.specs.declared.sign.Sign.{Sign};

    // Is u the term that the rule puts for a variable? Where it puts none, any term is.
    ghost argument: { Self → Term → Type 0 };

    // The words for a node under so many binders.
    ghost words: { Self → Term → ℕ → Sign → List ℕ };

    // What the rule asks of a node under so many binders.
    ghost fits: { Self → ℕ → Sign → Type 0 };

    // The words for a node under `depth` binders.
    fn put(
        &self,
        sign: Sign,
        depth: usize,
        out: &mut [u32],
        start: usize,
        stack: &mut [u32],
    ) -> Result<usize, WriteError>
        requires fits { fits self.now depth sign }
        requires order { start ≤ length out.old }
        ensures { (u : Term) → argument self.now u → Writes out.old start out.new (length stack.old) (words self.now u depth sign) result };
}

// The words of a node, if they fit. Always inlined, so that no answer passes through memory at each node.
#[inline(always)]
pub fn put_sign(sign: Sign, out: &mut [u32], start: usize) -> Result<usize, WriteError>
    requires { start ≤ length out.old }
    ensures { (stack : ℕ) → Writes out.old start out.new stack (sign_words sign) result }
{
    if out.len() - start < 3 {
        return Err(WriteError::NoRoom);
    }
    Ok(push_sign(out, start, sign))
}

// The term that stands there, under `depth` binders, with what the rule puts for its nodes.
// Each node's words are three at least. The stack has the depths of the second parts that wait, two words each,
// and below them what the rule needs.
pub fn rewrite<R: Rule>(
    rule: &R,
    from: &[u32],
    at: usize,
    depth: usize,
    out: &mut [u32],
    start: usize,
    stack: &mut [u32],
) -> Result<usize, WriteError>
    requires stands { HoldsEach (R.fits rule.now) depth from.now at }
    requires argument { (u : Term) × R.argument rule.now u }
    requires long { (u : Term) (d : ℕ) (x : Sign) → 3 ≤ length (R.words rule.now u d x) }
    requires order { start ≤ length out.old }
    requires shallow { depth ≤ 2 ^ 63 }
    ensures { (u : Term) (t : Term) (rest : List ℕ) → R.argument rule.now u → At from.now at t rest → Writes out.old start out.new (length stack.old) (rewritten (R.words rule.now u) depth t []) result }
{
    // A labelled loop with what waits on the stack: how many nodes come is known only as they are read.
    let mut place = at;
    let mut end = start;
    let mut free = stack.len();
    let mut binders = depth;
    'nodes: loop {
        let sign = sign_at(from, place);
        end = rule.put(sign, binders, out, end, &mut stack[0..free])?;
        place += 3;
        if sign.has_parts() {
            if free < 2 {
                return Err(WriteError::NoStack);
            }
            free = push_number(stack, free, sign.inner_depth(binders));
        } else {
            if free == stack.len() {
                return Ok(end);
            }
            binders = number_at(stack, free);
            free += 2;
        }
    }
}
