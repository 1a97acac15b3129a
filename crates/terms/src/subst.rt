// A term put for an index.
ghost use Rattle.std.specs.Prelude.{◌≡◌, ℕ, ◌-◌, ◌^◌, ◌≤◌, List, length};
ghost use Rattle.theory.specs.Terms.{Term, subst as subst_term};
ghost use Rattle.terms.specs.Words.{At, Holds, HoldsSmall, subst_sign, subst_words};
ghost use Rattle.terms.specs.Copying.{Copies};

use crate::copy::WriteError;
use crate::lift::lift;
use crate::rewrite::{Rule, put_sign, rewrite};
use crate::sign::{Index, Sign};

// The node with a larger index one smaller, since the binder of `depth` is gone.
fn lowered(sign: Sign, depth: usize) -> Sign
    ensures { result ≡ subst_sign depth sign }
{
    match sign {
        Sign::Var(Index(x)) if depth < x => Sign::Var(Index(x - 1)),
        _ => sign,
    }
}

// The argument put for a variable.
#[derive(Drop)]
struct Substituting<'a> {
    arg: &'a [u32],
    arg_at: usize,
}

impl Rule for Substituting<'_> {
    ghost argument = { λ s u. (rest : List ℕ) × At s.arg.now s.arg_at u rest };

    ghost words = { λ s u d x. subst_words d u x };

    ghost fits = { λ s d x. HoldsSmall (2 ^ 64 - d) s.arg.now s.arg_at };

    fn put(
        &self,
        sign: Sign,
        depth: usize,
        out: &mut [u32],
        start: usize,
        stack: &mut [u32],
    ) -> Result<usize, WriteError> {
        if sign == Sign::Var(Index(depth)) {
            return lift(self.arg, self.arg_at, 0, depth, out, start, stack);
        }
        put_sign(lowered(sign, depth), out, start)
    }
}

// The body that stands there with the argument put for the variable `index`.
// The stack has the depths of the second parts that wait, two words each, and below them what lifting the argument needs.
pub fn subst(
    body: &[u32],
    at: usize,
    index: usize,
    arg: &[u32],
    arg_at: usize,
    out: &mut [u32],
    start: usize,
    stack: &mut [u32],
) -> Result<usize, WriteError>
    requires stands { Holds body.now at }
    requires argument { HoldsSmall (2 ^ 63) arg.now arg_at }
    requires order { start ≤ length out.old }
    requires shallow { index ≤ 2 ^ 61 }
    ensures { (t u : Term) (x y : List ℕ) → At body.now at t x → At arg.now arg_at u y → Copies out.old start out.new (length stack.old) (subst_term index u t) result }
{
    let rule = Substituting { arg, arg_at };
    rewrite(&rule, body, at, index, out, start, stack)
}
