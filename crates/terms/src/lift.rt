// Terms under more binders.
ghost use Rattle.std.specs.Prelude.{◌≡◌, ℕ, ◌+◌, ◌-◌, ◌^◌, ◌<◌, ◌≤◌, List, length};
ghost use Rattle.theory.specs.Terms.{Term, lift as lift_term};
ghost use Rattle.terms.specs.Words.{At, HoldsSmall, SmallSign, lift_sign, sign_words};
ghost use Rattle.terms.specs.Copying.{Copies};

use crate::copy::WriteError;
use crate::rewrite::{Rule, put_sign, rewrite};
use crate::sign::{Index, Sign};

// The node of a lifted term.
fn lifted(sign: Sign, cut: usize, by: usize) -> Sign
    requires { SmallSign (2 ^ 64 - by) sign }
    ensures { result ≡ lift_sign cut by sign }
{
    match sign {
        Sign::Var(Index(x)) if x < cut => sign,
        Sign::Var(Index(x)) => Sign::Var(Index(x + by)),
        _ => sign,
    }
}

// `by` added to the indices.
#[derive(Drop)]
struct Lifting {
    by: usize,
}

impl Rule for Lifting {
    ghost argument = { λ s u. Unit };

    ghost words = { λ s u d x. sign_words (lift_sign d s.by x) };

    ghost fits = { λ s d x. SmallSign (2 ^ 64 - s.by) x };

    fn put(
        &self,
        sign: Sign,
        depth: usize,
        out: &mut [u32],
        start: usize,
        _stack: &mut [u32],
    ) -> Result<usize, WriteError> {
        put_sign(lifted(sign, depth, self.by), out, start)
    }
}

// The term that stands there with `by` added to its indices from `cut` on.
// The stack has the depths of the second parts that wait, two words each.
pub fn lift(
    from: &[u32],
    at: usize,
    cut: usize,
    by: usize,
    out: &mut [u32],
    start: usize,
    stack: &mut [u32],
) -> Result<usize, WriteError>
    requires stands { HoldsSmall (2 ^ 64 - by) from.now at }
    requires order { start ≤ length out.old }
    requires shallow { cut ≤ 2 ^ 63 }
    ensures { (t : Term) (rest : List ℕ) → At from.now at t rest → Copies out.old start out.new (length stack.old) (lift_term cut by t) result }
{
    rewrite(&Lifting { by }, from, at, cut, out, start, stack)
}
