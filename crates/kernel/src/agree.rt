// Are two types convertible? First as they stand, then by their normal forms. Both take the heap and the stack alone, as reduction does.
ghost use Rattle.std.specs.Prelude.{ℕ, ◌+◌, ◌*◌, ◌≤◌, List, length};
ghost use Rattle.theory.specs.Terms.{Term, size};
ghost use Rattle.theory.specs.Environment.{Env};
ghost use Rattle.terms.specs.Words.{At, Holds};
ghost use Rattle.reduction.specs.Stepping.{Stands};
ghost use Rattle.kernel.specs.Environments.{PlainAt};
ghost use Rattle.kernel.specs.Resting.{Above, Comparable, Reducible, Agrees, AgreesNormal};

use crate::failure::Limit;
use crate::rested::to_normal;
use reduction::budget::Budget;
use reduction::store::Environment;
use terms::copy::{copy_term, copy_words};
use terms::walk::equal;

// Copies the term that stands at a place of the heap to `end`, by way of the stack.
fn copy_above(heap: &mut [u32], at: usize, end: usize, stack: &mut [u32]) -> Option<usize>
    requires stands { Holds heap.old at }
    requires order { end ≤ length heap.old }
    ensures { (a : Term) (rest : List ℕ) → At heap.old at a rest → Above heap.old end (length stack.old) a heap.new result }
{
    let count = copy_term(heap, at, stack, 0)?;
    if heap.len() - end < count {
        return None;
    }
    Some(copy_words(stack, 0, count, heap, end))
}

// Compares the normal form that stands from `top` to `end` with that of the term at `domain`; the budget is for that one.
fn agree_normal(
    env: Environment,
    heap: &mut [u32],
    domain: usize,
    top: usize,
    end: usize,
    stack: &mut [u32],
    budget: Budget,
) -> Result<bool, Limit>
    requires { Comparable env.index.now env.store.now heap.old domain top end }
    ensures { (e : Env) (a c : Term) (rest : List ℕ) → PlainAt env.entry.index.now env.entry.store.now e → At heap.old domain a rest → domain + 3 * size a ≤ top → Stands heap.old top c end
        → AgreesNormal e budget.taken budget.most heap.old top (length stack.old) a c heap.new result }
{
    let last = copy_above(heap, domain, end, stack).ok_or(Limit::NoRoom)?;
    to_normal(env, heap, end, last, stack, budget)?;
    Ok(equal(heap, top, heap, end))
}

// Compares the type that stands from `top` to `end` with the term at `domain`; the budget is for that one.
pub fn agree(
    env: Environment,
    heap: &mut [u32],
    domain: usize,
    top: usize,
    end: usize,
    stack: &mut [u32],
    budget: Budget,
) -> Result<bool, Limit>
    requires { Reducible env.index.now env.store.now heap.old domain top end }
    ensures { (e : Env) (a c : Term) (rest : List ℕ) → PlainAt env.entry.index.now env.entry.store.now e → At heap.old domain a rest → domain + 3 * size a ≤ top → Stands heap.old top c end
        → Agrees e budget.taken budget.most heap.old top (length stack.old) a c heap.new result }
{
    if equal(heap, domain, heap, top) {
        return Ok(true);
    }
    let fresh = Budget {
        taken: 0,
        most: budget.most,
    };
    let stop = to_normal(env, heap, top, end, stack, fresh)?;
    agree_normal(env, heap, domain, top, stop, stack, budget)
}
