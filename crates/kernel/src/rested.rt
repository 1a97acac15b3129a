// A type reduced where it stands, with a stack in two halves: towards an aim, and to its normal form.
ghost use Rattle.std.specs.Prelude.{◌≤◌, length};
ghost use Rattle.theory.specs.Terms.{Term};
ghost use Rattle.theory.specs.Environment.{Env};
ghost use Rattle.reduction.specs.Stepping.{Ready, Stands};
ghost use Rattle.kernel.specs.Environments.{PlainAt};
ghost use Rattle.kernel.specs.Reducing.{Halts};
ghost use Rattle.kernel.specs.Resting.{Rests};

use crate::failure::Limit;
use reduction::budget::Budget;
use reduction::reduce::{Aim, Reduced, reduce};
use reduction::store::Environment;

// Reduces the term that stands from `at` to `end` towards the aim, within the budget. It and those that call it take the heap and the
// stack alone, and not the machine: so its frames and its context stay as they are with no clause that says so.
pub fn reduce_halved(
    env: Environment,
    heap: &mut [u32],
    at: usize,
    end: usize,
    stack: &mut [u32],
    aim: Aim,
    budget: Budget,
) -> Result<Reduced, Limit>
    requires { Ready env.index.now env.store.now heap.old at end }
    ensures { (e : Env) (t : Term) → PlainAt env.entry.index.now env.entry.store.now e → Stands heap.old at t end → Halts e aim budget.taken budget.most heap.old at (length stack.old) t heap.new result }
{
    let half = stack.len() / 2;
    let (scratch, rest) = stack.split_at_mut(half);
    Ok(reduce(env, heap, at, end, scratch, rest, aim, budget)?)
}

// Where the normal form ends of the term that stands from `at` to `end`.
pub fn to_normal(
    env: Environment,
    heap: &mut [u32],
    at: usize,
    end: usize,
    stack: &mut [u32],
    budget: Budget,
) -> Result<usize, Limit>
    requires { Ready env.index.now env.store.now heap.old at end }
    ensures { (e : Env) (t : Term) → PlainAt env.entry.index.now env.entry.store.now e → Stands heap.old at t end → Rests e budget.taken budget.most heap.old at (length stack.old) t heap.new result }
{
    match reduce_halved(env, heap, at, end, stack, Aim::ToNormal, budget)? {
        Reduced::Reached(_, end) | Reduced::Resting(_, end) => Ok(end),
    }
}
