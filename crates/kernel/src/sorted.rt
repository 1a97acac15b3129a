// The level of a type. It takes the heap and the stack alone, as reduction does.
ghost use Rattle.std.specs.Prelude.{length};
ghost use Rattle.theory.specs.Terms.{Term};
ghost use Rattle.theory.specs.Environment.{Env};
ghost use Rattle.reduction.specs.Stepping.{Ready, Stands};
ghost use Rattle.kernel.specs.Environments.{PlainAt};
ghost use Rattle.kernel.specs.Reducing.{Sorts};

use crate::failure::Failure;
use crate::rested::reduce_halved;
use reduction::budget::Budget;
use reduction::reduce::{Aim, Reduced};
use reduction::store::Environment;

// The level of the first sort that the type comes to that stands from `at` to `end`.
pub fn to_level(
    env: Environment,
    heap: &mut [u32],
    at: usize,
    end: usize,
    stack: &mut [u32],
    most: u64,
) -> Result<u32, Failure>
    requires ready { Ready env.index.now env.store.now heap.old at end }
    ensures { (e : Env) (t : Term) → PlainAt env.entry.index.now env.entry.store.now e → Stands heap.old at t end → Sorts e most heap.old at (length stack.old) t heap.new result }
{
    let budget = Budget { taken: 0, most };
    match reduce_halved(env, heap, at, end, stack, Aim::ToSort, budget)? {
        Reduced::Reached(_, _) => Ok(heap[at + 1]),
        Reduced::Resting(_, _) => Err(Failure::Refused),
    }
}
