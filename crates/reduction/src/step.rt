// One normal-order step in place.
ghost use Rattle.std.specs.Prelude.{◌≡◌, ℕ, ◌+◌, ◌*◌, ◌<◌, ◌≤◌, List, [], ◌++◌, length, take, drop};
ghost use Rattle.theory.specs.Terms.{Term, size};
ghost use Rattle.theory.specs.Environment.{Env};
ghost use Rattle.terms.specs.Words.{At};
ghost use Rattle.reduction.specs.Store.{EnvAt};
ghost use Rattle.reduction.specs.Stepping.{Stands, Ready, HasStep, StepsTo, Replaceable, Replaces, step_error};

use crate::find::find;
use crate::make::contract_into;
use crate::store::Environment;
use terms::copy::{WriteError, copy_words};
use terms::walk::end_of;

// Why there is no step: there is no room; the stack is too short; the redex is a recursor's, which is not coded yet.
#[derive(Clone, Copy, Debug, PartialEq, Eq)]
pub enum StepError {
    NoRoom,
    NoStack,
    NotYet,
}

impl From<WriteError> for StepError {
    ghost from_gives = { λ e x. x ≡ step_error e };

    fn from(e: WriteError) -> StepError {
        match e {
            WriteError::NoRoom => StepError::NoRoom,
            WriteError::NoStack => StepError::NoStack,
        }
    }
}

// The heap, `at` and `end` stay apart here and above, with `Ready` as a clause: a ghost field beside a `&mut` slice gets no generated proof.
// Has the term that stands from `at` to `end` a normal-order step? Nothing is written. None: the stack is too short to find out.
pub fn has_step(
    env: Environment,
    heap: &[u32],
    at: usize,
    end: usize,
    stack: &mut [u32],
) -> Option<bool>
    requires { Ready env.index.now env.store.now heap.now at end }
    ensures { (e : Env) (t : Term) → EnvAt env.entry.index.now env.entry.store.now e → Stands heap.now at t end → HasStep e (length stack.old) t result }
{
    if stack.len() < end - at {
        return None;
    }
    Some(find(env, heap, at, stack).is_some())
}

// The first `made` words of the scratch words in place of the term at `at`; what stands behind it up to `end` moves along.
fn replace(
    heap: &mut [u32],
    at: usize,
    end: usize,
    scratch: &mut [u32],
    made: usize,
) -> Option<usize>
    requires { Replaceable heap.old at end scratch.old made }
    ensures { (t : Term) (rest : List ℕ) → At heap.old at t rest → Replaces heap.old at (length scratch.old) (take made scratch.old ++ drop (at + 3 * size t) (take end heap.old)) heap.new result }
{
    let behind = end_of(heap, at);
    if scratch.len() - made < end - behind {
        return None;
    }
    let stop = copy_words(heap, behind, end, scratch, made);
    if heap.len() - at < stop {
        return None;
    }
    Some(copy_words(scratch, 0, stop, heap, at))
}

// One normal-order step of the term that stands from `at` to `end`: where it ends then; or it has none.
pub fn step(
    env: Environment,
    heap: &mut [u32],
    at: usize,
    end: usize,
    scratch: &mut [u32],
    stack: &mut [u32],
) -> Result<Option<usize>, StepError>
    requires { Ready env.index.now env.store.now heap.old at end }
    ensures { (e : Env) (t : Term) → EnvAt env.entry.index.now env.entry.store.now e → Stands heap.old at t end → StepsTo e heap.old at (length scratch.old) (length stack.old) t heap.new result }
{
    if stack.len() < end - at {
        return Err(StepError::NoStack);
    }
    let Some(place) = find(env, &heap[at..end], 0, stack) else {
        return Ok(None);
    };
    let made = contract_into(env, &heap[at..end], place, scratch, stack)?;
    let stop = replace(heap, at + place, end, scratch, made).ok_or(StepError::NoRoom)?;
    Ok(Some(stop))
}
