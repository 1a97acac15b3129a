// Reduction towards an aim with a number of steps.
ghost use Rattle.std.specs.Prelude.{◌≡◌, ℕ, ◌+◌, ◌*◌, ◌<◌, ◌≤◌, List, ◌++◌, length};
ghost use Rattle.theory.specs.Terms.{Term};
ghost use Rattle.theory.specs.Environment.{Env};
ghost use Rattle.terms.specs.Words.{put};
ghost use Rattle.reduction.specs.Store.{EnvAt};
ghost use Rattle.reduction.specs.Stepping.{Stands, Ready, Findable};
ghost use Rattle.reduction.specs.Aims.{Reduces, Met, domain_rests_lem, resting, reduce_error};

use crate::budget::Budget;
use crate::find::find;
use crate::step::{StepError, has_step, step};
use crate::store::Environment;
use terms::sign::{Sign, sign_at};

// Until the term is normal; is the first function type, the first sort; until the domain of the first function type is normal.
// An enum and no closure, since callers' contracts and the specs name the aims.
#[derive(Clone, Copy, Debug, PartialEq, Eq)]
pub enum Aim {
    ToNormal,
    ToPi,
    ToSort,
    ToDomain,
}

// The aim is reached, or the term is normal and not of the aim's form; with the number of steps and the term's end.
#[derive(Clone, Copy, Debug, PartialEq, Eq)]
pub enum Reduced {
    Reached(u64, usize),
    Resting(u64, usize),
}

// Why neither was found: more steps are needed than allowed; there is no room; a recursor's step comes, which is not coded yet.
#[derive(Clone, Copy, Debug, PartialEq, Eq)]
pub enum ReduceError {
    UsedUp,
    NoRoom,
    NotYet,
}

impl From<StepError> for ReduceError {
    ghost from_gives = { λ e x. x ≡ reduce_error e };

    fn from(e: StepError) -> ReduceError {
        match e {
            StepError::NoRoom | StepError::NoStack => ReduceError::NoRoom,
            StepError::NotYet => ReduceError::NotYet,
        }
    }
}

// Is the term that stands there a function type whose domain is normal?
fn domain_rests(env: Environment, heap: &[u32], at: usize, stack: &mut [u32]) -> bool
    requires { Findable env.index.now env.store.now heap.now at (length stack.old) }
    ensures { (e : Env) (front rest : List ℕ) (t : Term) → EnvAt env.entry.index.now env.entry.store.now e → heap.now ≡ front ++ put t rest → length front ≡ at → result ≡ domain_rests_lem e t }
{
    match sign_at(heap, at) {
        Sign::Pi => find(env, heap, at + 3, stack).is_none(),
        _ => false,
    }
}

// Is the term that stands there of the aim's form? For the normal form nothing is tested, since the step says whether there is one.
fn met(env: Environment, heap: &[u32], at: usize, stack: &mut [u32], aim: Aim) -> bool
    requires { Findable env.index.now env.store.now heap.now at (length stack.old) }
    ensures { (e : Env) (front rest : List ℕ) (t : Term) → EnvAt env.entry.index.now env.entry.store.now e → heap.now ≡ front ++ put t rest → length front ≡ at → Met e aim t result }
{
    match aim {
        Aim::ToNormal => false,
        Aim::ToPi => matches!(sign_at(heap, at), Sign::Pi),
        Aim::ToSort => matches!(sign_at(heap, at), Sign::Sort(_)),
        Aim::ToDomain => domain_rests(env, heap, at, stack),
    }
}

// The answer for a normal term, which was not of the aim's form when that was tested.
fn at_rest(aim: Aim, steps: u64, end: usize) -> Reduced
    ensures { result ≡ resting aim steps end }
{
    match aim {
        Aim::ToNormal => Reduced::Reached(steps, end),
        _ => Reduced::Resting(steps, end),
    }
}

// The words are lent apart, as those of a step are. Reduces the term that stands from `at` to `end` in place, in normal order, until it is of the aim's form or normal. The steps taken are
// counted on from those of the budget, up to its most.
pub fn reduce(
    env: Environment,
    heap: &mut [u32],
    at: usize,
    end: usize,
    scratch: &mut [u32],
    stack: &mut [u32],
    aim: Aim,
    budget: Budget,
) -> Result<Reduced, ReduceError>
    requires { Ready env.index.now env.store.now heap.old at end }
    ensures { (e : Env) (t : Term) → EnvAt env.entry.index.now env.entry.store.now e → Stands heap.old at t end → Reduces e aim budget.taken budget.most heap.old at (length scratch.old) (length stack.old) t heap.new result }
{
    let mut stop = end;
    let mut steps = budget.taken;
    // A labelled loop, left where the number of steps is used up.
    'steps: loop {
        if stack.len() < stop - at {
            return Err(ReduceError::NoRoom);
        }
        if met(env, heap, at, stack, aim) {
            return Ok(Reduced::Reached(steps, stop));
        }
        if steps == budget.most {
            break 'steps;
        }
        let Some(next) = step(env, heap, at, stop, scratch, stack)? else {
            return Ok(at_rest(aim, steps, stop));
        };
        stop = next;
        steps += 1;
    }
    let more = has_step(env, heap, at, stop, stack).ok_or(ReduceError::NoRoom)?;
    if more {
        return Err(ReduceError::UsedUp);
    }
    Ok(at_rest(aim, steps, stop))
}
