// An entry given to the kernel, with the words that are left to work in. Its parameters meet here alone, so they are no struct.
ghost use Rattle.std.specs.Prelude.{ℕ, length};
ghost use Rattle.theory.specs.Environment.{Entry, Env};
ghost use Rattle.judge.specs.Judging.{Entering, Enters, Settles};

use kernel::failure::Failure;
use kernel::machine::Machine;
use reduction::store::Environment;

// What is found of the entry of so many nodes whose type stands in the store at `at`, and its body, if it has one, at `body`. The words to work in are
// divided: two a node for the context, seven for the frames, and one half each of the rest for the heap and the stack.
pub fn settle(
    env: Environment,
    at: usize,
    body: Option<usize>,
    nodes: usize,
    work: &mut [u32],
    most: u64,
) -> Result<(), Failure>
    requires { Enters env.index.now env.store.now at body nodes }
    ensures { (e : Env) (c : Entry) → Entering env.entry.index.now env.entry.store.now at body nodes e c → Settles e c most (length work.old) result }
{
    if work.len() < 9 * nodes {
        return Err(Failure::NoRoom);
    }
    let (context, rest) = work.split_at_mut(2 * nodes);
    let (frames, free) = rest.split_at_mut(7 * nodes);
    let half = free.len() / 2;
    let (heap, stack) = free.split_at_mut(half);
    let mut machine = Machine {
        env,
        terms: env.store,
        context,
        frames,
        heap,
        stack,
        most,
    };
    match body {
        Some(place) => machine.check_definition(at, place),
        None => machine.check_axiom(at),
    }
}
