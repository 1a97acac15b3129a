// The place of the normal-order step, found in one pass from left to right.
ghost use Rattle.std.specs.Prelude.{◌≡◌, ℕ, ◌+◌, ◌*◌, ◌<◌, ◌≤◌, List, ◌++◌, length, drop};
ghost use Rattle.theory.specs.Terms.{Term};
ghost use Rattle.theory.specs.Environment.{Env};
ghost use Rattle.terms.specs.Words.{put};
ghost use Rattle.reduction.specs.Store.{EnvAt};
ghost use Rattle.reduction.specs.Stepping.{frame, mark_of, kind_of, FramePushed, IsFrame, Findable, FindsStep};

use crate::spine::{Look, fires, look_at};
use crate::store::Environment;
use terms::number::{number_at, push_number};
use terms::walk::end_of;

// What a frame remembers: an earlier find, or an application whose last argument is still to come.
#[derive(Clone, Copy, Debug, PartialEq, Eq)]
pub enum Kind {
    Find,
    Last,
}

// The marks 0 and 1 are written and read in these two alone: a number as wide as a place, so no discriminant.
impl Kind {
    // The number for it on the stack.
    fn mark(self) -> usize
        ensures { result ≡ mark_of self }
    {
        match self {
            Kind::Find => 0,
            Kind::Last => 1,
        }
    }

    fn of_mark(mark: usize) -> Kind
        ensures { result ≡ kind_of mark }
    {
        if mark == 0 { Kind::Find } else { Kind::Last }
    }
}

// A frame: what it remembers; its place; behind how many terms the next frame comes.
#[derive(Clone, Copy, Debug, PartialEq, Eq)]
pub struct Frame {
    pub kind: Kind,
    pub place: usize,
    pub behind: usize,
}

// A frame on top of the stack, which grows down.
fn push_frame(stack: &mut [u32], free: usize, frame: Frame) -> usize
    requires low { 6 ≤ free }
    requires within { free ≤ length stack.old }
    ensures { FramePushed stack.old free (mark_of frame.kind) frame.place frame.behind stack.new result }
{
    let third = push_number(stack, free, frame.behind);
    let second = push_number(stack, third, frame.place);
    push_number(stack, second, frame.kind.mark())
}

// The frame on top of the stack.
fn frame_at(stack: &[u32], free: usize) -> Frame
    requires { free + 6 ≤ length stack.now }
    ensures { (m c n : ℕ) (fs : List ℕ) → drop free stack.now ≡ frame m c n fs → IsFrame result m c n }
{
    Frame {
        kind: Kind::of_mark(number_at(stack, free)),
        place: number_at(stack, free + 2),
        behind: number_at(stack, free + 4),
    }
}

// The place of the redex that the normal-order step of the term at `at` contracts. What is found in the arguments before one that has to be
// looked at is remembered on the stack, and counts only if nothing is found there.
pub fn find(env: Environment, heap: &[u32], at: usize, stack: &mut [u32]) -> Option<usize>
    requires { Findable env.index.now env.store.now heap.now at (length stack.old) }
    ensures { (e : Env) (front rest : List ℕ) (t : Term) → EnvAt env.entry.index.now env.entry.store.now e → heap.now ≡ front ++ put t rest → length front ≡ at → FindsStep e heap.now front t rest result }
{
    let mut place = at;
    let mut before: usize = 1;
    let mut hit: Option<usize> = None;
    let mut free = stack.len();
    // One loop, longer than a function should be: a part of it would take the whole invariant for its contract.
    'pass: loop {
        if before == 0 {
            if free == stack.len() {
                return hit;
            }
            let frame = frame_at(stack, free);
            if let Kind::Find = frame.kind {
                before = frame.behind;
                free += 6;
                hit = hit.or(Some(frame.place));
                continue 'pass;
            }
            if fires(env, heap, frame.place, place) {
                before = frame.behind + 1;
                free += 6;
                hit = Some(frame.place);
                continue 'pass;
            }
            if let Some(c) = hit {
                before = 1;
                let found = Frame {
                    kind: Kind::Find,
                    place: c,
                    behind: frame.behind,
                };
                free = push_frame(stack, free + 6, found);
                hit = None;
                continue 'pass;
            }
            before = frame.behind + 1;
            free += 6;
            continue 'pass;
        }
        if hit.is_some() {
            if free == stack.len() {
                return hit;
            }
            place = end_of(heap, place);
            before -= 1;
            continue 'pass;
        }
        match look_at(env, heap, place) {
            Look::Leaf => {
                place += 3;
                before -= 1;
                continue 'pass;
            }
            Look::Pair => {
                place += 3;
                before += 1;
                continue 'pass;
            }
            Look::Redex(c) => {
                hit = Some(c);
                continue 'pass;
            }
            Look::Spread(n) => {
                place += 3 * n;
                before += n;
                continue 'pass;
            }
            Look::Needs(n, m) => {
                let last = Frame {
                    kind: Kind::Last,
                    place: place + 3 * (n - m),
                    behind: before - 1 + (n - m),
                };
                free = push_frame(stack, free, last);
                place += 3 * n;
                before = m;
                continue 'pass;
            }
        }
    }
}
