// Terms copied.
ghost use Rattle.std.specs.Prelude.{ℕ, ◌+◌, ◌-◌, ◌≤◌, List, length, take, drop};
ghost use Rattle.theory.specs.Terms.{Term};
ghost use Rattle.terms.specs.Words.{At, Holds};
ghost use Rattle.terms.specs.Writing.{Appends};
ghost use Rattle.terms.specs.Copying.{Fits};

use crate::walk::end_of;

// Why a term was not written: it does not fit, or the stack is too short.
#[derive(Clone, Copy, Debug, PartialEq, Eq)]
pub enum WriteError {
    NoRoom,
    NoStack,
}

// The words from `at` to `end`, written from `start` on.
pub fn copy_words(from: &[u32], at: usize, end: usize, out: &mut [u32], start: usize) -> usize
    requires order { at ≤ end }
    requires within { end ≤ length from.now }
    requires room { start + (end - at) ≤ length out.old }
    ensures { Appends out.old start (drop at (take end from.now)) out.new result }
{
    let stop = start + (end - at);
    out[start..stop].copy_from_slice(&from[at..end]);
    stop
}

// The term that stands there, written from `start` on.
pub fn copy_term(from: &[u32], at: usize, out: &mut [u32], start: usize) -> Option<usize>
    requires stands { Holds from.now at }
    requires order { start ≤ length out.old }
    ensures { (t : Term) (rest : List ℕ) → At from.now at t rest → Fits out.old start out.new t result }
{
    let end = end_of(from, at);
    if out.len() - start < end - at {
        return None;
    }
    Some(copy_words(from, at, end, out, start))
}

// The words from `from` to `end`, moved down to `to`.
pub fn move_down(heap: &mut [u32], from: usize, end: usize, to: usize) -> usize
    requires down { to ≤ from }
    requires order { from ≤ end }
    requires within { end ≤ length heap.old }
    ensures { Appends heap.old to (drop from (take end heap.old)) heap.new result }
{
    heap.copy_within(from..end, to);
    to + (end - from)
}
