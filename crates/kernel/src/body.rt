// Back from the body of a function.
ghost use Rattle.std.specs.Prelude.{ℕ, ◌≤◌, List, length};
ghost use Rattle.theory.specs.Terms.{Term, pi};
ghost use Rattle.terms.specs.Words.{At, Holds};
ghost use Rattle.terms.specs.Copying.{Fits};
ghost use Rattle.reduction.specs.Stepping.{Stands};
ghost use Rattle.kernel.specs.Turns.{CanReturn, Falls, Keeps, Returns, Tagged};

use crate::failure::Failure;
use crate::frames::Kind;
use crate::machine::Machine;
use crate::turn::{Spot, Turn};
use terms::copy::copy_term;
use terms::sign::{Sign, push_sign};

// The term from `top` to `end` becomes the codomain of a function type, whose domain stands among the terms.
fn insert_pi(terms: &[u32], at: usize, heap: &mut [u32], top: usize, end: usize) -> Option<usize>
    requires stands { Holds terms.now at }
    requires order { top ≤ end }
    requires within { end ≤ length heap.old }
    ensures { (a c : Term) (rest : List ℕ) → At terms.now at a rest → Stands heap.old top c end → Fits heap.old top heap.new (pi a c) result }
{
    if heap.len() - end < 3 {
        return None;
    }
    let start = push_sign(heap, end, Sign::Pi);
    let stop = copy_term(terms, at, heap, start)?;
    heap[top..stop].rotate_right(stop - end);
    Some(stop)
}

impl Machine<'_> {
    // The function's type is that of its body behind its domain.
    pub(crate) fn back_under_lam(&mut self, spot: Spot, end: usize) -> Result<Turn, Failure>
        requires can { CanReturn self.old spot end }
        requires tagged { Tagged self.old.frames.now spot.free Kind.UnderLam }
        ensures turned { Returns self.old spot end self.new result }
        ensures falls { Falls self.old (Turn.Back spot end) result }
        ensures keeps { Keeps self.old self.new }
    {
        let place = self.kept_number(spot.free + 1);
        // Reborrowed, since the call lends one field as `&` and one as `&mut`.
        let heap = &mut *self.heap;
        let end = insert_pi(self.terms, place, heap, spot.top, end).ok_or(Failure::NoRoom)?;
        Ok(Turn::Back(spot.unbound(), end))
    }
}
