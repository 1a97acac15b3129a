// Back from the argument of an application.
ghost use Rattle.std.specs.Prelude.{ℕ, ◌^◌, List, length};
ghost use Rattle.theory.specs.Terms.{Term, pi, subst as subst_term};
ghost use Rattle.terms.specs.Words.{At, HoldsSmall};
ghost use Rattle.kernel.specs.Resting.{HoldsPi, Instance};
ghost use Rattle.kernel.specs.Turns.{CanReturn, Falls, Keeps, Returns, Tagged};

use crate::agree::agree;
use crate::failure::Failure;
use crate::frames::Kind;
use crate::machine::Machine;
use crate::turn::{Spot, Turn};
use reduction::budget::Budget;
use terms::copy::copy_words;
use terms::subst::subst;
use terms::walk::end_of;

// The codomain of the function type at `kept` with the argument put in, written over the function type by way of the stack.
fn instantiate(
    terms: &[u32],
    place: usize,
    heap: &mut [u32],
    kept: usize,
    stack: &mut [u32],
) -> Option<usize>
    requires argument { HoldsSmall (2 ^ 63) terms.now place }
    requires function { HoldsPi heap.old kept }
    ensures { (a b t : Term) (x y : List ℕ) → At heap.old kept (pi a b) x → At terms.now place t y
        → Instance heap.old kept (length stack.old) (subst_term 0 t b) heap.new result }
{
    let body = end_of(heap, kept + 3);
    let half = stack.len() / 2;
    let (out, rest) = stack.split_at_mut(half);
    let count = subst(heap, body, 0, terms, place, out, 0, rest).ok()?;
    if heap.len() - kept < count {
        return None;
    }
    Some(copy_words(out, 0, count, heap, kept))
}

impl Machine<'_> {
    // Its type is the function's domain, up to conversion: the application's type is the codomain with the argument put in.
    pub(crate) fn back_arg(&mut self, spot: Spot, end: usize) -> Result<Turn, Failure>
        requires can { CanReturn self.old spot end }
        requires tagged { Tagged self.old.frames.now spot.free Kind.Arg }
        ensures turned { Returns self.old spot end self.new result }
        ensures falls { Falls self.old (Turn.Back spot end) result }
        ensures keeps { Keeps self.old self.new }
    {
        let place = self.kept_number(spot.free + 1);
        let kept = self.kept_number(spot.free + 3);
        let taken = self.kept_number(spot.free + 5) as u64;
        let budget = Budget {
            taken,
            most: self.most,
        };
        if !agree(
            self.env,
            self.heap,
            kept + 3,
            spot.top,
            end,
            self.stack,
            budget,
        )? {
            return Err(Failure::Refused);
        }
        let end = instantiate(self.terms, place, self.heap, kept, self.stack).ok_or(
            Failure::NoRoom,
        )?;
        Ok(Turn::Back(
            Spot {
                free: spot.free + 7,
                top: kept,
                ..spot
            },
            end,
        ))
    }
}
