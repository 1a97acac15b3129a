// Inference of a type: a loop over turns, with what waits in frames.
ghost use Rattle.std.specs.Prelude.{◌≡◌};
ghost use Rattle.kernel.specs.Machine.{Task};
ghost use Rattle.kernel.specs.Turns.{IsGiven, Keeps};
ghost use Rattle.kernel.specs.Answers.{CanInfer, IsBegun, Answers};

use crate::failure::Failure;
use crate::machine::Machine;
use crate::turn::{Spot, Turn};

impl Machine<'_> {
    // The type of the term at a place, in the context from `names` on, written at the start of the heap: where it ends.
    pub fn infer(&mut self, at: usize, names: usize) -> Result<usize, Failure>
        requires { CanInfer self.old at names }
        ensures answers { (k : Task) → IsGiven k self.old → IsBegun k self.old at names → k.most ≡ self.old.most → Answers k self.new.heap.now result }
        ensures keeps { Keeps self.old self.new }
    {
        let mut turn = Turn::Down(Spot {
            at,
            names,
            free: self.frames.len(),
            top: 0,
        });
        loop {
            turn = match turn {
                Turn::Down(spot) => self.down(spot)?,
                Turn::Back(spot, end) => {
                    if spot.free == self.frames.len() {
                        return Ok(end);
                    }
                    self.back(spot, end)?
                }
            };
        }
    }
}
