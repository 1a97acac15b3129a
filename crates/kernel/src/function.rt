// Back from the function of an application.
ghost use Rattle.kernel.specs.Turns.{CanReturn, Falls, Keeps, Returns, Tagged};

use crate::failure::Failure;
use crate::frames::{Kind, push_argument};
use crate::machine::Machine;
use crate::rested::reduce_halved;
use crate::turn::{Spot, Turn};
use reduction::budget::Budget;
use reduction::reduce::{Aim, Reduced};

impl Machine<'_> {
    // Its type comes to a function type, which is kept: the argument is next.
    pub(crate) fn back_fun(&mut self, spot: Spot, end: usize) -> Result<Turn, Failure>
        requires can { CanReturn self.old spot end }
        requires tagged { Tagged self.old.frames.now spot.free Kind.Fun }
        ensures turned { Returns self.old spot end self.new result }
        ensures falls { Falls self.old (Turn.Back spot end) result }
        ensures keeps { Keeps self.old self.new }
    {
        let budget = Budget {
            taken: 0,
            most: self.most,
        };
        match reduce_halved(
            self.env,
            self.heap,
            spot.top,
            end,
            self.stack,
            Aim::ToPi,
            budget,
        )? {
            Reduced::Reached(steps, stop) => {
                let free = push_argument(self.frames, spot.free + 3, spot.at, spot.top, steps);
                Ok(Turn::Down(Spot {
                    free,
                    top: stop,
                    ..spot
                }))
            }
            Reduced::Resting(_, _) => Err(Failure::Refused),
        }
    }
}
