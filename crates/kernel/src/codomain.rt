// Back from the second part of a function type.
ghost use Rattle.kernel.specs.Turns.{CanReturn, Falls, Keeps, Returns, Tagged};

use crate::failure::Failure;
use crate::frames::Kind;
use crate::machine::Machine;
use crate::sorted::to_level;
use crate::turn::{Spot, Turn};
use terms::sign::{Level, Sign, push_sign};

impl Machine<'_> {
    // The codomain's type comes to a sort: the function type is of the larger.
    pub(crate) fn back_under_pi(&mut self, spot: Spot, end: usize) -> Result<Turn, Failure>
        requires can { CanReturn self.old spot end }
        requires tagged { Tagged self.old.frames.now spot.free Kind.UnderPi }
        ensures turned { Returns self.old spot end self.new result }
        ensures falls { Falls self.old (Turn.Back spot end) result }
        ensures keeps { Keeps self.old self.new }
    {
        let level = to_level(self.env, self.heap, spot.top, end, self.stack, self.most)?;
        let level = self.frames[spot.free + 1].max(level);
        let end = push_sign(self.heap, spot.top, Sign::Sort(Level(level)));
        Ok(Turn::Back(spot.unbound(), end))
    }
}
