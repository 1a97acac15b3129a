// Back from the domain of a function type or a function: its type comes to a sort, and the second part is next.
ghost use Rattle.kernel.specs.Turns.{CanReturn, Falls, Keeps, Returns, Tagged};

use crate::failure::Failure;
use crate::frames::{Kind, push_kept};
use crate::machine::Machine;
use crate::sorted::to_level;
use crate::turn::{Spot, Turn};
use terms::number::push_number;

// The two stay apart: they write other words over the frame, and a shared one would look at its kind again.
impl Machine<'_> {
    // Of a function type: its level is kept.
    pub(crate) fn back_pi(&mut self, spot: Spot, end: usize) -> Result<Turn, Failure>
        requires can { CanReturn self.old spot end }
        requires tagged { Tagged self.old.frames.now spot.free Kind.Pi }
        ensures turned { Returns self.old spot end self.new result }
        ensures falls { Falls self.old (Turn.Back spot end) result }
        ensures keeps { Keeps self.old self.new }
    {
        let level = to_level(self.env, self.heap, spot.top, end, self.stack, self.most)?;
        let place = self.kept_number(spot.free + 1);
        let names = push_number(self.context, spot.names, place);
        let free = push_kept(self.frames, spot.free + 3, Kind::UnderPi, level as usize);
        Ok(Turn::Down(Spot {
            names,
            free,
            ..spot
        }))
    }

    // Of a function: its place is kept.
    pub(crate) fn back_lam(&mut self, spot: Spot, end: usize) -> Result<Turn, Failure>
        requires can { CanReturn self.old spot end }
        requires tagged { Tagged self.old.frames.now spot.free Kind.Lam }
        ensures turned { Returns self.old spot end self.new result }
        ensures falls { Falls self.old (Turn.Back spot end) result }
        ensures keeps { Keeps self.old self.new }
    {
        to_level(self.env, self.heap, spot.top, end, self.stack, self.most)?;
        let place = self.kept_number(spot.free + 1);
        let names = push_number(self.context, spot.names, place);
        self.frames[spot.free] = Kind::UnderLam.word();
        Ok(Turn::Down(Spot { names, ..spot }))
    }
}
