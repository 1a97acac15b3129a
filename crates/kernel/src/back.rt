// One turn of inference back: by the frame on top.
ghost use Rattle.std.specs.Prelude.{◌<◌, length};
ghost use Rattle.kernel.specs.Turns.{CanReturn, Falls, Keeps, Returns};

use crate::failure::Failure;
use crate::frames::Kind;
use crate::machine::Machine;
use crate::turn::{Spot, Turn};

impl Machine<'_> {
    // Back with the type that stands from the spot's top to `end`.
    pub(crate) fn back(&mut self, spot: Spot, end: usize) -> Result<Turn, Failure>
        requires can { CanReturn self.old spot end }
        requires below { spot.free < length self.old.frames.now }
        ensures turned { Returns self.old spot end self.new result }
        ensures falls { Falls self.old (Turn.Back spot end) result }
        ensures keeps { Keeps self.old self.new }
    {
        match Kind::of(self.frames[spot.free]) {
            Kind::Pi => self.back_pi(spot, end),
            Kind::UnderPi => self.back_under_pi(spot, end),
            Kind::Lam => self.back_lam(spot, end),
            Kind::UnderLam => self.back_under_lam(spot, end),
            Kind::Fun => self.back_fun(spot, end),
            Kind::Arg => self.back_arg(spot, end),
        }
    }
}
