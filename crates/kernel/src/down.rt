// One turn of inference down: into the first part of a node, or the type of a term without parts.
ghost use Rattle.std.specs.Prelude.{◌+◌, ◌^◌, ◌<◌, ◌≤◌, length};
ghost use Rattle.kernel.specs.Downs.{Enters};
ghost use Rattle.kernel.specs.Turns.{CanGo, Falls, Goes, Keeps};

use crate::failure::Failure;
use crate::frames::{Kind, push_kept};
use crate::leaf::{head_type, sort_type, variable_type};
use crate::machine::Machine;
use crate::turn::{Spot, Turn};
use terms::sign::{Sign, sign_at};

// Into the first part, with a frame.
fn enter(frames: &mut [u32], spot: Spot, kind: Kind) -> Turn
    requires room { 3 ≤ spot.free }
    requires within { spot.free ≤ length frames.old }
    requires before { spot.at + 3 < 2 ^ 64 }
    ensures { Enters frames.old frames.new spot kind result }
{
    let at = spot.at + 3;
    let free = push_kept(frames, spot.free, kind, at);
    Turn::Down(Spot { at, free, ..spot })
}

impl Machine<'_> {
    // One turn down.
    pub(crate) fn down(&mut self, spot: Spot) -> Result<Turn, Failure>
        requires { CanGo self.old spot }
        ensures turned { Goes self.old spot self.new result }
        ensures falls { Falls self.old (Turn.Down spot) result }
        ensures keeps { Keeps self.old self.new }
    {
        match sign_at(self.terms, spot.at) {
            Sign::Pi => Ok(enter(self.frames, spot, Kind::Pi)),
            Sign::Lam => Ok(enter(self.frames, spot, Kind::Lam)),
            Sign::App => Ok(enter(self.frames, spot, Kind::Fun)),
            Sign::Var(index) => {
                // Reborrowed, since a field that is passed as `&` loses its words in proofs.
                let context = &mut *self.context;
                let end = variable_type(
                    self.terms, context, spot.names, index, self.heap, spot.top, self.stack,
                )?;
                Ok(Turn::Back(spot.past(), end))
            }
            Sign::Sort(level) => {
                let end = sort_type(self.heap, spot.top, level)?;
                Ok(Turn::Back(spot.past(), end))
            }
            Sign::Def(i) => {
                let end = head_type(self.env, i, self.heap, spot.top)?;
                Ok(Turn::Back(spot.past(), end))
            }
            _ => Err(Failure::Refused),
        }
    }
}
