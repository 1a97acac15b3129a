// The state of inference between two turns of its loop.
ghost use Rattle.std.specs.Prelude.{◌≡◌, ◌+◌, ◌^◌, ◌<◌};
ghost use Rattle.kernel.specs.Turns.{past, unbound};

// Where it stands: the place in the terms, the ends of the context's and the frames' words, the end of the kept types on the heap.
#[derive(Clone, Copy, Debug, PartialEq, Eq)]
pub struct Spot {
    pub at: usize,
    pub names: usize,
    pub free: usize,
    pub top: usize,
}

// What comes next: down into the term at the spot, or back with its type, which ends there.
#[derive(Clone, Copy, Debug, PartialEq, Eq)]
pub enum Turn {
    Down(Spot),
    Back(Spot, usize),
}

impl Spot {
    // Behind the node here.
    pub fn past(self) -> Spot
        requires { self.at + 3 < 2 ^ 64 }
        ensures { result ≡ past self }
    {
        Spot {
            at: self.at + 3,
            ..self
        }
    }

    // Without the name and the frame of a second part.
    pub fn unbound(self) -> Spot
        requires names { self.names + 2 < 2 ^ 64 }
        requires free { self.free + 3 < 2 ^ 64 }
        ensures { result ≡ unbound self }
    {
        Spot {
            names: self.names + 2,
            free: self.free + 3,
            ..self
        }
    }
}
