// Frames in words, on a stack that grows down: the word of a kind and what goes with it.
ghost use Rattle.std.specs.Prelude.{◌≡◌, ◌<◌, ◌≤◌, [], ◌∷◌, length};
ghost use Rattle.terms.specs.Words.{number};
ghost use Rattle.kernel.specs.Frames.{Stacks, kind_word};

use terms::number::push_number;

// The part of a node in which the walk is: the domain of a function type, its codomain, the domain of a function, its body, the function
// of an application, its argument.
#[derive(Clone, Copy, Debug, PartialEq, Eq)]
pub enum Kind {
    Pi = 0,
    UnderPi = 1,
    Lam = 2,
    UnderLam = 3,
    Fun = 4,
    Arg = 5,
}

impl Kind {
    // The word of the kind.
    pub fn word(self) -> u32
        ensures { result ≡ kind_word self }
    {
        self as u32
    }

    // The kind with this word: the numbers of the words become kinds here alone. It asks for one of them, so it is no TryFrom.
    pub fn of(word: u32) -> Kind
        requires { word < 6 }
        ensures { kind_word result ≡ word }
    {
        match word {
            0 => Kind::Pi,
            1 => Kind::UnderPi,
            2 => Kind::Lam,
            3 => Kind::UnderLam,
            4 => Kind::Fun,
            _ => Kind::Arg,
        }
    }
}

// A kind and what is kept: a place, or the domain's level for the codomain of a function type.
pub fn push_kept(frames: &mut [u32], free: usize, kind: Kind, kept: usize) -> usize
    requires room { 3 ≤ free }
    requires within { free ≤ length frames.old }
    ensures { Stacks frames.old free (kind_word kind ∷ number kept []) frames.new result }
{
    let top = push_number(frames, free, kept);
    frames[top - 1] = kind.word();
    top - 1
}

// For an argument: its place, the place of the function type and the number of steps that led to it.
pub fn push_argument(
    frames: &mut [u32],
    free: usize,
    place: usize,
    kept: usize,
    steps: u64,
) -> usize
    requires room { 7 ≤ free }
    requires within { free ≤ length frames.old }
    ensures { Stacks frames.old free (kind_word Kind.Arg ∷ number place (number kept (number steps []))) frames.new result }
{
    let below = push_number(frames, free, steps as usize);
    let top = push_number(frames, below, kept);
    push_kept(frames, top, Kind::Arg, place)
}
