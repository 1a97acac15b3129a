// The words that the kernel works on.
ghost use Rattle.std.specs.Prelude.{◌≡◌, ℕ, ◌+◌, ◌≤◌, List, length, drop};
ghost use Rattle.terms.specs.Words.{number};

use reduction::store::Environment;
use terms::number::number_at;

// What is read, that is the environment and the terms, and the number of steps allowed; and what is written: the types of the context,
// the frames, the types on the heap, and a stack for what is done with them.
#[derive(Drop)]
pub struct Machine<'a> {
    pub env: Environment<'a>,
    pub terms: &'a [u32],
    pub context: &'a mut [u32],
    pub frames: &'a mut [u32],
    pub heap: &'a mut [u32],
    pub stack: &'a mut [u32],
    pub most: u64,
}

impl Machine<'_> {
    // The number that stands there in a frame.
    pub(crate) fn kept_number(&self, at: usize) -> usize
        requires { at + 2 ≤ length self.now.frames.now }
        ensures { (x : ℕ) (rest : List ℕ) → drop at self.now.frames.now ≡ number x rest → result ≡ x }
    {
        number_at(self.frames, at)
    }
}
