// A name that is read byte by byte, and kept in a buffer of one size.
ghost use Rattle.std.specs.Prelude.{◌≡◌, ◌≤◌, [], ◌∷◌, ◌++◌, take, length, nat_lt};

use crate::options::NAME_BYTES;
use std::marker::Model;

// One byte more than is kept of a name tells that there were more.
const FULL_BYTES: usize = NAME_BYTES + 1;

// The bytes so far, and at most one more than are kept: an array and a length, since a crate for them would be one more thing to trust.
#[derive(Drop)]
pub struct Name {
    buf: [u8; FULL_BYTES],
    len: usize,
    ghost within: { len ≤ length buf },
}

impl Model for Name {
    ghost use Rattle.std.specs.Prelude.{ℕ, List, take};

    ghost Value = { List ℕ };

    ghost view = { λ n. take n.len n.buf };
}

impl Name {
    // No byte yet.
    pub fn new() -> Name
        ensures { result ≡ [] }
    {
        Name {
            buf: [0; FULL_BYTES],
            len: 0,
        }
    }

    // One more byte, if there is room.
    pub fn push(&mut self, b: u8)
        ensures { self.new ≡ take 4097 (self.old ++ b ∷ []) }
    {
        if self.len < FULL_BYTES {
            self.buf[self.len] = b;
            self.len += 1;
        }
    }

    // No byte again.
    pub fn clear(&mut self)
        ensures { self.new ≡ [] }
    {
        self.len = 0;
    }

    // Was there more than there is room for?
    pub fn is_long(&self) -> bool
        ensures { result ≡ nat_lt 4096 (length self.now) }
    {
        self.len > NAME_BYTES
    }

    // The bytes that are kept.
    pub fn bytes(&self) -> &[u8]
        ensures { result.now ≡ take 4096 self.now }
    {
        let all = &self.buf[..self.len];
        &all[..NAME_BYTES.min(all.len())]
    }
}
