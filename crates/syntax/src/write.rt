// Words written one behind the other.
ghost use Rattle.std.specs.Prelude.{◌≡◌, ◌+◌, ◌≤◌, [], ◌∷◌, length, take, replicate};
ghost use Rattle.syntax.specs.Tags.{tag_word};

use crate::tag::Tag;

// A buffer that is lent, and how many of its words are written. Room for more is a clause of each function, since it depends on the bytes
// that are left; a ghost field beside a `&mut` gets no generated proof. So is that a name has at most 32 bytes, which is tested where it is read:
// it stays a slice of the text.
#[derive(Drop)]
pub struct Writer<'w> {
    pub words: &'w mut [u32],
    pub len: usize,
}

impl<'w> Writer<'w> {
    ghost use Rattle.syntax.specs.Writing.{HasRoom, Appends, Inserts};

    // Nothing is written yet.
    pub fn new(words: &'w mut [u32]) -> Writer<'w>
        ensures empty { result.len ≡ 0 }
        ensures lent { result.words.now ≡ words.old }
        ensures same { result.words.ghost_name ≡ words.entry.ghost_name }
    {
        Writer { words, len: 0 }
    }

    // The words that are written.
    pub fn written(&self) -> &[u32]
        requires { self.now.len ≤ length self.now.words.now }
        ensures { result.now ≡ take self.now.len self.now.words.now }
    {
        &self.words[..self.len]
    }

    // One word.
    pub fn push(&mut self, word: u32)
        requires { HasRoom self.old 1 }
        ensures { Appends self.old (word ∷ []) self.new }
    {
        self.words[self.len] = word;
        self.len += 1;
    }

    // Two words.
    pub fn push_two(&mut self, first: u32, second: u32)
        requires { HasRoom self.old 2 }
        ensures { Appends self.old (first ∷ (second ∷ [])) self.new }
    {
        self.push(first);
        self.push(second);
    }

    // The bytes of a name, a word each.
    fn push_bytes(&mut self, name: &[u8])
        requires { HasRoom self.old (length name.now) }
        ensures { Appends self.old name.now self.new }
    {
        for b in name {
            self.push(*b as u32);
        }
    }

    // A name: its length and its bytes.
    pub fn push_name(&mut self, name: &[u8])
        requires room { HasRoom self.old (1 + length name.now) }
        requires short { length name.now ≤ 32 }
        ensures { Appends self.old (length name.now ∷ name.now) self.new }
    {
        self.push(name.len() as u32);
        self.push_bytes(name);
    }

    // A tag and a name.
    pub fn push_named(&mut self, tag: Tag, name: &[u8])
        requires room { HasRoom self.old (2 + length name.now) }
        requires short { length name.now ≤ 32 }
        ensures { Appends self.old (tag_word tag ∷ (length name.now ∷ name.now)) self.new }
    {
        self.push(tag as u32);
        self.push_name(name);
    }

    // A note of a declared name, with the number of bytes left behind it.
    pub fn push_note(&mut self, left: usize, name: &[u8])
        requires room { HasRoom self.old (2 + length name.now) }
        requires short { length name.now ≤ 32 }
        requires near { left ≤ 32768 }
        ensures { Appends self.old (left ∷ (length name.now ∷ name.now)) self.new }
    {
        self.push(left as u32);
        self.push_name(name);
    }

    // The same word so many times.
    fn push_times(&mut self, word: u32, count: usize)
        requires { HasRoom self.old count }
        ensures { Appends self.old (replicate count word) self.new }
    {
        let end = self.len + count;
        self.words[self.len..end].fill(word);
        self.len = end;
    }

    // The same word so many times, before what is written from a place on.
    pub fn insert(&mut self, start: usize, word: u32, count: usize)
        requires order { start ≤ self.old.len }
        requires room { HasRoom self.old count }
        ensures { Inserts self.old start (replicate count word) self.new }
    {
        self.push_times(word, count);
        self.words[start..self.len].rotate_right(count);
    }
}
