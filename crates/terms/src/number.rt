// Numbers kept in two words: more than a word's worth of words may be lent, so a place, a depth or an index takes two.
ghost use Rattle.std.specs.Prelude.{◌≡◌, ℕ, ◌+◌, ◌*◌, ◌≤◌, List, [], length, drop};
ghost use Rattle.terms.specs.Words.{number};
ghost use Rattle.terms.specs.Writing.{Appends, Pushes};

// A number in the two words from `at` on, the low one first; behind it is the next place.
pub fn put_number(words: &mut [u32], at: usize, value: usize) -> usize
    requires { at + 2 ≤ length words.old }
    ensures written { Appends words.old at (number value []) words.new result }
    ensures kept { drop result words.new ≡ drop result words.old }
{
    words[at] = (value % 4294967296) as u32;
    words[at + 1] = (value / 4294967296) as u32;
    at + 2
}

// A number on top of a stack that grows down.
pub fn push_number(stack: &mut [u32], free: usize, value: usize) -> usize
    requires low { 2 ≤ free }
    requires within { free ≤ length stack.old }
    ensures { Pushes stack.old free value stack.new result }
{
    put_number(stack, free - 2, value);
    free - 2
}

// The number that two words say.
pub fn number_of(low: u32, high: u32) -> usize
    ensures { result ≡ low + 4294967296 * high }
{
    low as usize + 4294967296 * high as usize
}

// The number in the two words at a place.
pub fn number_at(words: &[u32], at: usize) -> usize
    requires { at + 2 ≤ length words.now }
    ensures { (x : ℕ) (rest : List ℕ) → drop at words.now ≡ number x rest → result ≡ x }
{
    number_of(words[at], words[at + 1])
}
