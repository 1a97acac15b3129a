// What reading comes to, and the tokens that must come next.
ghost use Rattle.syntax.specs.Parsing.{Expects, ExpectsName, ExpectsNumber};

use crate::problem::{Problem, Stop};
use crate::scan::{Number, Word, eat, read_name, read_number};

// Something was read: the bytes behind it, and its stage.
#[derive(Clone, Copy, Debug, PartialEq, Eq)]
pub struct Read<'a> {
    pub rest: &'a [u8],
    pub stage: u32,
}

impl<'a> Read<'a> {
    ghost use Rattle.std.specs.Prelude.{◌≡◌, max};

    // What was read behind it, and the stage of both.
    pub fn then(self, next: Read<'a>) -> Read<'a>
        ensures rest { result.rest ≡ next.entry.rest }
        ensures stage { result.stage ≡ max self.entry.stage next.entry.stage }
    {
        Read {
            rest: next.rest,
            stage: self.stage.max(next.stage),
        }
    }
}

// A term is read link by link: a binder, whose body comes next, or the last part. Neither is a failure, so it is no Result.
#[derive(Clone, Copy, Debug, PartialEq, Eq)]
pub enum Link<'a> {
    More(Read<'a>),
    Last(Read<'a>),
}

// The bytes behind a token that must come first.
pub fn expect<'a>(bytes: &'a [u8], wanted: &[u8], problem: Problem) -> Result<&'a [u8], Stop>
    ensures { Expects wanted.now bytes.now result }
{
    eat(bytes, wanted).ok_or(Stop {
        left: bytes.len(),
        problem,
    })
}

// A name that must come first. What these three share is `ok_or`: what they look for and what they hand back differs.
pub fn expect_name(bytes: &[u8]) -> Result<Word<'_>, Stop>
    ensures { ExpectsName bytes.now result }
{
    read_name(bytes).ok_or(Stop {
        left: bytes.len(),
        problem: Problem::Name,
    })
}

// A number that must come first.
pub fn expect_number(bytes: &[u8]) -> Result<Number<'_>, Stop>
    ensures { ExpectsNumber bytes.now result }
{
    read_number(bytes).ok_or(Stop {
        left: bytes.len(),
        problem: Problem::Number,
    })
}
