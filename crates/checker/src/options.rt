// The arguments: what they ask for.
ghost use Rattle.std.specs.Prelude.{◌≡◌};
ghost use Rattle.checker.specs.Arguments.{word_role, role_of, ReadsUpTo, SetTo, default_options, Sets};

use crate::answer::as_text;
use std::env::FillError;
use std::rt::Env;

pub const VERSION: &str = "check 0.1.0";

pub const HELP: &str = "usage: check [--steps N] [--words N] [--list] [FILE...]

Judges texts of declarations, and writes a line about each: what came of it, with the line of the
declaration that does not hold, or of the place where the text stops being one.
- or no FILE is standard input.

  --steps N  a term may take N reduction steps (1000000)
  --words N  N words of workspace are lent, at most as many as fit in 4 MiB (as many)
  --list     standard input has the names of further files, one a line
  --help     writes this
  --version  writes the version

The status is 0 if all declarations of all texts hold, and else 1.
";

// A longer name is not looked at.
pub const NAME_BYTES: usize = 4096;

// A text has at most 32,768 bytes; one byte more tells that it is longer.
pub const TEXT_BYTES: usize = 32769;

// What is read ahead of a list of names, and a name; one byte more tells that it is longer.
const LIST_BYTES: usize = 2 * NAME_BYTES + 1;

// The words that fit in 4 MiB beside these.
pub const MOST_WORDS: u64 = (4 * 1024 * 1024 - TEXT_BYTES - NAME_BYTES - LIST_BYTES) as u64 / 4;

// How to judge.
#[derive(Clone, Copy, Debug, PartialEq, Eq)]
pub struct Options {
    // The steps and words that are allowed.
    pub steps: u64,
    pub words: u64,
    // Standard input has names of files: a switch, given or not.
    pub list: bool,
    // How many files the arguments name.
    pub files: u64,
}

// What the arguments ask for.
#[derive(Clone, Copy, Debug, PartialEq, Eq)]
pub enum Asked {
    Help,
    Version,
    Judge(Options),
}

// What an argument is.
#[derive(Clone, Copy, Debug, PartialEq, Eq)]
pub enum Role {
    Steps,
    Words,
    StepsNumber,
    WordsNumber,
    List,
    Help,
    Version,
    Unknown,
    File,
}

impl Role {
    // What an argument is, behind one with the role `before`; no From, since it takes both.
    pub fn of(before: Role, word: &str) -> Role
        ensures { result ≡ role_of before word.now }
    {
        match before {
            Role::Steps => Role::StepsNumber,
            Role::Words => Role::WordsNumber,
            _ => Role::of_word(word),
        }
    }

    // What an argument is that is no option's number.
    fn of_word(word: &str) -> Role
        ensures { result ≡ word_role word.now }
    {
        match word {
            "--steps" => Role::Steps,
            "--words" => Role::Words,
            "--list" => Role::List,
            "--help" => Role::Help,
            "--version" => Role::Version,
            "-" => Role::File,
            _ if word.starts_with('-') => Role::Unknown,
            _ => Role::File,
        }
    }
}

// The number that a word writes, if it is at most `most`.
pub fn number(word: &str, most: u64) -> Option<u64>
    ensures { ReadsUpTo word.now most result }
{
    word.parse().ok().filter(|n| *n <= most)
}

// The number that a word writes, if it is at most `most`, and else `before`.
fn setting(word: &str, most: u64, before: u64) -> u64
    ensures { SetTo word.now most before result }
{
    number(word, most).unwrap_or(before)
}

// What holds where no argument says otherwise.
impl Default for Options {
    ghost is_default = { λ o. o ≡ default_options };

    fn default() -> Options {
        Options {
            steps: 1_000_000,
            words: MOST_WORDS,
            list: false,
            files: 0,
        }
    }
}

impl Options {
    // The options with an argument taken in.
    fn with(self, role: Role, word: &str) -> Options
        ensures { Sets role word.now self result }
    {
        match role {
            Role::StepsNumber => Options {
                steps: setting(word, u64::MAX, self.steps),
                ..self
            },
            Role::WordsNumber => Options {
                words: setting(word, MOST_WORDS, self.words),
                ..self
            },
            Role::List => Options { list: true, ..self },
            Role::File => Options {
                files: self.files.saturating_add(1),
                ..self
            },
            _ => self,
        }
    }
}

// No clause can say what the arguments are. Does this with each argument behind the program's name in turn, until it fails: with its number, and its bytes if they fit.
pub fn each_argument<E, F: FnMut(usize, Option<&[u8]>) -> Result<(), E>>(
    env: &impl Env,
    mut visit: F,
) -> Result<(), E>
    requires { F.IsAlwaysCallable visit }
{
    let mut buf = [0u8; NAME_BYTES];
    // How many arguments there are is not told beforehand; the range numbers them.
    for i in 1..usize::MAX {
        match env.arg(i, &mut buf) {
            Ok(len) => visit(i, Some(&buf[..len]))?,
            Err(FillError::TooLong) => visit(i, None)?,
            Err(FillError::NotPresent) => break,
        }
    }
    Ok(())
}

// What all the arguments ask for.
pub fn read_arguments(env: &impl Env) -> Asked {
    let mut options = Options::default();
    let mut before = Role::File;
    let read = each_argument(env, |_, bytes| {
        let word = bytes.map_or("", as_text);
        before = Role::of(before, word);
        match before {
            Role::Help => Err(Asked::Help),
            Role::Version => Err(Asked::Version),
            _ => {
                options = options.with(before, word);
                Ok(())
            }
        }
    });
    match read {
        Ok(()) => Asked::Judge(options),
        Err(asked) => asked,
    }
}
