// All the texts that are named, judged one after another in the same buffers.
ghost use Rattle.std.specs.Prelude.{◌≡◌, IfOk, vec_len, IsUtf8, OnOk};
ghost use Rattle.checker.specs.Arguments.{role_of};
ghost use Rattle.checker.specs.Tallies.{add_up, counted};
ghost use Rattle.checker.specs.declared.tally.Outcome.{Outcome};
ghost use Rattle.checker.specs.declared.tally.Outcome.TheVariants.{Unread};

use crate::files::{complain, complain_of, judge_file};
use crate::names::Name;
use crate::options::{MOST_WORDS, NAME_BYTES, Options, Role, TEXT_BYTES, each_argument, number};
use crate::tally::{Outcome, Tally};
use std::alloc::{AllocError, Global};
use std::fmt::Display;
use std::io;
use std::io::{ErrorKind, Read};
use std::str::from_utf8;

// A name is given up where it is not text.
const NOT_UTF8: &str = "the name is not UTF-8";

// The buffers, and what came of the texts so far.
#[derive(Drop)]
pub struct Judging {
    pub options: Options,
    pub work: Vec<u32>,
    pub tally: Tally,
    text: [u8; TEXT_BYTES],
}

impl Judging {
    // The buffers for all texts, however many there are.
    pub fn new(heap: Global, options: Options) -> Result<Judging, AllocError>
        ensures { IfOk result (λ j. (j.options ≡ options) × (vec_len j.work ≡ options.words)) }
    {
        let work = vec![in heap; 0; options.words as usize]?;
        Ok(Judging {
            options,
            work,
            tally: Tally::new(),
            text: [0; TEXT_BYTES],
        })
    }

    // An option is wrong.
    fn fault<D: Display + Drop>(&mut self, rt: &HostRuntime, word: &str, what: D) -> io::Result<()>
        ensures { self.new.tally.faults ≡ add_up self.old.tally.faults 1 }
    {
        self.tally.count_fault();
        complain(rt, format_args!("{word}: {what}"))
    }

    // A text cannot be read.
    fn unread<D: Display + Drop>(
        &mut self,
        rt: &HostRuntime,
        name: &[u8],
        what: D,
    ) -> io::Result<()>
        ensures { self.new.tally.counts ≡ counted Unread self.old.tally.counts }
    {
        self.tally.count(Outcome::Unread);
        complain_of(rt, name, what)
    }

    // Judges a text by its name.
    pub fn named(&mut self, rt: &HostRuntime, name: &str) -> io::Result<()>
        ensures { OnOk result ((o : Outcome) × (self.new.tally.counts ≡ counted o self.old.tally.counts)) }
    {
        if self.options.list && name == "-" {
            self.unread(rt, name.as_bytes(), "standard input has names of files")?;
            return Ok(());
        }
        let steps = self.options.steps;
        let outcome = judge_file(rt, name, steps, &mut self.text, self.work.as_mut_slice())?;
        self.tally.count(outcome);
        Ok(())
    }

    // Looks at an argument behind one with the role `before`, judges the text that it names, and says its role.
    fn argument(&mut self, rt: &HostRuntime, before: Role, word: &str) -> io::Result<Role>
        ensures { IfOk result (λ o. o ≡ role_of before word.now) }
    {
        let role = Role::of(before, word);
        match role {
            Role::StepsNumber if number(word, u64::MAX).is_none() => {
                self.fault(rt, word, "not a number of steps")?;
            }
            Role::WordsNumber if number(word, MOST_WORDS).is_none() => {
                let what = format_args!("not a number of words up to {MOST_WORDS}");
                self.fault(rt, word, what)?;
            }
            Role::Unknown => self.fault(rt, word, "unknown option")?,
            Role::File => self.named(rt, word)?,
            _ => {}
        }
        Ok(role)
    }

    // The same for bytes that need not be text.
    fn argument_bytes(&mut self, rt: &HostRuntime, before: Role, bytes: &[u8]) -> io::Result<Role>
        ensures { IfOk result (λ o. (IsUtf8 bytes.now → o ≡ role_of before bytes.now)) }
    {
        let Ok(word) = from_utf8(bytes) else {
            self.unread(rt, bytes, NOT_UTF8)?;
            return Ok(Role::File);
        };
        self.argument(rt, before, word)
    }

    // Judges the texts that the arguments name.
    pub fn arguments(&mut self, rt: &HostRuntime) -> io::Result<()> {
        let mut before = Role::File;
        each_argument(rt, |i, bytes| -> io::Result<()> {
            before = match bytes {
                Some(bytes) => self.argument_bytes(rt, before, bytes)?,
                None => {
                    self.tally.count(Outcome::Unread);
                    let what = format_args!(
                        "argument {i}: the name is longer than {NAME_BYTES} bytes"
                    );
                    complain(rt, what)?;
                    Role::File
                }
            };
            Ok(())
        })?;
        match before {
            Role::Steps => self.fault(rt, "--steps", "a number is missing"),
            Role::Words => self.fault(rt, "--words", "a number is missing"),
            _ => Ok(()),
        }
    }

    // Judges the text that a line of standard input names.
    fn line(&mut self, rt: &HostRuntime, name: &Name) -> io::Result<()> {
        let bytes = name.bytes();
        if name.is_long() {
            let what = format_args!("the name is longer than these {NAME_BYTES} bytes");
            return self.unread(rt, bytes, what);
        }
        match from_utf8(bytes) {
            Ok("") => Ok(()),
            Ok(word) => self.named(rt, word),
            Err(_) => self.unread(rt, bytes, NOT_UTF8),
        }
    }

    // Judges the texts whose names end in these bytes, one a line; `name` is what the bytes before them began.
    fn lines(&mut self, rt: &HostRuntime, name: &mut Name, bytes: &[u8]) -> io::Result<()> {
        for byte in bytes {
            if *byte == b'\n' {
                self.line(rt, name)?;
                name.clear();
            } else {
                name.push(*byte);
            }
        }
        Ok(())
    }

    // Judges the texts that standard input names, one a line.
    pub fn listed(&mut self, rt: &HostRuntime) -> io::Result<()> {
        let mut name = Name::new();
        let mut stdin = rt.stdin();
        let mut buf = [0u8; NAME_BYTES];
        // Standard input is read to its end, which no measure knows: the range only bounds the reads.
        for _ in 0..u64::MAX {
            match stdin.read(&mut buf) {
                Ok(0) => break,
                Ok(n) => self.lines(rt, &mut name, &buf[..n])?,
                Err(e) if e.kind() == ErrorKind::Interrupted => {}
                Err(e) => {
                    self.tally.count(Outcome::Unread);
                    return complain(rt, format_args!("-: {e}"));
                }
            }
        }
        self.line(rt, &name)
    }
}
