// How many texts came to what.
ghost use Rattle.std.specs.Prelude.{◌≡◌, ◌<◌, ◌&&◌, take, drop, replicate, Some, ◌==◌, nat_lt};
ghost use Rattle.checker.specs.Tallies.{outcome_of, stop_outcome, rank_of, add_up, counted, sum_from, all_zero, summary};

use crate::answer::{Reason, Said};
use std::fmt;

// What came of a text that was named. No Result: each is counted.
#[derive(Clone, Copy, Debug, PartialEq, Eq)]
pub enum Outcome {
    All,
    Refused,
    Open,
    Spent,
    NoRoom,
    NotYet,
    NoText,
    Few,
    Unread,
}

// What came of a text where judging stopped for this reason.
impl From<Reason> for Outcome {
    ghost from_gives = { λ reason o. o ≡ stop_outcome reason };

    fn from(reason: Reason) -> Outcome {
        match reason {
            Reason::Refused => Outcome::Refused,
            Reason::Open => Outcome::Open,
            Reason::Spent => Outcome::Spent,
            Reason::NoRoom => Outcome::NoRoom,
        }
    }
}

// What came of a text of which this was said.
impl<'a> From<Said<'a>> for Outcome {
    ghost from_gives = { λ said o. o ≡ outcome_of said };

    fn from(said: Said<'a>) -> Outcome {
        match said {
            Said::All(_) => Outcome::All,
            Said::Stopped(reason, _, _) => Outcome::from(reason),
            Said::NotYet(_) => Outcome::NotYet,
            Said::NoText(_) => Outcome::NoText,
            Said::Few(_, _) => Outcome::Few,
        }
    }
}

// The sum of the counts, or the largest number if that is less.
fn sum_of(counts: &[u64]) -> u64
    ensures { result ≡ sum_from 0 counts.now }
{
    counts.iter().fold(0, |sum, n| sum.saturating_add(*n))
}

// Is each count 0?
fn are_zero(counts: &[u64]) -> bool
    ensures { result ≡ all_zero counts.now }
{
    counts.iter().all(|n| *n == 0)
}

// How often each outcome came, and how many options were wrong.
#[derive(Clone, Copy, Debug, PartialEq, Eq)]
pub struct Tally {
    pub counts: [u64; 9],
    pub faults: u64,
}

impl Tally {
    // Nothing is counted yet.
    pub fn new() -> Tally
        ensures counts { result.counts ≡ replicate 9 0 }
        ensures faults { result.faults ≡ 0 }
    {
        Tally {
            counts: [0; 9],
            faults: 0,
        }
    }

    // One more text came to this.
    pub fn count(&mut self, outcome: Outcome)
        ensures counts { self.new.counts ≡ counted outcome self.old.counts }
        ensures faults { self.new.faults ≡ self.old.faults }
    {
        let n = &mut self.counts[outcome as usize];
        *n = n.saturating_add(1);
    }

    // One more option is wrong.
    pub fn count_fault(&mut self)
        ensures counts { self.new.counts ≡ self.old.counts }
        ensures faults { self.new.faults ≡ add_up self.old.faults 1 }
    {
        self.faults = self.faults.saturating_add(1);
    }

    // Was an option wrong?
    pub fn faulty(&self) -> bool
        ensures { result ≡ nat_lt 0 self.now.faults }
    {
        self.faults > 0
    }

    // How many texts were judged.
    fn texts(&self) -> u64
        ensures { result ≡ sum_from 0 (take 8 self.now.counts) }
    {
        sum_of(&self.counts[..8])
    }

    // Were several texts named?
    pub fn several(&self) -> bool
        ensures { result ≡ nat_lt 1 (sum_from 0 self.now.counts) }
    {
        sum_of(&self.counts) > 1
    }

    // Does every text hold, and is nothing wrong?
    pub fn all_hold(&self) -> bool
        ensures { result ≡ (all_zero (take 8 (drop 1 self.now.counts)) && self.now.faults == 0) }
    {
        are_zero(&self.counts[1..]) && self.faults == 0
    }
}

impl fmt::Display for Tally {
    ghost output = { λ t. Some (summary t.counts) };

    fn fmt<W: fmt::Write>(&self, f: &mut fmt::Formatter<W>) -> fmt::Result {
        let texts = self.texts();
        let [
            all,
            refused,
            open,
            spent,
            no_room,
            not_yet,
            no_text,
            few,
            unread,
        ] = self.counts;
        write!(
            f,
            "{texts} texts: {all} all, {refused} refused, {open} open, {spent} spent, {no_room} no room, "
        )?;
        write!(
            f,
            "{not_yet} not yet, {no_text} no text, {few} few; {unread} not read"
        )
    }
}
