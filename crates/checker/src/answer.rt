// What is said of a text: a slice of the buffer, so that it has at most the 32,769 bytes of that is a clause.
ghost use Rattle.std.specs.Prelude.{◌≡◌, ℕ, ◌+◌, ◌-◌, ◌*◌, ◌≤◌, ◌⊎◌, length, codes, IsUtf8, Some};
ghost use Rattle.judge.specs.Promise.{CheckedPost};
ghost use Rattle.judge.specs.declared.Checked.{Checked};
ghost use Rattle.syntax.specs.Headers.{TokenAt};
ghost use Rattle.syntax.specs.Lines.{line_of};
ghost use Rattle.checker.specs.Answers.{HasDecl, Unreadable, StopsAt, Says, reason_text};

use judge::{Checked, check};
use std::fmt;
use std::str::from_utf8;
use syntax::locate::{find_header, line_at, token_at};
use syntax::parse::parse;
use syntax::problem::{Problem, Stop};

// Why not all declarations hold. No error: it is what is said of a text.
#[derive(Clone, Copy, Debug, PartialEq, Eq)]
pub enum Reason {
    Refused,
    Open,
    Spent,
    NoRoom,
}

// Where the declaration stands that was judged last: its line, keyword and name.
#[derive(Clone, Copy, Debug, PartialEq, Eq)]
pub struct Place<'a> {
    pub line: usize,
    pub keyword: &'a str,
    pub name: &'a str,
}

// Where a text stopped being one, and why.
#[derive(Clone, Copy, Debug, PartialEq, Eq)]
pub struct Fault {
    pub line: usize,
    pub what: &'static str,
}

// What is said of a text: the answers of the judge, each with what is written about it; no failure, so no Result.
#[derive(Clone, Copy, Debug, PartialEq, Eq)]
pub enum Said<'a> {
    All(usize),
    Stopped(Reason, usize, Place<'a>),
    NotYet(u32),
    NoText(Fault),
    Few(usize, usize),
}

impl fmt::Display for Reason {
    ghost output = { λ r. Some (reason_text r) };

    fn fmt<W: fmt::Write>(&self, f: &mut fmt::Formatter<W>) -> fmt::Result {
        f.write_str(match self {
            Reason::Refused => "refused",
            Reason::Open => "open",
            Reason::Spent => "spent",
            Reason::NoRoom => "no room",
        })
    }
}

// The fewest words with which a text of so many bytes is judged.
fn needed(len: usize) -> usize
    requires { len ≤ 32769 }
    ensures { result ≡ 65536 + 16 * len }
{
    65536 + 16 * len
}

// Bytes that are text, or else a question mark.
pub fn as_text(bytes: &[u8]) -> &str
    ensures text { IsUtf8 bytes.now → result.now ≡ bytes.now }
    ensures other { (IsUtf8 bytes.now → ⊥) → result.now ≡ codes "?" }
{
    from_utf8(bytes).unwrap_or("?")
}

// Judging stopped at the declaration behind `after` others.
fn stopped(text: &[u8], reason: Reason, after: usize) -> Said<'_>
    requires short { length text.now ≤ 32769 }
    requires some { HasDecl text.now after }
    ensures { StopsAt text.now reason after result }
{
    let Some(header) = find_header(text, after) else {
        unreachable()
    };
    let line = line_at(text, header.at);
    let keyword = as_text(header.keyword);
    let name = as_text(header.name);
    Said::Stopped(
        reason,
        after,
        Place {
            line,
            keyword,
            name,
        },
    )
}

// Where a problem stands: behind what is too much, or else at the token that was not expected.
fn stop_at(text: &[u8], stop: Stop) -> usize
    ensures within { result ≤ length text.now }
    ensures place { (result ≡ length text.now - stop.left) ⊎ TokenAt text.now (length text.now - stop.left) result }
{
    let left = stop.left.min(text.len());
    match stop.problem {
        Problem::TooLong | Problem::TooDeep | Problem::Twice => text.len() - left,
        _ => token_at(text, left),
    }
}

// Why a text does not read, and on which line.
fn find_fault(text: &[u8], work: &mut [u32]) -> Fault
    requires short { length text.now ≤ 32769 }
    requires room { 65536 + 16 * length text.now ≤ length work.old }
    requires unreadable { Unreadable text.now }
    ensures { (at : ℕ) × (result.line ≡ line_of text.now at) }
{
    let (out, rest) = work.split_at_mut(4 * text.len());
    let (names, _) = rest.split_at_mut(3 * text.len());
    let Err(stop) = parse(text, out, names) else {
        unreachable()
    };
    Fault {
        line: line_at(text, stop_at(text, stop)),
        what: stop.problem.text(),
    }
}

// Judges a text with so many steps allowed.
pub fn judge_text<'a>(text: &'a [u8], steps: u64, work: &mut [u32]) -> Said<'a>
    requires { length text.now ≤ 32769 }
    ensures { (c : Checked) × CheckedPost text.now steps (length work.old) c × Says text.now (length work.old) c result }
{
    match check(text, steps, work) {
        Checked::All(n) => Said::All(n),
        Checked::Refused(n) => stopped(text, Reason::Refused, n),
        Checked::Open(n) => stopped(text, Reason::Open, n),
        Checked::Spent(n) => stopped(text, Reason::Spent, n),
        Checked::NoRoom(n) => stopped(text, Reason::NoRoom, n),
        Checked::NotYet(stage) => Said::NotYet(stage),
        Checked::NoText => Said::NoText(find_fault(text, work)),
        Checked::Few => Said::Few(work.len(), needed(text.len())),
    }
}
