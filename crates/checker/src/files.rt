// One text: read from its file, judged, and a line written about it.
ghost use Rattle.std.specs.Prelude.{◌≤◌, length, IfOk};

use crate::answer::judge_text;
use crate::report::Line;
use crate::tally::Outcome;
use std::fmt::Display;
use std::fs::File;
use std::io;
use std::io::{ErrorKind, Read};

// Says on standard error what is wrong.
pub fn complain<D: Display + Drop>(rt: &HostRuntime, what: D) -> io::Result<()> {
    eprintln!(rt; "check: {what}")
}

// Says on standard error what is wrong with what is named; the name need not be text.
pub fn complain_of<D: Display + Drop>(rt: &HostRuntime, name: &[u8], what: D) -> io::Result<()> {
    let stderr = rt.stderr();
    stderr.print("check: ")?;
    Print::write_all(&stderr, name)?;
    println!(stderr; ": {what}")
}

// Reads until the buffer is full or the source ends, and says how many bytes came.
fn fill<R: Read>(source: &mut R, buf: &mut [u8]) -> io::Result<usize>
    ensures { IfOk result (λ n. n ≤ length buf.new) }
{
    let mut at = 0;
    // The source is read to its end, which no measure knows: the range only bounds the reads.
    for _ in 0..u64::MAX {
        if at == buf.len() {
            break;
        }
        match source.read(&mut buf[at..]) {
            Ok(0) => break,
            Ok(n) => at += n,
            Err(e) if e.kind() == ErrorKind::Interrupted => {}
            Err(e) => return Err(e),
        }
    }
    Ok(at)
}

// Reads the text that is named, - for standard input, as far as the buffer goes, and says how many bytes came.
fn read_text(rt: &HostRuntime, name: &str, buf: &mut [u8]) -> io::Result<usize>
    ensures { IfOk result (λ n. n ≤ length buf.new) }
{
    if name == "-" {
        let mut stdin = rt.stdin();
        fill(&mut stdin, buf)
    } else {
        let mut file = File::open(rt, name)?;
        fill(&mut file, buf)
    }
}

// Judges the text that is named, writes a line about it, and says what came of it.
pub fn judge_file(
    rt: &HostRuntime,
    name: &str,
    steps: u64,
    text: &mut [u8],
    work: &mut [u32],
) -> io::Result<Outcome>
    requires { length text.old ≤ 32769 }
{
    match read_text(rt, name, text) {
        Ok(len) => {
            let said = judge_text(&text[..len], steps, work);
            let line = Line { name, said };
            println!(rt; "{line}")?;
            Ok(Outcome::from(said))
        }
        Err(e) => {
            complain(rt, format_args!("{name}: {e}"))?;
            Ok(Outcome::Unread)
        }
    }
}
