// The judge: one call, one answer, under one promise.
// The memory is fixed and lent by the caller: tree, names, index, table and store are regions of the words, with how much of them is in use.

#![tactic(auto)]

ghost use Rattle.std.specs.Prelude.{length};
ghost use Rattle.judge.specs.Promise.{CheckedPost};

use row::judge_row;
use syntax::parse::parse;

mod next;
mod row;
mod settle;

// What came of a text. No Result: each is an answer with numbers of its own, and none a failure of the call.
#[derive(Clone, Copy, Debug, PartialEq, Eq)]
pub enum Checked {
    // All of its declarations check, so many.
    All(usize),
    // Behind so many that check, the next has no derivation, whatever stands for what it leaves out.
    Refused(usize),
    // Behind so many that check, the next leaves something out, and what it must be was not found.
    Open(usize),
    // Behind so many that check, a term in question of the next takes more steps than allowed.
    Spent(usize),
    // Behind so many that check, a term in question of the next takes more words than lent.
    NoRoom(usize),
    // It has forms of this stage, which has not landed.
    NotYet(u32),
    // It is no row of declarations.
    NoText,
    // Fewer than 65,536 words and 16 for each byte were lent.
    Few,
}

// Judges a text with at most so many steps for each term in question, in the words lent.
pub fn check(text: &[u8], most: u64, work: &mut [u32]) -> Checked
    ensures { CheckedPost text.now most (length work.old) result }
{
    let words = work.len();
    if words < 65536 || (words - 65536) / 16 < text.len() {
        return Checked::Few;
    }
    let (tree, rest) = work.split_at_mut(4 * text.len());
    let (names, rest) = rest.split_at_mut(3 * text.len());
    let Ok(parsed) = parse(text, tree, names) else {
        return Checked::NoText;
    };
    if parsed.stage > 0 {
        return Checked::NotYet(parsed.stage);
    }
    judge_row(&tree[..parsed.words], parsed.count, names, rest, most)
}
