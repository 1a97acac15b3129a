// Judging along the declarations of a text.
ghost use Rattle.std.specs.Prelude.{◌≡◌, ℕ, ◌+◌, ◌*◌, ◌≤◌, List, length};
ghost use Rattle.syntax.specs.Surface.{Decl};
ghost use Rattle.judge.specs.Promise.{CheckedSays};
ghost use Rattle.judge.specs.Judging.{CanBegin, Begins, stop_answer};

use crate::Checked;
use crate::next::judge_next;
use kernel::failure::Failure;

// Where judging stands: the place of the next declaration in the tree, how many check before it, the words of the table of names and
// of the store that are in use.
#[derive(Clone, Copy, Debug, PartialEq, Eq)]
pub struct Spot {
    pub place: usize,
    pub count: usize,
    pub rows: usize,
    pub used: usize,
}

// The answer where judging stops behind so many declarations.
fn stopped(why: Failure, after: usize) -> Checked
    ensures { result ≡ stop_answer why after }
{
    match why {
        Failure::Refused => Checked::Refused(after),
        Failure::Spent => Checked::Spent(after),
        Failure::NoRoom => Checked::NoRoom(after),
    }
}

// Judges so many declarations, which stand in the tree one behind the other. The words to work in are divided: two a declaration for the
// index and four for the table of names; with these, twice the tree for the store; and the rest for the kernel.
pub fn judge_row(
    tree: &[u32],
    count: usize,
    names: &mut [u32],
    work: &mut [u32],
    most: u64,
) -> Checked
    requires { CanBegin tree.now count (length names.old) (length work.old) }
    ensures says { (t : List ℕ) (ds : List Decl) (w : ℕ) → Begins t tree.now count (length names.old) (length work.old) ds
        → w + (2 * count + 2 * length tree.now) ≤ 65536 + (16 * length t + length work.old) → CheckedSays t most w result }
    ensures judged { result ≡ Checked.Few → ⊥ }
{
    let (index, rest) = work.split_at_mut(2 * count);
    let (table, rest) = rest.split_at_mut(4 * count);
    let (store, work) = rest.split_at_mut(2 * tree.len() - 4 * count);
    let mut spot = Spot {
        place: 0,
        count: 0,
        rows: 0,
        used: 0,
    };
    for after in 0..count {
        match judge_next(tree, index, table, store, names, work, spot, most) {
            Ok(next) => spot = next,
            Err(why) => return stopped(why, after),
        }
    }
    Checked::All(count)
}
