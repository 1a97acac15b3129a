// Terms walked from left to right.
ghost use Rattle.std.specs.Prelude.{◌≡◌, ℕ, ◌+◌, ◌*◌, List};
ghost use Rattle.theory.specs.Terms.{Term, size};
ghost use Rattle.terms.specs.Words.{At, Holds, Decides, root};

use crate::sign::sign_at;

// Where the term that stands there ends.
pub fn end_of(words: &[u32], at: usize) -> usize
    requires { Holds words.now at }
    ensures { (t : Term) (rest : List ℕ) → At words.now at t rest → result ≡ at + 3 * size t }
{
    // No `for` and no iterator: how many nodes come is known only as they are read.
    let mut place = at;
    let mut pending: usize = 1;
    while pending > 0 {
        if sign_at(words, place).has_parts() {
            pending += 1;
        } else {
            pending -= 1;
        }
        place += 3;
    }
    place
}

// Are the three words at the two places the same?
fn same_node(left: &[u32], i: usize, right: &[u32], j: usize) -> bool
    requires left { Holds left.now i }
    requires right { Holds right.now j }
    ensures { (t u : Term) (x y : List ℕ) → At left.now i t x → At right.now j u y → Decides (root t ≡ root u) result }
{
    (left[i], left[i + 1], left[i + 2]) == (right[j], right[j + 1], right[j + 2])
}

// Are the terms at the two places equal? Pairs of terms still to be compared stand one behind the other on both sides.
pub fn equal(left: &[u32], i: usize, right: &[u32], j: usize) -> bool
    requires left { Holds left.now i }
    requires right { Holds right.now j }
    ensures { (t u : Term) (x y : List ℕ) → At left.now i t x → At right.now j u y → Decides (t ≡ u) result }
{
    // A loop with a measure, the nodes that are left on both sides: how many pairs come is known only as they are read.
    let mut p = i;
    let mut q = j;
    let mut pairs: usize = 1;
    while pairs > 0 {
        if !same_node(left, p, right, q) {
            return false;
        }
        if sign_at(left, p).has_parts() {
            pairs += 1;
        } else {
            pairs -= 1;
        }
        p += 3;
        q += 3;
    }
    true
}
