// Names looked up: among those that are bound, and among those that were declared.
ghost use Rattle.std.specs.Prelude.{◌≡◌, List};
ghost use Rattle.syntax.specs.Surface.{Name, same};
ghost use Rattle.elaboration.specs.Elaboration.{Global};
ghost use Rattle.resolver.specs.Names.{NameAt, Named, GlobalsAt, Tabled, ScopeAt, Scoped, global_sign, index_found};

use crate::walk::FrameKind;
use syntax::compare::same_items;
use terms::sign::{Sign, sign_at};

// The names at hand: those that were declared, in the rows of a table, and those that are bound, in frames; both by their places in
// the tree. That they are is a clause: a ghost field may have one proof only, and frames can be read as names in several ways.
#[derive(Clone, Copy)]
pub struct Names<'a> {
    pub tree: &'a [u32],
    pub table: &'a [u32],
    pub frames: &'a [u32],
}

// The name that stands there.
#[tactic(auto, using(crate::proofs::Naming::named_within))]
pub fn name_at(tree: &[u32], at: usize) -> &[u32]
    requires { Named tree.now at }
    ensures { (x : Name) → NameAt tree.now at x → result.now ≡ x }
{
    let start = at + 1;
    let end = start + tree[at] as usize;
    &tree[start..end]
}

// Does this name stand there?
fn is_name(tree: &[u32], at: usize, name: &[u32]) -> bool
    requires { Named tree.now at }
    ensures { (x : Name) → NameAt tree.now at x → result ≡ same x name.now }
{
    same_items(name_at(tree, at), name)
}

impl Names<'_> {
    // The de Bruijn index of a name that is bound. One loop looks and counts: a filter and a position would be two, one in the other.
    pub fn index_of(&self, name: &[u32]) -> Option<usize>
        requires { Scoped self.now.tree.now self.now.frames.now }
        ensures { (ys : List Name) → ScopeAt self.now.tree.now self.now.frames.now ys → result ≡ index_found ys name.now }
    {
        let mut index = 0;
        for frame in self.frames.chunks_exact(2) {
            if frame[0] == FrameKind::Bound as u32 {
                if is_name(self.tree, frame[1] as usize, name) {
                    return Some(index);
                }
                index += 1;
            }
        }
        None
    }

    // The node for the first global of that name.
    pub fn lookup(&self, name: &[u32]) -> Option<Sign>
        requires { Tabled self.now.tree.now self.now.table.now }
        ensures { (gs : List Global) → GlobalsAt self.now.tree.now self.now.table.now gs → result ≡ global_sign gs name.now }
    {
        for row in self.table.chunks_exact(4) {
            if is_name(self.tree, row[0] as usize, name) {
                return Some(sign_at(row, 1));
            }
        }
        None
    }
}
