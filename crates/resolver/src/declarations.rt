// Declarations resolved, and what they add to the table of names.
ghost use Rattle.std.specs.Prelude.{◌≡◌, ℕ, ◌+◌, ◌^◌, ◌<◌, ◌≤◌, List, ◌∷◌, ◌++◌, length, take};
ghost use Rattle.terms.specs.Words.{sign_words};
ghost use Rattle.terms.specs.Writing.{Appends};
ghost use Rattle.syntax.specs.Surface.{Decl};
ghost use Rattle.elaboration.specs.Elaboration.{Global};
ghost use Rattle.elaboration.specs.Declarations.{globals_of};
ghost use Rattle.resolver.specs.Names.{GlobalsAt};
ghost use Rattle.resolver.specs.Entries.{DeclAt, DeclStands, DeclSetting, DeclReady, DeclResolves};

use crate::walk::{Nowhere, Resolved, resolve_term};
use syntax::tag::Tag;
use terms::sign::{Sign, push_sign};

// A declaration is written: its type, then from `body` on its body, if it has one; up to `end`, and the tree goes on at `behind`.
#[derive(Clone, Copy, Debug, PartialEq, Eq)]
pub struct Declared {
    pub body: Option<usize>,
    pub end: usize,
    pub behind: usize,
}

// One row more: the place of a name, and what it stands for.
fn add_row(table: &mut [u32], used: usize, place: usize, sign: Sign) -> usize
    requires room { used + 4 ≤ length table.old }
    requires near { place < 2 ^ 32 }
    ensures { Appends table.old used (place ∷ sign_words sign) table.new result }
{
    table[used] = place as u32;
    push_sign(table, used + 1, sign)
}

// The names that the definition or axiom at `at` adds, as entry `number`, behind the rows in the first `used` words.
pub fn declare(tree: &[u32], at: usize, table: &mut [u32], used: usize, number: u32) -> usize
    requires stands { DeclStands tree.now at }
    requires near { length tree.now ≤ 2 ^ 32 }
    requires room { used + 4 ≤ length table.old }
    ensures ends { result ≡ used + 4 }
    ensures adds { (gs : List Global) (d : Decl) → GlobalsAt tree.now (take used table.old) gs → DeclAt tree.now at d → GlobalsAt tree.now (take result table.new) (gs ++ globals_of number d) }
{
    add_row(table, used, at + 1, Sign::Def(number))
}

// The definition or axiom that stands there, its names resolved. Its parameters are those of a term.
pub fn resolve_declaration(
    tree: &[u32],
    at: usize,
    table: &[u32],
    stack: &mut [u32],
    out: &mut [u32],
    start: usize,
) -> Result<Declared, Nowhere>
    requires ready { DeclReady tree.now at table.now stack.old out.old start }
    requires near { length tree.now ≤ 2 ^ 32 }
    ensures { (gs : List Global) (d : Decl) (rest : List ℕ) → DeclSetting tree.now at table.now stack.old out.old start gs d rest → DeclResolves tree.now gs d rest out.old start out.new result }
{
    let type_at = at + 3 + tree[at + 1] as usize;
    let top = stack.len();
    let a_type = resolve_term(tree, type_at, table, stack, top, out, start)?;
    if tree[at] == Tag::Axiom as u32 {
        return Ok(Declared {
            body: None,
            end: a_type.end,
            behind: a_type.behind,
        });
    }
    let Resolved { end, behind } = resolve_term(
        tree,
        a_type.behind,
        table,
        stack,
        top,
        out,
        a_type.end,
    )?;
    Ok(Declared {
        body: Some(a_type.end),
        end,
        behind,
    })
}
