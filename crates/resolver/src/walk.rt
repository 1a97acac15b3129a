// A plain term turned into a term in words, node by node, from left to right. What waits stands on a stack that grows down, two words
// a frame: what kind of frame it is; then the place of the name that it is under.
ghost use Rattle.std.specs.Prelude.{◌≡◌, ℕ, ◌+◌, ◌^◌, ◌<◌, ◌≤◌, List, length, drop};
ghost use Rattle.syntax.specs.Surface.{Name, Expr};
ghost use Rattle.elaboration.specs.Elaboration.{Global};
ghost use Rattle.resolver.specs.Frames.{Frame, FramesAt, Framed, opened, entered, kind, kind_word, PushesTwo, Setting, Ready, Resolves};

use crate::names::Names;
use crate::nodes::parts_at;
use terms::sign::{Sign, push_sign};

// What stands in a frame: an argument or a body that waits, or a name that is bound, since its body is at hand.
#[derive(Clone, Copy, Debug, PartialEq, Eq)]
pub enum FrameKind {
    Argument,
    Body,
    Bound,
}

// The term is written up to `end`, and the tree goes on at `behind`.
#[derive(Clone, Copy, Debug, PartialEq, Eq)]
pub struct Resolved {
    pub end: usize,
    pub behind: usize,
}

// The name at that place is nowhere.
#[derive(Clone, Copy, Debug, PartialEq, Eq)]
pub struct Nowhere(pub usize);

// What waits behind a node with parts; no From, since a sign is not a kind of frame.
fn kind_of(sign: Sign) -> FrameKind
    ensures { kind_word result ≡ kind sign }
{
    match sign {
        Sign::App => FrameKind::Argument,
        _ => FrameKind::Body,
    }
}

// The second part of a node waits.
// The stack, `free` and `top` are no struct: each method would also promise that top, length and the lent stack stay, which is longer.
fn wait(stack: &mut [u32], free: usize, sign: Sign, name: usize) -> usize
    requires low { 2 ≤ free }
    requires within { free ≤ length stack.old }
    requires near { name < 2 ^ 32 }
    ensures { PushesTwo stack.old free (kind sign) name stack.new result }
{
    stack[free - 2] = kind_of(sign) as u32;
    stack[free - 1] = name as u32;
    free - 2
}

// The first frame that waits.
fn next_open(stack: &[u32], free: usize, top: usize) -> usize
    requires { Framed stack.now free top }
    ensures { (fs : List Frame) (base : List ℕ) → FramesAt stack.now free top fs base → FramesAt stack.now result top (opened fs) base }
{
    stack[free..top]
        .chunks_exact(2)
        .position(|frame| frame[0] != FrameKind::Bound as u32)
        .map_or(top, |n| free + 2 * n)
}

// The top frame, which waits, is taken up.
fn enter(stack: &mut [u32], free: usize, top: usize) -> usize
    requires framed { Framed stack.old free top }
    requires some { free < top }
    ensures { (fs : List Frame) (base : List ℕ) → FramesAt stack.old free top fs base → FramesAt stack.new result top (entered fs) base }
{
    if stack[free] == FrameKind::Argument as u32 {
        return free + 2;
    }
    stack[free] = FrameKind::Bound as u32;
    free
}

// The term that stands there, its names resolved.
// No struct of the parameters: the caller goes on with the stack and the output, and would take it apart after each call.
pub fn resolve_term(
    tree: &[u32],
    at: usize,
    table: &[u32],
    stack: &mut [u32],
    top: usize,
    out: &mut [u32],
    start: usize,
) -> Result<Resolved, Nowhere>
    requires ready { Ready tree.now at table.now stack.old top out.old start }
    requires near { length tree.now ≤ 2 ^ 32 }
    ensures { (gs : List Global) (ys : List Name) (e : Expr) (rest : List ℕ) → Setting tree.now at table.now stack.old top out.old start gs ys e rest → Resolves tree.now gs ys e rest out.old start out.new result × (drop top stack.new ≡ drop top stack.old) }
{
    let mut place = at;
    let mut end = start;
    let mut free = top;
    // A loop with what waits on the stack: how many nodes come is known only as they are read.
    loop {
        let names = Names {
            tree,
            table,
            frames: &stack[free..],
        };
        let sign = names.node_sign(place).ok_or(Nowhere(place + 1))?;
        end = push_sign(out, end, sign);
        let name = place + 1;
        place = parts_at(tree, place);
        if sign.has_parts() {
            free = wait(stack, free, sign, name);
        } else {
            free = next_open(stack, free, top);
            if free == top {
                return Ok(Resolved { end, behind: place });
            }
            free = enter(stack, free, top);
        }
    }
}
