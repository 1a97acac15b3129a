// The types of terms without parts, written on the heap.
ghost use Rattle.std.specs.Prelude.{◌≡◌, ℕ, suc, ◌+◌, ◌*◌, ◌<◌, ◌≤◌, List, length, drop};
ghost use Rattle.std.proofs.Math.Option.{some};
ghost use Rattle.std.proofs.Math.ListN.{get_elem?};
ghost use Rattle.theory.specs.Terms.{Term, sort, h_def, lift as lift_term};
ghost use Rattle.theory.specs.Environment.{Env, head_type_lem};
ghost use Rattle.theory.specs.Reduction.{map_option};
ghost use Rattle.reduction.specs.Store.{EnvAt};
ghost use Rattle.kernel.specs.Machine.{ContextAt};
ghost use Rattle.kernel.specs.Leaves.{LeafSays, ContextFits};

use crate::failure::Failure;
use reduction::store::{Environment, Found};
use terms::copy::copy_term;
use terms::lift::lift;
use terms::number::number_at;
use terms::sign::{Index, Level, Sign, push_sign};

// The type of a sort, the next sort: where it ends.
pub fn sort_type(heap: &mut [u32], top: usize, level: Level) -> Result<usize, Failure>
    requires small { level.0 < 1000 }
    requires order { top ≤ length heap.old }
    ensures { (stack : ℕ) → LeafSays heap.old top stack heap.new (some (sort (suc level.0))) result }
{
    if heap.len() - top < 3 {
        return Err(Failure::NoRoom);
    }
    Ok(push_sign(heap, top, Sign::Sort(Level(level.0 + 1))))
}

// The type of a definition or an axiom.
pub fn head_type(env: Environment, i: u32, heap: &mut [u32], top: usize) -> Result<usize, Failure>
    requires { top ≤ length heap.old }
    ensures { (e : Env) (stack : ℕ) → EnvAt env.entry.index.now env.entry.store.now e → LeafSays heap.old top stack heap.new (head_type_lem e (h_def i)) result }
{
    match env.find_entry(i).ok_or(Failure::Refused)? {
        Found::Definition(at, _) | Found::Axiom(at) => {
            copy_term(env.store, at, heap, top).ok_or(Failure::NoRoom)
        }
        Found::Inductive(_) => Err(Failure::Refused),
    }
}

// The type of a variable, lifted over the binders in between. Parts of the machine and not the machine: no clause need say what stays.
pub fn variable_type(
    terms: &[u32],
    context: &[u32],
    names: usize,
    index: Index,
    heap: &mut [u32],
    top: usize,
    stack: &mut [u32],
) -> Result<usize, Failure>
    requires context { ContextFits terms.now context.now names }
    requires order { top ≤ length heap.old }
    ensures { (g : List Term) → ContextAt terms.now g (drop names context.now) → names + 2 * length g ≡ length context.now
        → LeafSays heap.old top (length stack.old) heap.new (map_option (lift_term 0 (suc index.0)) (get_elem? g index.0)) result }
{
    let x = index.0;
    if (context.len() - names) / 2 <= x {
        return Err(Failure::Refused);
    }
    let place = number_at(context, names + 2 * x);
    Ok(lift(terms, place, 0, x + 1, heap, top, stack)?)
}
