// Judging the next declaration: its names resolved, its entry settled, and declared. Each slice is a region of the words that are lent, and
// the parameters are no struct: which of them are written differs from call to call.
ghost use Rattle.std.specs.Prelude.{ℕ, ◌+◌, ◌*◌, ◌^◌, ◌≤◌, List, ◌∷◌, length};
ghost use Rattle.theory.specs.Environment as theory;
ghost use Rattle.reduction.specs.Lookup.{Declared as Extends};
ghost use Rattle.resolver.specs.Entries.{put_entry, DeclSetting, DeclReady};
ghost use Rattle.syntax.specs.Surface.{Decl};
ghost use Rattle.elaboration.specs.Elaboration.{Global};
ghost use Rattle.judge.specs.Judging.{Ordered, BodyAt, EntryWritten, Judging, CanJudge, Steps};

use crate::row::Spot;
use crate::settle::settle;
use kernel::failure::Failure;
use reduction::declare::{enter_axiom, enter_definition};
use reduction::store::Environment;
use resolver::declarations::{Declared, declare, resolve_declaration};

// The entry that the declaration at a place of the tree stands for, written into the store from `start` on; none if a name is nowhere.
fn resolve_next(
    tree: &[u32],
    place: usize,
    table: &[u32],
    names: &mut [u32],
    store: &mut [u32],
    start: usize,
) -> Option<Declared>
    requires ready { DeclReady tree.now place table.now names.old store.old start }
    requires near { length tree.now ≤ 2 ^ 32 }
    ensures { (gs : List Global) (d : Decl) (rest : List ℕ) → DeclSetting tree.now place table.now names.old store.old start gs d rest
        → EntryWritten tree.now gs d rest store.old start store.new result }
{
    resolve_declaration(tree, place, table, names, store, start).ok()
}

// The entry whose terms stand in the store, three words behind the first `used`, put behind the environment.
fn enter(index: &mut [u32], count: usize, store: &mut [u32], used: usize, body: Option<usize>)
    requires table { 2 * (count + 1) ≤ length index.old }
    requires room { used + 3 ≤ length store.old }
    requires order { Ordered (used + 3) body }
    ensures { (c : theory.Entry) → BodyAt (used + 3) body c → Extends index.old store.old count used index.new store.new c (put_entry c) }
{
    match body {
        Some(place) => enter_definition(index, count, store, used, place),
        None => enter_axiom(index, count, store, used),
    }
}

// The next declaration. Its entry is written behind the store, three words from its end on, and stays there if it checks.
pub fn judge_next(
    tree: &[u32],
    index: &mut [u32],
    table: &mut [u32],
    store: &mut [u32],
    names: &mut [u32],
    work: &mut [u32],
    spot: Spot,
    most: u64,
) -> Result<Spot, Failure>
    requires { CanJudge tree.now index.old table.old store.old (length names.old) spot }
    ensures { (t : List ℕ) (done : List Decl) (d : Decl) (rest : List Decl) (gs : List Global) (e : theory.Env)
        → Judging t tree.now index.old table.old store.old (length names.old) spot done (d ∷ rest) gs e
        → Steps t tree.now index.new table.new store.new (length names.new) most (length work.old) done d rest gs e result }
{
    let start = spot.used + 3;
    let rows = spot.rows;
    let entry = resolve_next(tree, spot.place, &table[..rows], names, store, start).ok_or(
        Failure::Refused,
    )?;
    let env = Environment {
        index: &index[..2 * spot.count],
        store,
    };
    settle(env, start, entry.body, (entry.end - start) / 3, work, most)?;
    enter(index, spot.count, store, spot.used, entry.body);
    let more = declare(tree, spot.place, table, rows, spot.count as u32);
    Ok(Spot {
        place: entry.behind,
        count: spot.count + 1,
        rows: more,
        used: entry.end,
    })
}
