// An entry put behind the environment. The table and the store stay two slices with the numbers of what is used: a caller keeps the numbers
// between the calls, but lends the words anew for each, so a struct of them would be built for one call alone.
ghost use Rattle.std.specs.Prelude.{◌≡◌, ℕ, ◌+◌, ◌*◌, ◌<◌, ◌≤◌, List, [], ◌∷◌, ◌++◌, length, take};
ghost use Rattle.std.proofs.Math.ListN.{get_elem?};
ghost use Rattle.theory.specs.Terms.{Term, size};
ghost use Rattle.theory.specs.Environment.{Entry, Env, defined, assumed};
ghost use Rattle.terms.specs.Words.{At, Holds, put, number};
ghost use Rattle.terms.specs.Writing.{Appends};
ghost use Rattle.reduction.specs.Store.{put_entry, EnvAt};
ghost use Rattle.reduction.specs.Lookup.{Declares, Declared};

use terms::copy::copy_words;
use terms::number::put_number;
use terms::walk::end_of;

// A definition: the type and the body that stand at these places.
pub fn declare_definition(
    index: &mut [u32],
    count: usize,
    store: &mut [u32],
    used: usize,
    terms: &[u32],
    type_at: usize,
    body_at: usize,
) -> Option<usize>
    requires typed { Holds terms.now type_at }
    requires body { Holds terms.now body_at }
    requires table { 2 * count ≤ length index.old }
    requires entries { used ≤ length store.old }
    ensures { (t a : Term) (x y : List ℕ) → At terms.now type_at a x → At terms.now body_at t y → Declares index.old store.old count used index.new store.new (defined t a) (3 + 3 * (size a + size t)) result }
{
    let type_end = end_of(terms, type_at);
    let body_end = end_of(terms, body_at);
    if index.len() - 2 * count < 2 {
        return None;
    }
    if store.len() - used < 3 + ((type_end - type_at) + (body_end - body_at)) {
        return None;
    }
    let body = copy_words(terms, type_at, type_end, store, used + 3);
    let end = copy_words(terms, body_at, body_end, store, body);
    enter_definition(index, count, store, used, body);
    Some(end)
}

// An axiom: the type that stands at this place.
pub fn declare_axiom(
    index: &mut [u32],
    count: usize,
    store: &mut [u32],
    used: usize,
    terms: &[u32],
    type_at: usize,
) -> Option<usize>
    requires typed { Holds terms.now type_at }
    requires table { 2 * count ≤ length index.old }
    requires entries { used ≤ length store.old }
    ensures { (a : Term) (x : List ℕ) → At terms.now type_at a x → Declares index.old store.old count used index.new store.new (assumed a) (3 + 3 * size a) result }
{
    let type_end = end_of(terms, type_at);
    if index.len() - 2 * count < 2 {
        return None;
    }
    if store.len() - used < 3 + (type_end - type_at) {
        return None;
    }
    let end = copy_words(terms, type_at, type_end, store, used + 3);
    enter_axiom(index, count, store, used);
    Some(end)
}

// The entry whose words behind the first three stand in the store, with the mark that `find_entry` reads: 0 a definition, 1 an axiom.
fn enter(index: &mut [u32], count: usize, store: &mut [u32], used: usize, mark: u32, value: usize)
    requires table { 2 * (count + 1) ≤ length index.old }
    requires entry { used + 3 ≤ length store.old }
    ensures { (d : Entry) (new : List ℕ) → put_entry d [] ≡ mark ∷ number value new → Declared index.old store.old count used index.new store.new d new }
{
    store[used] = mark;
    put_number(store, used + 1, value);
    put_number(index, 2 * count, used);
}

// A definition: its type stands in the store behind those three words, its body from `body_at` on.
pub fn enter_definition(
    index: &mut [u32],
    count: usize,
    store: &mut [u32],
    used: usize,
    body_at: usize,
)
    requires table { 2 * (count + 1) ≤ length index.old }
    requires entry { used + 3 ≤ length store.old }
    requires order { used + 3 ≤ body_at }
    ensures { (t a : Term) → body_at ≡ used + 3 + 3 * size a → Declared index.old store.old count used index.new store.new (defined t a) (put a (put t [])) }
{
    enter(index, count, store, used, 0, body_at - (used + 3));
}

// An axiom: its type stands in the store behind those three words.
pub fn enter_axiom(index: &mut [u32], count: usize, store: &mut [u32], used: usize)
    requires table { 2 * (count + 1) ≤ length index.old }
    requires entry { used + 3 ≤ length store.old }
    ensures { (a : Term) → Declared index.old store.old count used index.new store.new (assumed a) (put a []) }
{
    enter(index, count, store, used, 1, 0);
}
