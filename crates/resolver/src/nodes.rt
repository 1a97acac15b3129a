// The nodes of plain terms: what each becomes, and where its parts begin.
ghost use Rattle.std.specs.Prelude.{◌≡◌, ℕ, ◌+◌, ◌≤◌, List, length, Some, slice_index_or};
ghost use Rattle.syntax.specs.Surface.{Name, Expr};
ghost use Rattle.syntax.specs.Tags.{TagOf};
ghost use Rattle.elaboration.specs.Elaboration.{Global, one_index_head, indexed_head};
ghost use Rattle.resolver.specs.Resolving.{name_term, indexed_term};
ghost use Rattle.resolver.specs.Names.{NameAt, Named, GlobalsAt, Tabled};
ghost use Rattle.resolver.specs.Nodes.{term_sign, head_sign, recursor_sign, node_sign_lem, PlainAt, Plain, IndexedAt, Indexed, AreKnown, KnownAs, PartsAt};

use crate::names::{Names, name_at};
use syntax::tag::Tag;
use terms::sign::{Index, Level, Sign};

// The names that stand for something of themselves, a byte a word.
const EQ: &[u32] = &[b'e' as u32, b'q' as u32];

const SAME: &[u32] = &[b's' as u32, b'a' as u32, b'm' as u32, b'e' as u32];

const ALONG: &[u32] = &[
    b'a' as u32,
    b'l' as u32,
    b'o' as u32,
    b'n' as u32,
    b'g' as u32,
];

// The tag of the plain term that stands there.
fn tag_at(tree: &[u32], place: usize) -> Tag
    requires { Plain tree.now place }
    ensures tag { TagOf (slice_index_or tree.now place 0) (Some result) }
    ensures within { place + 2 ≤ length tree.now }
{
    let Some(tag) = Tag::of(tree[place]) else {
        unreachable()
    };
    tag
}

// The recursor of a data type into Type i.
fn recursor(sign: Sign, i: u32) -> Option<Sign>
    ensures { result ≡ recursor_sign sign i }
{
    match sign {
        Sign::Data(k) => Some(Sign::Rec(k, i)),
        _ => None,
    }
}

impl Names<'_> {
    // What a name stands for: the innermost binding, else what was declared.
    fn name_sign(&self, at: usize) -> Option<Sign>
        requires known { AreKnown self.now }
        requires named { Named self.now.tree.now at }
        ensures { (gs : List Global) (ys : List Name) (x : Name) → KnownAs self.now gs ys → NameAt self.now.tree.now at x → result ≡ term_sign (name_term gs ys x) }
    {
        let name = name_at(self.tree, at);
        match self.index_of(name) {
            Some(index) => Some(Sign::Var(Index(index))),
            None => self.lookup(name),
        }
    }

    // What a name with one number stands for: eq.i, same.i, or a recursor.
    fn one_index(&self, name: &[u32], i: u32) -> Option<Sign>
        requires { Tabled self.now.tree.now self.now.table.now }
        ensures { (gs : List Global) → GlobalsAt self.now.tree.now self.now.table.now gs → result ≡ head_sign (one_index_head gs name.now i) }
    {
        if name == EQ {
            return Some(Sign::Eq(i));
        }
        if name == SAME {
            return Some(Sign::Refl(i));
        }
        self.lookup(name).and_then(|sign| recursor(sign, i))
    }

    // What a name with numbers stands for where nothing hides it.
    fn numbered(&self, name: &[u32], numbers: &[u32]) -> Option<Sign>
        requires { Tabled self.now.tree.now self.now.table.now }
        ensures { (gs : List Global) → GlobalsAt self.now.tree.now self.now.table.now gs → result ≡ head_sign (indexed_head gs name.now numbers.now) }
    {
        match numbers {
            [i] => self.one_index(name, *i),
            [i, j] if name == ALONG => Some(Sign::Along(*i, *j)),
            _ => None,
        }
    }

    // What a name with numbers stands for.
    fn indexed_sign(&self, at: usize) -> Option<Sign>
        requires known { AreKnown self.now }
        requires indexed { Indexed self.now.tree.now at }
        ensures { (gs : List Global) (ys : List Name) (x : Name) (ns : List ℕ) → KnownAs self.now gs ys → IndexedAt self.now.tree.now at x ns → result ≡ term_sign (indexed_term gs ys x ns) }
    {
        let name = name_at(self.tree, at);
        let numbers = name_at(self.tree, at + 1 + self.tree[at] as usize);
        match self.index_of(name) {
            Some(_) => None,
            None => self.numbered(name, numbers),
        }
    }

    // The root of what the plain term that stands there stands for; none if its name is nowhere.
    pub fn node_sign(&self, place: usize) -> Option<Sign>
        requires known { AreKnown self.now }
        requires stands { Plain self.now.tree.now place }
        ensures { (gs : List Global) (ys : List Name) (e : Expr) (rest : List ℕ) → KnownAs self.now gs ys → PlainAt self.now.tree.now place e rest → result ≡ node_sign_lem gs ys e }
    {
        match tag_at(self.tree, place) {
            Tag::Name => self.name_sign(place + 1),
            Tag::Indexed => self.indexed_sign(place + 1),
            Tag::Sort => Some(Sign::Sort(Level(self.tree[place + 1]))),
            Tag::Pi => Some(Sign::Pi),
            Tag::Lam => Some(Sign::Lam),
            _ => Some(Sign::App),
        }
    }
}

// Where the parts of the plain term that stands there begin.
pub fn parts_at(tree: &[u32], place: usize) -> usize
    requires { Plain tree.now place }
    ensures { (e : Expr) (rest : List ℕ) → PlainAt tree.now place e rest → PartsAt tree.now place e rest result }
{
    match tag_at(tree, place) {
        Tag::App => place + 1,
        Tag::Sort => place + 2,
        Tag::Indexed => {
            let behind = place + 2 + tree[place + 1] as usize;
            behind + 1 + tree[behind] as usize
        }
        _ => place + 2 + tree[place + 1] as usize,
    }
}
