// The limits of a text: how many brackets are open at once, and that no name is declared twice.
ghost use Rattle.std.specs.Prelude.{◌≡◌, List};
ghost use Rattle.syntax.specs.Declaring.{Note, note_words, ReadsNote, Later, Distinct, Shallow};

use crate::compare::same_items;
use crate::lexer::next_token;
use crate::scan::is_token;

// The most brackets that may be open at once.
const MOST_OPEN: usize = 64;

// How many bytes are left where more brackets than that are open, if so many ever are.
pub fn first_too_deep(text: &[u8]) -> Option<usize>
    ensures { Shallow text.now result }
{
    let mut rest = text;
    let mut open: usize = 0;
    while let Some(cut) = next_token(rest) {
        if open > MOST_OPEN {
            return Some(rest.len());
        }
        if is_token(cut.token, b"(") || is_token(cut.token, b"{") {
            open += 1;
        } else if is_token(cut.token, b")") || is_token(cut.token, b"}") {
            open = open.saturating_sub(1);
        }
        rest = cut.rest;
    }
    None
}

// A note of a declared name: how many bytes were left behind the name, the name, and the words of the notes behind it. The notes stay words,
// which are lent; that they are notes is a clause.
#[derive(Clone, Copy, Debug, PartialEq, Eq)]
pub struct NoteRead<'a> {
    pub left: usize,
    pub name: &'a [u32],
    pub rest: &'a [u32],
}

// The first note.
fn first_note(notes: &[u32]) -> Option<NoteRead<'_>>
    requires { (ns : List Note) × (notes.now ≡ note_words ns) }
    ensures { (ns : List Note) → notes.now ≡ note_words ns → ReadsNote ns result }
{
    let (left, rest) = notes.split_first()?;
    let (len, rest) = rest.split_first()?;
    let (name, rest) = rest.split_at(*len as usize);
    Some(NoteRead {
        left: *left as usize,
        name,
        rest,
    })
}

// How many bytes were left behind the first note of a name, if it is among those noted.
fn later(name: &[u32], notes: &[u32]) -> Option<usize>
    requires { (ns : List Note) × (notes.now ≡ note_words ns) }
    ensures { (ns : List Note) → notes.now ≡ note_words ns → Later name.now ns result }
{
    let mut rest = notes;
    while let Some(note) = first_note(rest) {
        if same_items(name, note.name) {
            return Some(note.left);
        }
        rest = note.rest;
    }
    None
}

// How many bytes were left behind the first name that is declared again, if one is.
pub fn first_repeated(notes: &[u32]) -> Option<usize>
    requires { (ns : List Note) × (notes.now ≡ note_words ns) }
    ensures { (ns : List Note) → notes.now ≡ note_words ns → Distinct ns result }
{
    let mut rest = notes;
    while let Some(note) = first_note(rest) {
        if let Some(left) = later(note.name, note.rest) {
            return Some(left);
        }
        rest = note.rest;
    }
    None
}
