// A text as declarations: within the limits, with each name declared once, read to the end.
ghost use Rattle.std.specs.Prelude.{◌*◌, ◌≤◌, length};
ghost use Rattle.syntax.specs.Surface.{decl_stage, decl_names};
ghost use Rattle.syntax.specs.Reader.{read_decl};
ghost use Rattle.syntax.specs.Declaring.{Declares, DeclaresAll, Parses, decl_words};
ghost use Rattle.syntax.specs.Writing.{HasRoom};

use crate::data::data_type;
use crate::declarations::{assumption, definition};
use crate::lexer::next_token;
use crate::limits::{first_repeated, first_too_deep};
use crate::problem::{Problem, Stop};
use crate::reading::Read;
use crate::scan::eat;
use crate::write::Writer;

// The most bytes that a text may have.
const TEXT_LEN: usize = 32768;

// What was read: how many words the tree has, how many declarations there are, and the text's stage.
#[derive(Clone, Copy, Debug, PartialEq, Eq)]
pub struct Parsed {
    pub words: usize,
    pub count: usize,
    pub stage: u32,
}

// A declaration, by its first word.
fn declaration<'a>(
    bytes: &'a [u8],
    tree: &mut Writer<'_>,
    names: &mut Writer<'_>,
) -> Result<Read<'a>, Stop>
    requires near { length bytes.now ≤ 32768 }
    requires room { HasRoom tree.old (4 * length bytes.now) }
    requires notes { HasRoom names.old (3 * length bytes.now) }
    ensures { Declares 0 read_decl decl_words decl_names decl_stage bytes.now tree.old tree.new names.old names.new result }
{
    if let Some(rest) = eat(bytes, b"def") {
        return definition(rest, tree, names);
    }
    if let Some(rest) = eat(bytes, b"theorem") {
        return definition(rest, tree, names);
    }
    if let Some(rest) = eat(bytes, b"axiom") {
        return assumption(rest, tree, names);
    }
    if let Some(rest) = eat(bytes, b"data") {
        return data_type(rest, tree, names);
    }
    Err(Stop {
        left: bytes.len(),
        problem: Problem::Declaration,
    })
}

// All declarations, to the end of the bytes.
fn declarations(bytes: &[u8], tree: &mut Writer<'_>, names: &mut Writer<'_>) -> Result<Parsed, Stop>
    requires near { length bytes.now ≤ 32768 }
    requires room { HasRoom tree.old (4 * length bytes.now) }
    requires notes { HasRoom names.old (3 * length bytes.now) }
    ensures { DeclaresAll bytes.now tree.old tree.new names.old names.new result }
{
    let mut all = Read {
        rest: bytes,
        stage: 0,
    };
    let mut count = 0;
    // No `for`: each declaration is cut off the rest, which may fail.
    while next_token(all.rest).is_some() {
        let read = declaration(all.rest, tree, names)?;
        all = all.then(read);
        count += 1;
    }
    Ok(Parsed {
        words: tree.len,
        count,
        stage: all.stage,
    })
}

// The declarations that a text says, as a tree in the first words of `out`, with the names that it declares noted in `names`; or
// why it says none.
pub fn parse(text: &[u8], out: &mut [u32], names: &mut [u32]) -> Result<Parsed, Stop>
    requires room { 4 * length text.now ≤ length out.old }
    requires notes { 3 * length text.now ≤ length names.old }
    ensures { Parses text.now out.new result }
{
    if text.len() > TEXT_LEN {
        return Err(Stop {
            left: text.len() - TEXT_LEN,
            problem: Problem::TooLong,
        });
    }
    if let Some(left) = first_too_deep(text) {
        return Err(Stop {
            left,
            problem: Problem::TooDeep,
        });
    }
    let mut tree = Writer::new(out);
    let mut names = Writer::new(names);
    let parsed = declarations(text, &mut tree, &mut names)?;
    if let Some(left) = first_repeated(names.written()) {
        return Err(Stop {
            left,
            problem: Problem::Twice,
        });
    }
    Ok(parsed)
}
