// Declarations: what is read is written as a tree, and the names that are declared are noted apart. The two writers go side by
// side and are no struct of two: of a buffer that a writer in a struct borrows, nothing is known at the end. That the bytes are at most
// 32,768 is a clause here and in data and parse: they are a slice of the text, and no type bounds a slice.
ghost use Rattle.std.specs.Prelude.{◌+◌, ◌*◌, ◌≤◌, length};
ghost use Rattle.syntax.specs.Surface.{params_stage, expr_stage, decl_stage, decl_names};
ghost use Rattle.syntax.specs.Tokens.{tokens};
ghost use Rattle.syntax.specs.Reader.{read_params, read_def, read_axiom};
ghost use Rattle.syntax.specs.Tags.{tag_word};
ghost use Rattle.syntax.specs.Parsing.{Follows, expr_words};
ghost use Rattle.syntax.specs.Declaring.{Hides, Declares, read_typed, read_param, param_words, param_stage, params_words, read_head, head_words, head_names, head_stage, decl_words};
ghost use Rattle.syntax.specs.Writing.{HasRoom};

use crate::problem::{Problem, Stop};
use crate::reading::{Read, expect, expect_name, expect_number};
use crate::scan::{Number, Word, eat};
use crate::tag::Tag;
use crate::terms::{bound, term};
use crate::write::Writer;

// hide n, or nothing.
fn hide(bytes: &[u8]) -> Result<Number<'_>, Stop>
    ensures { Hides bytes.now result }
{
    let Some(rest) = eat(bytes, b"hide") else {
        return Ok(Number {
            value: 0,
            rest: bytes,
        });
    };
    expect_number(rest)
}

// : and a term.
fn typed<'a>(bytes: &'a [u8], out: &mut Writer<'_>) -> Result<Read<'a>, Stop>
    requires { HasRoom out.old (4 * length bytes.now) }
    ensures { Follows read_typed expr_words expr_stage 1 (tokens bytes.now) (4 * length bytes.now) out.old out.new result }
{
    let rest = expect(bytes, b":", Problem::Colon)?;
    term(rest, out)
}

// Behind ( : a parameter or a field.
fn param<'a>(bytes: &'a [u8], out: &mut Writer<'_>) -> Result<Read<'a>, Stop>
    requires { HasRoom out.old (4 * length bytes.now) }
    ensures { Follows read_param param_words param_stage 1 (tokens bytes.now) (4 * length bytes.now) out.old out.new result }
{
    let word = expect_name(bytes)?;
    let rest = expect(word.rest, b":", Problem::Colon)?;
    bound(Tag::Param, Word { rest, ..word }, out)
}

// Parameters or fields, each in brackets.
pub fn params<'a>(bytes: &'a [u8], out: &mut Writer<'_>) -> Result<Read<'a>, Stop>
    requires { HasRoom out.old (1 + 4 * length bytes.now) }
    ensures { Follows read_params params_words params_stage 0 (tokens bytes.now) (1 + 4 * length bytes.now) out.old out.new result }
{
    let mut all = Read {
        rest: bytes,
        stage: 0,
    };
    while let Some(inner) = eat(all.rest, b"(") {
        let read = param(inner, out)?;
        all = all.then(read);
    }
    out.push(Tag::End as u32);
    Ok(all)
}

// A declared name and how many of its arguments are hidden.
pub fn head<'a>(
    tag: Tag,
    bytes: &'a [u8],
    tree: &mut Writer<'_>,
    names: &mut Writer<'_>,
) -> Result<Read<'a>, Stop>
    requires near { length bytes.now ≤ 32768 }
    requires room { HasRoom tree.old (4 * length bytes.now) }
    requires notes { HasRoom names.old (3 * length bytes.now) }
    ensures { Declares 0 read_head (head_words (tag_word tag)) head_names head_stage bytes.now tree.old tree.new names.old names.new result }
{
    let word = expect_name(bytes)?;
    let hidden = hide(word.rest)?;
    tree.push_named(tag, word.name);
    tree.push(hidden.value);
    names.push_note(word.rest.len(), word.name);
    let stage = if hidden.value == 0 { 0 } else { 4 };
    Ok(Read {
        rest: hidden.rest,
        stage,
    })
}

// Behind def or theorem: a name, its type and its body.
pub fn definition<'a>(
    bytes: &'a [u8],
    tree: &mut Writer<'_>,
    names: &mut Writer<'_>,
) -> Result<Read<'a>, Stop>
    requires near { length bytes.now ≤ 32768 }
    requires room { HasRoom tree.old (4 * length bytes.now) }
    requires notes { HasRoom names.old (3 * length bytes.now) }
    ensures { Declares 0 read_def decl_words decl_names decl_stage bytes.now tree.old tree.new names.old names.new result }
{
    let start = head(Tag::Def, bytes, tree, names)?;
    let of_type = typed(start.rest, tree)?;
    let rest = expect(of_type.rest, b":=", Problem::Becomes)?;
    let body = term(rest, tree)?;
    let rest = expect(body.rest, b";", Problem::Semicolon)?;
    let inner = of_type.stage.max(body.stage);
    Ok(Read {
        rest,
        stage: start.stage.max(inner),
    })
}

// Behind axiom: a name and its type.
pub fn assumption<'a>(
    bytes: &'a [u8],
    tree: &mut Writer<'_>,
    names: &mut Writer<'_>,
) -> Result<Read<'a>, Stop>
    requires near { length bytes.now ≤ 32768 }
    requires room { HasRoom tree.old (4 * length bytes.now) }
    requires notes { HasRoom names.old (3 * length bytes.now) }
    ensures { Declares 0 read_axiom decl_words decl_names decl_stage bytes.now tree.old tree.new names.old names.new result }
{
    let start = head(Tag::Axiom, bytes, tree, names)?;
    let of_type = typed(start.rest, tree)?;
    let rest = expect(of_type.rest, b";", Problem::Semicolon)?;
    Ok(Read {
        rest,
        stage: start.stage.max(of_type.stage),
    })
}
