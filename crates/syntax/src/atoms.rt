// Atoms that have no brackets: names, names with numbers, sorts, holes.
ghost use Rattle.std.specs.Prelude.{◌≡◌, ◌+◌, ◌*◌, ◌≤◌, length};
ghost use Rattle.syntax.specs.Surface.{at_stage, expr_stage};
ghost use Rattle.syntax.specs.Tokens.{tokens};
ghost use Rattle.syntax.specs.Reader.{read_dots, read_word};
ghost use Rattle.syntax.specs.Parsing.{Follows, FollowsExpr, expr_words, read_full, read_sort, read_leaf};
ghost use Rattle.syntax.specs.Writing.{HasRoom};

use crate::problem::{Problem, Stop};
use crate::reading::{Read, expect_name, expect_number};
use crate::scan::{eat, is_name, read_indexed, takes_numbers};
use crate::tag::Tag;
use crate::write::Writer;

// The stage of a name with numbers.
fn indexed_stage(name: &[u8]) -> u32
    ensures { result ≡ at_stage name.now }
{
    if takes_numbers(name) { 2 } else { 1 }
}

// Behind @: a name.
fn full_name<'a>(bytes: &'a [u8], out: &mut Writer<'_>) -> Result<Read<'a>, Stop>
    requires { HasRoom out.old (4 * length bytes.now) }
    ensures { FollowsExpr (λ n. read_full) bytes.now out.old out.new result }
{
    let word = expect_name(bytes)?;
    out.push_named(Tag::Full, word.name);
    Ok(Read {
        rest: word.rest,
        stage: 4,
    })
}

// Behind Type: a level.
fn sort<'a>(bytes: &'a [u8], out: &mut Writer<'_>) -> Result<Read<'a>, Stop>
    requires { HasRoom out.old (4 * length bytes.now) }
    ensures { FollowsExpr (λ n. read_sort) bytes.now out.old out.new result }
{
    let level = expect_number(bytes)?;
    out.push_two(Tag::Sort as u32, level.value);
    Ok(Read {
        rest: level.rest,
        stage: 0,
    })
}

// Behind a word and its dot: one or two numbers.
fn dots<'a>(name: &[u8], bytes: &'a [u8], out: &mut Writer<'_>) -> Result<Read<'a>, Stop>
    requires short { length name.now ≤ 32 }
    requires some { 1 ≤ length name.now }
    requires room { HasRoom out.old (4 * (length name.now + length bytes.now)) }
    ensures { Follows (λ n. read_dots name.now) expr_words expr_stage 1 (tokens bytes.now) (4 * (length name.now + length bytes.now)) out.old out.new result }
{
    let first = expect_number(bytes)?;
    let stage = indexed_stage(name);
    out.push_named(Tag::Indexed, name);
    let Some(rest) = eat(first.rest, b".") else {
        out.push_two(1, first.value);
        return Ok(Read {
            rest: first.rest,
            stage,
        });
    };
    let second = expect_number(rest)?;
    out.push_two(2, first.value);
    out.push(second.value);
    Ok(Read {
        rest: second.rest,
        stage,
    })
}

// A word: a name, or numbers behind it.
fn word<'a>(bytes: &'a [u8], out: &mut Writer<'_>) -> Result<Read<'a>, Stop>
    requires { HasRoom out.old (4 * length bytes.now) }
    ensures { FollowsExpr (λ n. read_word) bytes.now out.old out.new result }
{
    let word = read_indexed(bytes).ok_or(Stop {
        left: bytes.len(),
        problem: Problem::Term,
    })?;
    if let Some(rest) = eat(word.rest, b".") {
        return dots(word.name, rest, out);
    }
    if !is_name(word.name) {
        return Err(Stop {
            left: word.rest.len(),
            problem: Problem::Number,
        });
    }
    out.push_named(Tag::Name, word.name);
    Ok(Read {
        rest: word.rest,
        stage: 0,
    })
}

// Any of these.
pub fn leaf<'a>(bytes: &'a [u8], out: &mut Writer<'_>) -> Result<Read<'a>, Stop>
    requires { HasRoom out.old (4 * length bytes.now) }
    ensures { FollowsExpr (λ n. read_leaf) bytes.now out.old out.new result }
{
    if let Some(rest) = eat(bytes, b"@") {
        return full_name(rest, out);
    }
    if let Some(rest) = eat(bytes, b"Type") {
        return sort(rest, out);
    }
    if let Some(rest) = eat(bytes, b"_") {
        out.push(Tag::Hole as u32);
        return Ok(Read { rest, stage: 3 });
    }
    word(bytes, out)
}
