// Terms and scripts. The functions call one another only along brackets; what goes on to the right is a loop.
ghost use Rattle.std.specs.Prelude.{◌+◌, ◌*◌, ◌≤◌, ◌∷◌, length};
ghost use Rattle.syntax.specs.Surface.{expr_stage};
ghost use Rattle.syntax.specs.Tokens.{tokens};
ghost use Rattle.syntax.specs.Tree.{put_name};
ghost use Rattle.syntax.specs.Tags.{tag_word};
ghost use Rattle.syntax.specs.Reader.{read_term, read_atom, read_script, read_pi, read_arrow, read_intro, read_have, read_exact, read_apply};
ghost use Rattle.syntax.specs.Parsing.{Follows, FollowsExpr, Opens, Links, expr_words, lower, level, read_bound, read_uses, read_fun, read_block, term_reader, script_reader};
ghost use Rattle.syntax.specs.Writing.{HasRoom};

use crate::atoms::leaf;
use crate::problem::{Problem, Stop};
use crate::reading::{Link, Read, expect, expect_name};
use crate::scan::{Word, eat, read_binder, starts_atom};
use crate::tag::Tag;
use crate::write::Writer;

// A term.
#[cycle(reader)]
pub fn term<'a>(bytes: &'a [u8], out: &mut Writer<'_>) -> Result<Read<'a>, Stop>
    requires { HasRoom out.old (4 * length bytes.now) }
    ensures { FollowsExpr (lower read_term) bytes.now out.old out.new result }
{
    let mut all = Read {
        rest: bytes,
        stage: 0,
    };
    loop {
        match term_link(all.rest, out)? {
            Link::More(read) => all = all.then(read),
            Link::Last(read) => return Ok(all.then(read)),
        }
    }
}

// A binder of a term, or its last part.
#[cycle(reader)]
fn term_link<'a>(bytes: &'a [u8], out: &mut Writer<'_>) -> Result<Link<'a>, Stop>
    requires { HasRoom out.old (4 * length bytes.now) }
    ensures { Links read_term term_reader bytes.now out.old out.new result }
{
    if let Some(rest) = eat(bytes, b"fun") {
        return Ok(Link::More(function(rest, out)?));
    }
    if let Some(word) = read_binder(bytes) {
        return Ok(Link::More(function_type(word, out)?));
    }
    arrow(bytes, out)
}

// Behind ( x : a type and the closing bracket, written with a tag and the name.
#[cycle(reader)]
pub fn bound<'a>(tag: Tag, word: Word<'a>, out: &mut Writer<'_>) -> Result<Read<'a>, Stop>
    requires some { 1 ≤ length word.name.now }
    requires short { length word.name.now ≤ 32 }
    requires room { HasRoom out.old (4 * (length word.name.now + length word.rest.now)) }
    ensures { Follows (level read_bound) (λ a. tag_word tag ∷ put_name word.entry.name.now (expr_words a)) expr_stage 1 (tokens word.entry.rest.now) (4 * (length word.entry.name.now + length word.entry.rest.now)) out.old out.new result }
{
    out.push_named(tag, word.name);
    let read = term(word.rest, out)?;
    let rest = expect(read.rest, b")", Problem::Close)?;
    Ok(Read { rest, ..read })
}

// Behind fun: the bound variable, up to =>.
#[cycle(reader)]
fn function<'a>(bytes: &'a [u8], out: &mut Writer<'_>) -> Result<Read<'a>, Stop>
    requires { HasRoom out.old (4 * length bytes.now) }
    ensures { Opens read_fun term_reader (tokens bytes.now) (4 * length bytes.now) out.old out.new result }
{
    let word = read_binder(bytes).ok_or(Stop {
        left: bytes.len(),
        problem: Problem::Open,
    })?;
    let read = bound(Tag::Lam, word, out)?;
    let rest = expect(read.rest, b"=>", Problem::Maps)?;
    Ok(Read { rest, ..read })
}

// Behind ( x : the rest of a function type's domain, up to ->.
#[cycle(reader)]
fn function_type<'a>(word: Word<'a>, out: &mut Writer<'_>) -> Result<Read<'a>, Stop>
    requires some { 1 ≤ length word.name.now }
    requires short { length word.name.now ≤ 32 }
    requires room { HasRoom out.old (4 * (length word.name.now + length word.rest.now)) }
    ensures { Opens (λ s. read_pi s word.entry.name.now) term_reader (tokens word.entry.rest.now) (4 * (length word.entry.name.now + length word.entry.rest.now)) out.old out.new result }
{
    let read = bound(Tag::Pi, word, out)?;
    let rest = expect(read.rest, b"->", Problem::Arrow)?;
    Ok(Read { rest, ..read })
}

// A row of atoms, and the arrow behind it if there is one.
#[cycle(reader)]
fn arrow<'a>(bytes: &'a [u8], out: &mut Writer<'_>) -> Result<Link<'a>, Stop>
    requires { HasRoom out.old (4 * length bytes.now) }
    ensures { Links read_arrow term_reader bytes.now out.old out.new result }
{
    let start = out.len;
    let read = uses(bytes, out)?;
    let Some(rest) = eat(read.rest, b"->") else {
        return Ok(Link::Last(read));
    };
    // A name of no bytes.
    out.insert(start, 0, 1);
    out.insert(start, Tag::Pi as u32, 1);
    Ok(Link::More(Read { rest, ..read }))
}

// A row of atoms: the first, used on the others.
#[cycle(reader)]
fn uses<'a>(bytes: &'a [u8], out: &mut Writer<'_>) -> Result<Read<'a>, Stop>
    requires { HasRoom out.old (4 * length bytes.now) }
    ensures { FollowsExpr (lower read_uses) bytes.now out.old out.new result }
{
    let start = out.len;
    let first = atom(bytes, out)?;
    let mut all = first;
    // No `for`: each atom is cut off the rest, which may fail.
    let mut count = 0;
    while starts_atom(all.rest) {
        let next = atom(all.rest, out)?;
        all = all.then(next);
        count += 1;
    }
    out.insert(start, Tag::App as u32, count);
    Ok(all)
}

// An atom.
#[cycle(reader)]
fn atom<'a>(bytes: &'a [u8], out: &mut Writer<'_>) -> Result<Read<'a>, Stop>
    requires { HasRoom out.old (4 * length bytes.now) }
    ensures { FollowsExpr (lower read_atom) bytes.now out.old out.new result }
{
    if let Some(rest) = eat(bytes, b"(") {
        let read = term(rest, out)?;
        let rest = expect(read.rest, b")", Problem::Close)?;
        return Ok(Read { rest, ..read });
    }
    if let Some(rest) = eat(bytes, b"by") {
        return block(rest, out);
    }
    leaf(bytes, out)
}

// Behind by: a script in braces.
#[cycle(reader)]
fn block<'a>(bytes: &'a [u8], out: &mut Writer<'_>) -> Result<Read<'a>, Stop>
    requires { HasRoom out.old (4 * length bytes.now) }
    ensures { FollowsExpr (level read_block) bytes.now out.old out.new result }
{
    let rest = expect(bytes, b"{", Problem::OpenBrace)?;
    out.push(Tag::By as u32);
    let read = script(rest, out)?;
    let rest = expect(read.rest, b"}", Problem::CloseBrace)?;
    Ok(Read {
        rest,
        stage: read.stage.max(5),
    })
}

// A script. The loop is that of term: one loop for both would take the link as a closure that calls back into this cycle of calls,
// with clauses of its own, and be no plainer.
#[cycle(reader)]
fn script<'a>(bytes: &'a [u8], out: &mut Writer<'_>) -> Result<Read<'a>, Stop>
    requires { HasRoom out.old (4 * length bytes.now) }
    ensures { FollowsExpr (lower read_script) bytes.now out.old out.new result }
{
    let mut all = Read {
        rest: bytes,
        stage: 0,
    };
    loop {
        match script_link(all.rest, out)? {
            Link::More(read) => all = all.then(read),
            Link::Last(read) => return Ok(all.then(read)),
        }
    }
}

// A step of a script: one that leaves the rest to come, or the last.
#[cycle(reader)]
fn script_link<'a>(bytes: &'a [u8], out: &mut Writer<'_>) -> Result<Link<'a>, Stop>
    requires { HasRoom out.old (4 * length bytes.now) }
    ensures { Links read_script script_reader bytes.now out.old out.new result }
{
    if let Some(rest) = eat(bytes, b"intro") {
        return Ok(Link::More(intro(rest, out)?));
    }
    if let Some(rest) = eat(bytes, b"have") {
        return Ok(Link::More(have(rest, out)?));
    }
    if let Some(rest) = eat(bytes, b"exact") {
        return Ok(Link::Last(exact(rest, out)?));
    }
    if let Some(rest) = eat(bytes, b"apply") {
        return Ok(Link::Last(apply(rest, out)?));
    }
    Err(Stop {
        left: bytes.len(),
        problem: Problem::Script,
    })
}

// Behind intro: a name.
fn intro<'a>(bytes: &'a [u8], out: &mut Writer<'_>) -> Result<Read<'a>, Stop>
    requires { HasRoom out.old (4 * length bytes.now) }
    ensures { Opens read_intro script_reader (tokens bytes.now) (4 * length bytes.now) out.old out.new result }
{
    let word = expect_name(bytes)?;
    let rest = expect(word.rest, b";", Problem::Semicolon)?;
    out.push_named(Tag::Lam, word.name);
    out.push(Tag::Hole as u32);
    Ok(Read { rest, stage: 3 })
}

// Behind have: a name, its type, and a script in braces.
#[cycle(reader)]
fn have<'a>(bytes: &'a [u8], out: &mut Writer<'_>) -> Result<Read<'a>, Stop>
    requires { HasRoom out.old (4 * length bytes.now) }
    ensures { Opens read_have script_reader (tokens bytes.now) (4 * length bytes.now) out.old out.new result }
{
    let word = expect_name(bytes)?;
    let rest = expect(word.rest, b":", Problem::Colon)?;
    out.push_named(Tag::Have, word.name);
    let typed = term(rest, out)?;
    let rest = expect(typed.rest, b"{", Problem::OpenBrace)?;
    let read = script(rest, out)?;
    let rest = expect(read.rest, b"}", Problem::CloseBrace)?;
    Ok(Read {
        rest,
        stage: typed.stage.max(read.stage),
    })
}

// Behind exact: a term.
#[cycle(reader)]
fn exact<'a>(bytes: &'a [u8], out: &mut Writer<'_>) -> Result<Read<'a>, Stop>
    requires { HasRoom out.old (4 * length bytes.now) }
    ensures { FollowsExpr (level read_exact) bytes.now out.old out.new result }
{
    let read = term(bytes, out)?;
    let rest = expect(read.rest, b";", Problem::Semicolon)?;
    Ok(Read { rest, ..read })
}

// Behind apply: a term, used on the scripts in braces behind it.
#[cycle(reader)]
fn apply<'a>(bytes: &'a [u8], out: &mut Writer<'_>) -> Result<Read<'a>, Stop>
    requires { HasRoom out.old (4 * length bytes.now) }
    ensures { FollowsExpr (level read_apply) bytes.now out.old out.new result }
{
    let start = out.len;
    let first = exact(bytes, out)?;
    let mut all = first;
    // No `for`: each script is cut off the rest, which may fail.
    let mut count = 0;
    while let Some(inner) = eat(all.rest, b"{") {
        let read = script(inner, out)?;
        let rest = expect(read.rest, b"}", Problem::CloseBrace)?;
        all = all.then(Read { rest, ..read });
        count += 1;
    }
    out.insert(start, Tag::App as u32, count);
    Ok(all)
}
