// Data declarations: constructors one after the other, and the whole.
ghost use Rattle.std.specs.Prelude.{◌+◌, ◌*◌, ◌≤◌, length};
ghost use Rattle.syntax.specs.Surface.{params_stage, cons_stage, decl_stage, con_names, decl_names};
ghost use Rattle.syntax.specs.Reader.{read_cons, read_data};
ghost use Rattle.syntax.specs.Declaring.{Declares, read_con, con_words, con_name, con_stage, cons_words, decl_words};
ghost use Rattle.syntax.specs.Writing.{HasRoom};

use crate::declarations::{head, params};
use crate::problem::{Problem, Stop};
use crate::reading::{Read, expect, expect_name, expect_number};
use crate::scan::eat;
use crate::tag::Tag;
use crate::write::Writer;

// A constructor: a name, fields, and again n;
fn constructor<'a>(
    bytes: &'a [u8],
    tree: &mut Writer<'_>,
    names: &mut Writer<'_>,
) -> Result<Read<'a>, Stop>
    requires near { length bytes.now ≤ 32768 }
    requires room { HasRoom tree.old (4 * length bytes.now) }
    requires notes { HasRoom names.old (3 * length bytes.now) }
    ensures { Declares 0 read_con con_words con_name con_stage bytes.now tree.old tree.new names.old names.new result }
{
    let word = expect_name(bytes)?;
    tree.push_named(Tag::Con, word.name);
    names.push_note(word.rest.len(), word.name);
    let fields = params(word.rest, tree)?;
    let rest = expect(fields.rest, b"again", Problem::Again)?;
    let recs = expect_number(rest)?;
    let rest = expect(recs.rest, b";", Problem::Semicolon)?;
    tree.push(recs.value);
    Ok(Read {
        rest,
        stage: fields.stage,
    })
}

// Constructors up to the closing brace, and the brace.
fn constructors<'a>(
    bytes: &'a [u8],
    tree: &mut Writer<'_>,
    names: &mut Writer<'_>,
) -> Result<Read<'a>, Stop>
    requires near { length bytes.now ≤ 32768 }
    requires room { HasRoom tree.old (4 * length bytes.now) }
    requires notes { HasRoom names.old (3 * length bytes.now) }
    ensures { Declares 1 read_cons cons_words con_names cons_stage bytes.now tree.old tree.new names.old names.new result }
{
    let mut all = Read {
        rest: bytes,
        stage: 0,
    };
    loop {
        if let Some(rest) = eat(all.rest, b"}") {
            tree.push(Tag::End as u32);
            return Ok(Read { rest, ..all });
        }
        let con = constructor(all.rest, tree, names)?;
        all = all.then(con);
    }
}

// Behind data: a name, parameters, a level and constructors.
pub fn data_type<'a>(
    bytes: &'a [u8],
    tree: &mut Writer<'_>,
    names: &mut Writer<'_>,
) -> Result<Read<'a>, Stop>
    requires near { length bytes.now ≤ 32768 }
    requires room { HasRoom tree.old (1 + 4 * length bytes.now) }
    requires notes { HasRoom names.old (3 * length bytes.now) }
    ensures { Declares 0 read_data decl_words decl_names decl_stage bytes.now tree.old tree.new names.old names.new result }
{
    let start = head(Tag::Data, bytes, tree, names)?;
    let params = params(start.rest, tree)?;
    let rest = expect(params.rest, b":", Problem::Colon)?;
    let rest = expect(rest, b"Type", Problem::Level)?;
    let level = expect_number(rest)?;
    let rest = expect(level.rest, b"{", Problem::OpenBrace)?;
    tree.push(level.value);
    let cons = constructors(rest, tree, names)?;
    let inner = params.stage.max(cons.stage);
    let most = start.stage.max(inner);
    Ok(Read {
        rest: cons.rest,
        stage: most.max(1),
    })
}
