// What may come first in the bytes that are left: a given token, a name, a number.
ghost use Rattle.std.specs.Prelude.{◌≡◌, true, [], ◌∷◌, nat_eq};
ghost use Rattle.std.specs.Cmp.Lexicographic.{pointwise};
ghost use Rattle.std.specs.List.{list_any};
ghost use Rattle.syntax.specs.Surface.{same, listed, w_eq, w_same, w_along};
ghost use Rattle.syntax.specs.Grammar.{is_name, is_indexed_lem, letters, reserved};
ghost use Rattle.syntax.specs.Reader.{starts_atom_lem};
ghost use Rattle.syntax.specs.Tokens.{tokens};
ghost use Rattle.syntax.specs.Lexing.{lexeme, Formed, Eats, FindsWord, FindsNumber, FindsBinder, FirstWord, ValueOf};

use crate::compare::same_items;
use crate::lexer::{Token, next_token};

// The most bytes that a name may have.
const NAME_LEN: usize = 32;

// A word and the bytes behind it.
#[derive(Clone, Copy, Debug, PartialEq, Eq)]
pub struct Word<'a> {
    pub name: &'a [u8],
    pub rest: &'a [u8],
}

// A number and the bytes behind it.
#[derive(Clone, Copy, Debug, PartialEq, Eq)]
pub struct Number<'a> {
    pub value: u32,
    pub rest: &'a [u8],
}

// Is it the token with these bytes?
pub fn is_token(token: Token<'_>, wanted: &[u8]) -> bool
    ensures { result ≡ same (lexeme token.entry) wanted.now }
{
    match token {
        Token::Word(word) => same_items(word, wanted),
        Token::Becomes => same_items(b":=", wanted),
        Token::Maps => same_items(b"=>", wanted),
        Token::Arrow => same_items(b"->", wanted),
        Token::Symbol(b) => same_items(&[b], wanted),
    }
}

// The bytes behind the token with these bytes, if that comes first.
pub fn eat<'a>(bytes: &'a [u8], wanted: &[u8]) -> Option<&'a [u8]>
    ensures { Eats wanted.now bytes.now result }
{
    let cut = next_token(bytes)?;
    is_token(cut.token, wanted).then_some(cut.rest)
}

// The words that are no names.
const RESERVED: [&[u8]; 17] = [
    b"fun", b"Type", b"def", b"theorem", b"axiom", b"data", b"hide", b"again", b"by", b"intro",
    b"exact", b"have", b"apply", b"eq", b"same", b"along", b"_",
];

// The words that take numbers.
const INDEXED: [&[u8]; 3] = [b"eq", b"same", b"along"];

// Is the word in the table? A loop, since `contains` makes a call for each word of the table.
pub(crate) fn is_listed(word: &[u8], table: &[&[u8]]) -> bool
    ensures { result ≡ list_any (λ k. pointwise nat_eq k.now word.now) table.now }
{
    for listed in table {
        if same_items(listed, word) {
            return true;
        }
    }
    false
}

// Is it one of the reserved words?
fn is_reserved(word: &[u8]) -> bool
    ensures { result ≡ listed word.now reserved }
{
    is_listed(word, &RESERVED)
}

// May the word be a name?
pub fn is_name(word: &[u8]) -> bool
    requires { letters word.now ≡ true }
    ensures { result ≡ is_name word.now }
{
    !word.is_empty() && word.len() <= NAME_LEN && !word[0].is_ascii_digit() && !is_reserved(word)
}

// Is it one of the words that take numbers?
pub fn takes_numbers(word: &[u8]) -> bool
    ensures { result ≡ listed word.now (w_eq ∷ w_same ∷ w_along ∷ []) }
{
    is_listed(word, &INDEXED)
}

// May numbers stand behind the word?
fn is_indexed(word: &[u8]) -> bool
    requires { letters word.now ≡ true }
    ensures { result ≡ is_indexed_lem word.now }
{
    is_name(word) || takes_numbers(word)
}

// The word that comes first.
fn first_word(bytes: &[u8]) -> Option<Word<'_>>
    ensures { FirstWord bytes.now result }
{
    let cut = next_token(bytes)?;
    let Token::Word(name) = cut.token else {
        return None;
    };
    Some(Word {
        name,
        rest: cut.rest,
    })
}

// The name that comes first. It and the next function share the word; with the test as a parameter they would be no shorter.
pub fn read_name(bytes: &[u8]) -> Option<Word<'_>>
    ensures { FindsWord is_name bytes.now result }
{
    let word = first_word(bytes)?;
    is_name(word.name).then_some(word)
}

// The word that comes first, if numbers may stand behind it.
pub fn read_indexed(bytes: &[u8]) -> Option<Word<'_>>
    ensures { FindsWord is_indexed_lem bytes.now result }
{
    let word = first_word(bytes)?;
    is_indexed(word.name).then_some(word)
}

// The value of one to three digits.
fn value_of(word: &[u8]) -> Option<u32>
    ensures { ValueOf word.now result }
{
    if word.is_empty() || word.len() > 3 {
        return None;
    }
    let mut value = 0;
    for b in word {
        if !b.is_ascii_digit() {
            return None;
        }
        value = value * 10 + (*b - b'0') as u32;
    }
    Some(value)
}

// The number that comes first.
pub fn read_number(bytes: &[u8]) -> Option<Number<'_>>
    ensures { FindsNumber bytes.now result }
{
    let word = first_word(bytes)?;
    let value = value_of(word.name)?;
    Some(Number {
        value,
        rest: word.rest,
    })
}

// The name behind ( and before : if these come first.
pub fn read_binder(bytes: &[u8]) -> Option<Word<'_>>
    ensures { FindsBinder bytes.now result }
{
    let rest = eat(bytes, b"(")?;
    let word = read_name(rest)?;
    let rest = eat(word.rest, b":")?;
    Some(Word { rest, ..word })
}

// Is it a word that numbers may stand behind?
fn is_indexed_token(token: Token<'_>) -> bool
    requires { Formed token }
    ensures { result ≡ is_indexed_lem (lexeme token.entry) }
{
    matches!(token, Token::Word(word) if is_indexed(word))
}

// Does an atom come first?
pub fn starts_atom(bytes: &[u8]) -> bool
    ensures { result ≡ starts_atom_lem (tokens bytes.now) }
{
    let Some(cut) = next_token(bytes) else {
        return false;
    };
    let token = cut.token;
    is_indexed_token(token)
        || is_token(token, b"(")
        || is_token(token, b"@")
        || is_token(token, b"Type")
        || is_token(token, b"_")
        || is_token(token, b"by")
}
