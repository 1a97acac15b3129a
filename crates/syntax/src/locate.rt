// Where a declaration stands in its text, and the line of a place.
ghost use Rattle.std.specs.Prelude.{◌≡◌, ◌+◌, ◌-◌, ◌^◌, ◌<◌, ◌≤◌, length};
ghost use Rattle.syntax.specs.Lines.{line_of};
ghost use Rattle.syntax.specs.Lexing.{lexeme};
ghost use Rattle.syntax.specs.Headers.{begins_decl, FindsHeader, HeadersRight, TokenAt};

use crate::lexer::{Token, next_token};
use crate::scan::{is_listed, read_name};

// How a declaration begins: its keyword, its name, and where the keyword stands.
#[derive(Clone, Copy, Debug, PartialEq, Eq)]
pub struct Header<'a> {
    pub keyword: &'a [u8],
    pub name: &'a [u8],
    pub at: usize,
}

// The line of a place, counted from 1.
pub fn line_at(text: &[u8], at: usize) -> usize
    requires within { at ≤ length text.now }
    requires fits { at + 1 < 2 ^ 64 }
    ensures { result ≡ line_of text.now at }
{
    1 + text[..at].iter().filter(|b| **b == b'\n').count()
}

// The words that begin a declaration.
const BEGINNINGS: [&[u8]; 4] = [b"def", b"theorem", b"axiom", b"data"];

// Does a declaration begin with the word?
fn begins_declaration(word: &[u8]) -> bool
    ensures { result ≡ begins_decl word.now }
{
    is_listed(word, &BEGINNINGS)
}

// The header of the n-th declaration, counted from 0.
pub fn find_header(text: &[u8], n: usize) -> Option<Header<'_>>
    ensures { FindsHeader text.now n result }
{
    let mut rest = text;
    let mut left = n;
    // No `for`: each step cuts a token off the rest, and the place of a header is told from what is left.
    while let Some(cut) = next_token(rest) {
        rest = cut.rest;
        if let Token::Word(keyword) = cut.token {
            if begins_declaration(keyword) {
                if left == 0 {
                    let at = text.len() - keyword.len() - rest.len();
                    let word = read_name(rest)?;
                    return Some(Header {
                        keyword,
                        name: word.name,
                        at,
                    });
                }
                left -= 1;
            }
        }
    }
    None
}

// In a text that reads, the n-th header is that of the n-th declaration. A function for a theorem, as in crate theory.
pub fn headers_stand() -> u8
    ensures { HeadersRight }
{
    0
}

// How many bytes a token has.
fn token_len(token: Token<'_>) -> usize
    ensures { result ≡ length (lexeme token.entry) }
{
    match token {
        Token::Word(word) => word.len(),
        Token::Becomes | Token::Maps | Token::Arrow => 2,
        Token::Symbol(_) => 1,
    }
}

// Where the first token among the last bytes of a text stands; where they begin, if there is none.
pub fn token_at(text: &[u8], left: usize) -> usize
    requires { left ≤ length text.now }
    ensures { TokenAt text.now (length text.now - left) result }
{
    let start = text.len() - left;
    let Some(cut) = next_token(&text[start..]) else {
        return start;
    };
    text.len() - token_len(cut.token) - cut.rest.len()
}
