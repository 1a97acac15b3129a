// Tokens, cut one by one from the bytes that are left.
ghost use Rattle.std.specs.Prelude.{◌≡◌, ◌<◌, ◌≤◌, not, ◌==◌, length, drop, take_while, slice_index};
ghost use Rattle.syntax.specs.Tokens.{letter, blank, tokens};
ghost use Rattle.syntax.specs.Lexing.{Cuts, CutsOne, Solid, Joins, NoLetter};

// A token: a word of letters, digits and _; the signs := => ->; any other byte by itself.
#[derive(Clone, Copy, Debug, PartialEq, Eq)]
pub enum Token<'a> {
    Word(&'a [u8]),
    Becomes,
    Maps,
    Arrow,
    Symbol(u8),
}

// A token and the bytes behind it.
#[derive(Clone, Copy, Debug, PartialEq, Eq)]
pub struct Cut<'a> {
    pub token: Token<'a>,
    pub rest: &'a [u8],
}

// Is it a byte of a word?
fn is_letter(b: u8) -> bool
    ensures { result ≡ letter b }
{
    b.is_ascii_alphanumeric() || b == b'_'
}

// Is it a space, the end of a line, a tab? Compared one by one, which is one test of a bit; by `matches!` it is a chain of jumps.
fn is_blank(b: u8) -> bool
    ensures { result ≡ blank b }
{
    b == b' ' || b == b'\n' || b == b'\r' || b == b'\t'
}

// How many bytes stand before the first end of a line, or before the end.
fn line_len(bytes: &[u8]) -> usize
    ensures { result ≡ length (take_while (λ b. not (b == 10)) bytes.now) }
{
    bytes.iter().take_while(|b| **b != b'\n').count()
}

// How many bytes of blanks and comments stand before the first token.
fn blank_len(bytes: &[u8]) -> usize
    ensures within { result ≤ length bytes.now }
    ensures keeps { tokens bytes.now ≡ tokens (drop result bytes.now) }
    ensures solid { Solid (drop result bytes.now) }
{
    let mut n = 0;
    // No `for` or iterator: a step skips one blank or a whole comment.
    while n < bytes.len() {
        if bytes[n] == b'#' {
            n += line_len(&bytes[n..]);
        } else if is_blank(bytes[n]) {
            n += 1;
        } else {
            break;
        }
    }
    n
}

// How many bytes the word at the front has.
fn word_len(bytes: &[u8]) -> usize
    ensures { result ≡ length (take_while letter bytes.now) }
{
    bytes.iter().take_while(|b| is_letter(**b)).count()
}

// The sign that two bytes make.
fn sign<'a>(first: u8, second: u8) -> Option<Token<'a>>
    ensures { Joins first second result }
{
    if first == b':' && second == b'=' {
        Some(Token::Becomes)
    } else if first == b'=' && second == b'>' {
        Some(Token::Maps)
    } else if first == b'-' && second == b'>' {
        Some(Token::Arrow)
    } else {
        None
    }
}

// The sign or symbol at the front of bytes that begin with no blank, comment or word.
fn first_sign(bytes: &[u8]) -> Cut<'_>
    requires some { 0 < length bytes.now }
    requires solid { Solid bytes.now }
    requires symbol { NoLetter (slice_index bytes.now 0) }
    ensures { CutsOne bytes.now result }
{
    let first = bytes[0];
    if bytes.len() > 1 {
        if let Some(token) = sign(first, bytes[1]) {
            return Cut {
                token,
                rest: &bytes[2..],
            };
        }
    }
    Cut {
        token: Token::Symbol(first),
        rest: &bytes[1..],
    }
}

// The token at the front of bytes that begin with no blank and no comment.
fn first_token(bytes: &[u8]) -> Cut<'_>
    requires some { 0 < length bytes.now }
    requires solid { Solid bytes.now }
    ensures { CutsOne bytes.now result }
{
    if !is_letter(bytes[0]) || bytes[0] == b'_' {
        return first_sign(bytes);
    }
    let n = word_len(bytes);
    Cut {
        token: Token::Word(&bytes[..n]),
        rest: &bytes[n..],
    }
}

// The first token of the bytes, with the bytes behind it. Inlined, so that a caller that only looks at the token builds no Cut.
#[inline(always)]
pub fn next_token(bytes: &[u8]) -> Option<Cut<'_>>
    ensures { Cuts bytes.now result }
{
    let start = blank_len(bytes);
    if start == bytes.len() {
        return None;
    }
    Some(first_token(&bytes[start..]))
}
