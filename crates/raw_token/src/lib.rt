// The raw token at a place of the source (src/lexer/raw_token.rs). The contract of `token_at` cites the table of specs/Table.antt; each function
// behind it finds one kind of token, by a contract of its own, and the laws of proofs/First.antt join the two.
#![tactic(auto)]

ghost use Rattle.std.specs.Prelude.{◌≡◌, true, ◌+◌, ◌^◌, ◌<◌, length, get_or};
ghost use Rattle.source.specs.Bytes.{digit};
ghost use Rattle.raw_token.specs.Pattern.{is_quote};
ghost use Rattle.raw_token.specs.Table.{raw_token, token_at_lem};
ghost use Rattle.raw_token.specs.Parts.{signed_at, number_at, string_at, pair_at, only_at};

mod length; // length.rt: the lengths of numbers and strings
mod word; // word.rt: keywords and names

// A token by its code, and where it ends.
#[derive(Clone, Copy, Debug, PartialEq, Eq)]
pub struct RawToken {
    pub code: u32,
    pub end: usize,
}

// What starts with a sign: an integer, or the operator with the code `op`.
fn signed(s: &[u8], at: usize, op: u32) -> Option<RawToken>
    requires { at < length s.now }
    ensures { result ≡ signed_at s.now at op }
{
    let Some(n) = length::int_len(s, at) else {
        return mark(at, op);
    };
    Some(RawToken {
        code: token::INT,
        end: at + n,
    })
}

// What starts with a digit: a float or an integer.
fn number(s: &[u8], at: usize) -> Option<RawToken>
    requires { (at < length s.now) × (digit (get_or s.now at 0) ≡ true) }
    ensures { result ≡ number_at s.now at }
{
    let whole = at + source::digits(s, at);
    let Some(f) = length::fraction_len(s, whole) else {
        return Some(RawToken {
            code: token::INT,
            end: whole,
        });
    };
    let e = length::exponent_len(s, whole + f).unwrap_or(0);
    Some(RawToken {
        code: token::FLOAT,
        end: whole + f + e,
    })
}

// What starts with a quote: a string, or nothing.
fn quoted(s: &[u8], at: usize) -> Option<RawToken>
    requires { (at < length s.now) × (is_quote (get_or s.now at 0) ≡ true) }
    ensures { result ≡ string_at s.now at }
{
    let n = length::string_len(s, at)?;
    Some(RawToken {
        code: token::STRING,
        end: at + n,
    })
}

// A token of one byte.
fn mark(at: usize, code: u32) -> Option<RawToken>
    requires { at + 1 < 2 ^ 64 }
    ensures { result ≡ Some (raw_token code (at + 1)) }
{
    Some(RawToken { code, end: at + 1 })
}

// An operator of two bytes, where `second` is next, or of the first byte alone.
fn pair(s: &[u8], at: usize, second: u8, two: u32, alone: u32) -> Option<RawToken>
    requires { (at < length s.now) × (0 < second) }
    ensures { result ≡ pair_at s.now at second two alone }
{
    if source::byte(s, at + 1) != second {
        return mark(at, alone);
    }
    Some(RawToken {
        code: two,
        end: at + 2,
    })
}

// An operator of two bytes, where `second` is next, or nothing.
fn only_pair(s: &[u8], at: usize, second: u8, two: u32) -> Option<RawToken>
    requires { (at < length s.now) × (0 < second) }
    ensures { result ≡ only_at s.now at second two }
{
    if source::byte(s, at + 1) != second {
        return None;
    }
    Some(RawToken {
        code: two,
        end: at + 2,
    })
}

// The token at the place `at`: the first byte says which function finds it.
pub fn token_at(s: &[u8], at: usize) -> Option<RawToken>
    ensures { result ≡ token_at_lem s.now at }
{
    match *s.get(at)? {
        b'a'..=b'z' | b'A'..=b'Z' | b'_' => word::word(s, at),
        0x80..=0xFF => word::name(s, at),
        b'0'..=b'9' => number(s, at),
        b'"' | b'\'' => quoted(s, at),
        b'+' => signed(s, at, token::PLUS),
        b'-' => signed(s, at, token::MINUS),
        b'/' => pair(s, at, b'/', token::SLASH_SLASH, token::SLASH),
        b'=' => pair(s, at, b'=', token::EQUAL_EQUAL, token::EQUAL),
        b'<' => pair(s, at, b'=', token::LESS_EQUAL, token::LESS),
        b'>' => pair(s, at, b'=', token::GREATER_EQUAL, token::GREATER),
        b'!' => only_pair(s, at, b'=', token::NOT_EQUAL),
        b'*' => mark(at, token::STAR),
        b'%' => mark(at, token::PERCENT),
        b'(' => mark(at, token::LPAREN),
        b')' => mark(at, token::RPAREN),
        b'[' => mark(at, token::LBRACKET),
        b']' => mark(at, token::RBRACKET),
        b'{' => mark(at, token::LBRACE),
        b'}' => mark(at, token::RBRACE),
        b':' => mark(at, token::COLON),
        b',' => mark(at, token::COMMA),
        b';' => mark(at, token::SEMICOLON),
        b'.' => mark(at, token::DOT),
        b'\n' => mark(at, token::NEWLINE),
        _ => None,
    }
}
