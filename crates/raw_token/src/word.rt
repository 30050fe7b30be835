// Keywords and names. Their ASCII characters are told by their bytes, in one pass that makes a keyword's number as well; only a byte over 127 is decoded and
// looked up.
ghost use Rattle.std.specs.Prelude.{◌≡◌, true, false, ◌+◌, ◌≤◌, ◌<◌, length, get_or, drop};
ghost use Rattle.raw_token.specs.Pattern.{begins_name_lem, continues_name, character, many};
ghost use Rattle.raw_token.specs.Parts.{Matches, keywords, code_of, ascii_begins, ascii_continues_lem, Spelt, word_at, name_at};

use crate::RawToken;

// Where the ASCII characters of a name end, and their number to the base 256, of which the last eight count.
#[derive(Clone, Copy)]
pub(crate) struct Spelling {
    pub end: usize,
    pub number: u64,
}

// Whether an ASCII character continues a name: a letter, an underscore or a digit. Small letters, the most frequent, are asked first: one match on all of them is
// twice the tests for such a letter.
fn ascii_continues(b: u8) -> bool
    ensures { result ≡ ascii_continues_lem b }
{
    if matches!(b, b'a'..=b'z') {
        true
    } else {
        matches!(b, b'A'..=b'Z') | (b == b'_') | source::is_digit(b)
    }
}

// The ASCII characters from `at` on that continue a name.
fn ascii_run(s: &[u8], at: usize) -> Spelling
    ensures { Spelt s.now at result }
{
    let mut number = 0;
    for end in at..s.len() {
        let b = s[end];
        if !ascii_continues(b) {
            return Spelling { end, number };
        }
        number = number % 0x100000000000000 * 256 + u64::from(b);
    }
    let end = at.max(s.len());
    Spelling { end, number }
}

// The length of the character at i where it continues a name.
fn continuation(s: &[u8], i: usize) -> Option<usize>
    ensures { Matches (character continues_name) s.now i result }
{
    let b = *s.get(i)?;
    if ascii_continues(b) {
        return Some(1);
    }
    if b < 0x80 {
        return None;
    }
    let c = utf8::character::decode(s, i)?;
    xid::is_continue(c.code).then_some(c.len)
}

// Where the characters that continue a name end, from `at` on. A character has one to four bytes, so no `for` goes over them.
fn name_end(s: &[u8], at: usize) -> usize
    ensures { result ≡ at + many continues_name (drop at s.now) }
{
    let mut i = at;
    while let Some(n) = continuation(s, i) {
        i += n;
    }
    i
}

// The same where no ASCII character continues a name at `at`.
fn non_ascii_end(s: &[u8], at: usize) -> usize
    requires { ascii_continues_lem (get_or s.now at 0) ≡ false }
    ensures { result ≡ at + many continues_name (drop at s.now) }
{
    if source::byte(s, at) < 0x80 {
        at
    } else {
        name_end(s, at)
    }
}

// The code of the keyword with the number n, or a name's: one match, as 01 asks. Two digits each, the number is the keyword's letters.
#[tactic(auto, unfolding(crate::specs::Parts::keywords, crate::specs::Table::table))]
fn keyword(n: u64) -> u32
    ensures { result ≡ code_of keywords n }
{
    match n {
        0x6966 => token::IF,
        0x656c6966 => token::ELIF,
        0x656c7365 => token::ELSE,
        0x7768696c65 => token::WHILE,
        0x666f72 => token::FOR,
        0x696e => token::IN,
        0x646566 => token::DEF,
        0x72657475726e => token::RETURN,
        0x616e64 => token::AND,
        0x6f72 => token::OR,
        0x6e6f74 => token::NOT,
        0x636c617373 => token::CLASS,
        0x627265616b => token::BREAK,
        0x636f6e74696e7565 => token::CONTINUE,
        0x70617373 => token::PASS,
        0x6c616d626461 => token::LAMBDA,
        0x4e6f6e65 => token::NONE,
        0x54727565 => token::BOOL,
        0x46616c7365 => token::BOOL,
        _ => token::IDENTIFIER,
    }
}

// What an ASCII character begins as a name: a keyword or a name. A keyword is ASCII alone, and of at most 8 bytes.
pub(crate) fn word(s: &[u8], at: usize) -> Option<RawToken>
    requires { (at < length s.now) × (ascii_begins (get_or s.now at 0) ≡ true) }
    ensures { result ≡ word_at s.now at }
{
    let letters = ascii_run(s, at);
    let end = non_ascii_end(s, letters.end);
    let code = if (end == letters.end) & (end - at <= 8) {
        keyword(letters.number)
    } else {
        token::IDENTIFIER
    };
    Some(RawToken { code, end })
}

// Whether a character begins a name: one of XID_Start or the underscore.
fn begins_name(c: u32) -> bool
    ensures { result ≡ begins_name_lem c }
{
    xid::is_start(c) | (c == 0x5F)
}

// The name at `at`, or nothing where the character there begins none.
pub(crate) fn name(s: &[u8], at: usize) -> Option<RawToken>
    requires { at < length s.now }
    ensures { result ≡ name_at s.now at }
{
    let c = utf8::character::decode(s, at)?;
    if !begins_name(c.code) {
        return None;
    }
    Some(RawToken {
        code: token::IDENTIFIER,
        end: name_end(s, at + c.len),
    })
}
