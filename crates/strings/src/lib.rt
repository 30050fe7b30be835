// The text of a String: what stands between its quotes, with its escapes decoded. Port of `process_string_escapes` in raw_token.rs.
#![tactic(auto)]

ghost use Rattle.std.specs.Prelude.{◌≡◌, ◌+◌, ◌<◌, ◌≤◌, length};
ghost use Rattle.std.proofs.lemmas.List.Edits.{sets};
ghost use Rattle.strings.specs.Decoded.{unescape_at, decoded, Reads};

// What a backslash with b stands for, if that is an escape.
fn unescaped(b: u8) -> Option<u8>
    ensures { result ≡ unescape_at b }
{
    match b {
        b'n' => Some(b'\n'),
        b't' => Some(b'\t'),
        b'r' => Some(b'\r'),
        b'\\' => Some(b'\\'),
        b'"' => Some(b'"'),
        b'\'' => Some(b'\''),
        _ => None,
    }
}

// What stands at a place, decoded: one byte, with a backslash before it where an escape is kept, which is no byte that may be missing; and of how many bytes it was
// made.
#[derive(Clone, Copy)]
struct Piece {
    byte: u8,
    kept: bool,
    len: usize,
}

fn piece_at(s: &[u8], i: usize) -> Piece
    requires { i < length s.now }
    ensures { Reads s.now i result }
{
    let b = s[i];
    if b != b'\\' || i + 1 == s.len() {
        return Piece {
            byte: b,
            kept: false,
            len: 1,
        };
    }
    let escaped = s[i + 1];
    match unescaped(escaped) {
        Some(byte) => Piece {
            byte,
            kept: false,
            len: 2,
        },
        None => Piece {
            byte: escaped,
            kept: true,
            len: 2,
        },
    }
}

// Writes what s decodes to into text from `at` on, and returns the place behind it. No more bytes are written than s has. Both places are moved by hand, since
// a piece is one byte or two.
pub fn process_string_escapes(s: &[u8], text: &mut [u8], at: usize) -> usize
    requires { at + length s.now ≤ length text.old }
    ensures value { result ≡ at + length (decoded s.now) }
    ensures text_after { text.new ≡ sets text.old at (decoded s.now) }
{
    let mut i = 0;
    let mut o = at;
    while i < s.len() {
        let p = piece_at(s, i);
        if p.kept {
            text[o] = b'\\';
            o += 1;
        }
        text[o] = p.byte;
        o += 1;
        i += p.len;
    }
    o
}

// How many bytes s decodes to; the place is moved by hand, as there.
pub fn decoded_len(s: &[u8]) -> usize
    ensures { result ≡ length (decoded s.now) }
{
    let mut i = 0;
    let mut n = 0;
    while i < s.len() {
        let p = piece_at(s, i);
        n += if p.kept { 2 } else { 1 };
        i += p.len;
    }
    n
}
