// A source as the files spell it: pieces joined by `+`, each in hexadecimal and, where it stands more than once, with `*` and how often.
ghost use Rattle.std.specs.Prelude.{◌≤◌, length};
ghost use Rattle.io.specs.Counts.{IsPrefixLen};

use crate::hex::unhex;

fn digit(b: u8) -> usize
    ensures { result ≤ 9 }
{
    match b {
        b'0'..=b'9' => usize::from(b - b'0'),
        _ => 0,
    }
}

// The number that decimal digits spell, of which it has enough once it is over 99,999.
pub fn count_of(digits: &[u8]) -> usize {
    let mut x = 0;
    for b in digits {
        if 99999 < x {
            return x;
        }
        x = 10 * x + digit(*b);
    }
    x
}

// Puts the bytes of s at the start of out, as many as there is room for, and answers how many.
fn put(s: &[u8], out: &mut [u8]) -> usize
    ensures { result ≤ length out.new }
{
    let n = s.len().min(out.len());
    out[..n].copy_from_slice(&s[..n]);
    n
}

fn put_row(s: &[u8], times: usize, out: &mut [u8]) -> usize
    ensures { result ≤ length out.new }
{
    let mut n = 0;
    for _ in 0..times {
        let count = put(s, &mut out[n..]);
        // no room is left, or s is empty
        if count == 0 {
            break;
        }
        n += count;
    }
    n
}

// A piece has at most 4,096 bytes.
fn put_piece(piece: &[u8], out: &mut [u8]) -> usize
    ensures { result ≤ length out.new }
{
    let (hex, times) = match piece.iter().position(|b| *b == b'*') {
        Some(star) => (&piece[..star], count_of(&piece[star + 1..])),
        None => (piece, 1),
    };
    let mut space = [0; 4096];
    let n = unhex(hex, &mut space);
    put_row(&space[..n], times, out)
}

// Puts the source at the start of out, as much of it as there is room for, and answers how long it is.
pub fn expand(spelt: &[u8], out: &mut [u8]) -> usize
    ensures { IsPrefixLen result out.new }
{
    let mut n = 0;
    for piece in spelt.split(|b| *b == b'+') {
        n += put_piece(piece, &mut out[n..]);
    }
    n
}
