// Bytes of the source: a byte past the end, the digits and their runs. Every layer of the scanner reads by these.
#![tactic(auto)]

ghost use Rattle.std.specs.Prelude.{◌≡◌, get_or};
ghost use Rattle.source.specs.Bytes.{digit, run, Len};

mod refusal; // refusal.rt: why a script is refused, and where

pub use refusal::{Reason, Refusal};

pub fn is_digit(b: u8) -> bool
    ensures { result ≡ digit b }
{
    matches!(b, b'0'..=b'9')
}

// The byte at i, and 0 past the end: no Option, since the definitions of the table read 0 there too (`get_or`), and what is asked of a byte is a comparison.
pub fn byte(s: &[u8], i: usize) -> u8
    ensures { result ≡ get_or s.now i 0 }
{
    if i < s.len() { s[i] } else { 0 }
}

// How many digits stand at `at`.
pub fn digits(s: &[u8], at: usize) -> usize
    ensures { Len (run digit) s.now at result }
{
    s.get(at..)
        .unwrap_or(&[])
        .iter()
        .take_while(|b| is_digit(**b))
        .count()
}
