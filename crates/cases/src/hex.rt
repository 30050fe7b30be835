// Bytes in hexadecimal, two lower-case digits each.
ghost use Rattle.std.specs.Prelude.{◌≡◌, ◌<◌, length, take};
ghost use Rattle.std.proofs.lemmas.List.Edits.{sets};
ghost use Rattle.io.specs.Counts.{IsPrefixLen};
ghost use Rattle.cases.specs.Hex.{nibble_of, unhexed};

use std::fmt;
use std::fmt::{Display, Formatter, InlineText};

// A hexadecimal digit's value; any other byte counts as 0.
fn nibble(b: u8) -> u8
    ensures value { result ≡ nibble_of b }
    ensures upper_bound { result < 16 }
{
    match b {
        b'0'..=b'9' => b - b'0',
        b'a'..=b'f' => b - b'a' + 10,
        _ => 0,
    }
}

// Puts the bytes that the digits of hex spell at the start of out, as many as there is room for, and answers how many.
pub fn unhex(hex: &[u8], out: &mut [u8]) -> usize
    ensures prefix_len { IsPrefixLen result out.new }
    ensures out_after { out.new ≡ sets out.old 0 (take (length out.old) (unhexed hex.now)) }
    ensures value { result ≡ length (take (length out.old) (unhexed hex.now)) }
{
    // n counts by hand, since of what a zip with `out.iter_mut()` wrote a proof knows nothing
    let mut n = 0;
    let mut digits = hex;
    while let [high, low, rest @ ..] = digits {
        if n == out.len() {
            break;
        }
        out[n] = nibble(*high) * 16 + nibble(*low);
        n += 1;
        digits = rest;
    }
    n
}

// Bytes, printed so.
#[derive(Clone, Copy)]
pub struct Hex<'a>(pub &'a [u8]);

impl Display for Hex<'_> {
    fn fmt<W: fmt::Write>(&self, f: &mut Formatter<W>) -> fmt::Result {
        for b in self.0 {
            // both digits in one write: a padded hole would be two
            let digits = InlineText::<2>::of(format_args!("{b:02x}"));
            f.write_str(digits.as_str())?;
        }
        Ok(())
    }
}
