// The value of a Float, as "123.4500" or "6.02e23": the f64 that one multiplication or one division of two exact numbers gives.
ghost use Rattle.std.specs.Prelude.{◌≡◌, false, ℕ, ◌^◌, ◌<◌, ◌≤◌, length};
ghost use Rattle.numbers.specs.Digits.{number, is_minus};
ghost use Rattle.numbers.specs.Decimal.{whole, scale_of, value_of, after_dot, decimal_of};

use super::digits::{find, joined};

// 10 ^ p: a factor for p at least 0, else a divisor.
#[derive(Clone, Copy)]
enum Scale {
    Times(u64),
    Over(u64),
}

// 10 ^ k, which an f64 holds exactly.
fn ten(k: u64) -> f64
    requires { k ≤ 22 }
    ensures { result ≡ whole (10 ^ k) }
{
    match k {
        0 => 1.0,
        1 => 10.0,
        2 => 100.0,
        3 => 1000.0,
        4 => 10000.0,
        5 => 100000.0,
        6 => 1000000.0,
        7 => 10000000.0,
        8 => 100000000.0,
        9 => 1000000000.0,
        10 => 10000000000.0,
        11 => 100000000000.0,
        12 => 1000000000000.0,
        13 => 10000000000000.0,
        14 => 100000000000000.0,
        15 => 1000000000000000.0,
        16 => 10000000000000000.0,
        17 => 100000000000000000.0,
        18 => 1000000000000000000.0,
        19 => 10000000000000000000.0,
        20 => 100000000000000000000.0,
        21 => 1000000000000000000000.0,
        _ => 10000000000000000000000.0,
    }
}

// m times 10 ^ p, or none where m is over 2 ^ 53 or p not from -22 to 22.
fn scaled(m: u64, p: Scale) -> Option<f64>
    ensures { result ≡ value_of m p }
{
    if m > 9007199254740992 {
        return None;
    }
    match p {
        Scale::Times(k @ 0..=22) => Some(m as f64 * ten(k)),
        Scale::Over(k @ 0..=22) => Some(m as f64 / ten(k)),
        _ => None,
    }
}

// 10 ^ (exponent - places).
fn less(exponent: u64, places: u64) -> Scale
    ensures { result ≡ scale_of false exponent places }
{
    if places <= exponent {
        Scale::Times(exponent - places)
    } else {
        Scale::Over(places - exponent)
    }
}

// How many bytes of s stand after its dot.
fn places(s: &[u8]) -> u64
    ensures { (result ≡ length (after_dot s.now)) × (result ≤ length s.now) }
{
    let dot = find(s, b'.', b'.');
    if dot < s.len() {
        (s.len() - dot - 1) as u64
    } else {
        0
    }
}

// A power of ten that gives what the exponent s less the places gives. Digits of the exponent stop where p is past -22 or 22, so no sum
// overflows.
fn power(s: &[u8], places: u64) -> Scale
    requires { places < 2 ^ 63 }
    ensures { (m : ℕ) → value_of m result ≡ value_of m (scale_of (is_minus s.now) (number 0 s.now) places) }
{
    if source::byte(s, 0) == b'-' {
        Scale::Over(joined(s, 23) + places)
    } else {
        less(joined(s, places + 23), places)
    }
}

// The value of the Float token s. Its digits and its exponent's may be of any number: m stops at 2 ^ 53 + 1, which is not admitted.
pub fn float_value(s: &[u8]) -> Option<f64>
    ensures { result ≡ decimal_of s.now }
{
    let e = find(s, b'e', b'E');
    let mantissa = &s[..e];
    let m = joined(mantissa, 9007199254740993);
    let after = places(mantissa);
    if e < s.len() {
        scaled(m, power(&s[e + 1..], after))
    } else {
        scaled(m, less(0, after))
    }
}
