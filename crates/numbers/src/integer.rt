// The value of an Int: a sign, or none, and digits, of any number.
ghost use Rattle.std.specs.Prelude.{◌≡◌};
ghost use Rattle.numbers.specs.Integer.{integer_of};

use super::digits::joined;

// The value of the Int token s. Digits stop at 2^63 + 1, which has no value with either sign.
pub fn int_value(s: &[u8]) -> Option<i64>
    ensures { result ≡ integer_of s.now }
{
    let n = joined(s, 9223372036854775809);
    if source::byte(s, 0) == b'-' {
        0i64.checked_sub_unsigned(n)
    } else {
        i64::try_from(n).ok()
    }
}
