// The lengths of the patterns of specs/Pattern.antt at a place, and nothing where one does not match.
ghost use Rattle.std.specs.Prelude.{◌≡◌, true, ◌<◌, length, get_or};
ghost use Rattle.source.specs.Bytes.{run, digit};
ghost use Rattle.raw_token.specs.Pattern.{fraction, exponent, int, string, is_quote, is_sign_lem, is_e};
ghost use Rattle.raw_token.specs.Parts.{Matches};

// The length of digits, one or more.
fn digits(s: &[u8], at: usize) -> Option<usize>
    ensures { Matches (run digit) s.now at result }
{
    let n = source::digits(s, at);
    (0 < n).then_some(n)
}

// The length of a dot and digits.
pub(crate) fn fraction_len(s: &[u8], at: usize) -> Option<usize>
    ensures { Matches fraction s.now at result }
{
    if source::byte(s, at) != b'.' {
        return None;
    }
    Some(1 + digits(s, at + 1)?)
}

fn is_sign(b: u8) -> bool
    ensures { result ≡ is_sign_lem b }
{
    matches!(b, b'+' | b'-')
}

fn is_letter_e(b: u8) -> bool
    ensures { result ≡ is_e b }
{
    matches!(b, b'e' | b'E')
}

// The length of an optional sign and digits.
pub(crate) fn int_len(s: &[u8], at: usize) -> Option<usize>
    ensures { Matches int s.now at result }
{
    if !is_sign(source::byte(s, at)) {
        return digits(s, at);
    }
    Some(1 + digits(s, at + 1)?)
}

// The length of an exponent: e or E, an optional sign, digits.
pub(crate) fn exponent_len(s: &[u8], at: usize) -> Option<usize>
    ensures { Matches exponent s.now at result }
{
    if !is_letter_e(source::byte(s, at)) {
        return None;
    }
    Some(1 + int_len(s, at + 1)?)
}

// The length of a string, which starts with a quote.
pub(crate) fn string_len(s: &[u8], at: usize) -> Option<usize>
    requires { (at < length s.now) × (is_quote (get_or s.now at 0) ≡ true) }
    ensures { Matches string s.now at result }
{
    let quote = s[at];
    // whether a backslash stands before the byte
    let mut escaped = false;
    for i in at + 1..s.len() {
        let b = s[i];
        if escaped {
            if b == b'\n' {
                return None;
            }
            escaped = false;
        } else if b == quote {
            return Some(i + 1 - at);
        } else {
            escaped = b == b'\\';
        }
    }
    None
}
