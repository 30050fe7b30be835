// What stands between tokens.
ghost use Rattle.std.specs.Prelude.{◌≡◌, true, ◌+◌, ◌≤◌, length, drop};
ghost use Rattle.source.specs.Bytes.{run};
ghost use Rattle.spacing.specs.Gap as Gap;
ghost use Rattle.spacing.specs.Gap.{gap, gap_end_lem};

fn is_blank(b: u8) -> bool
    ensures { result ≡ Gap.is_blank b }
{
    matches!(b, b' ' | b'\t' | b'\r')
}

// Where a comment ends, from behind its `#`: before the line feed, or with the source.
fn comment_end(s: &[u8], at: usize) -> usize
    requires { at ≤ length s.now }
    ensures { (result ≡ at + gap true (drop at s.now)) × (result ≤ length s.now) × (at ≤ result) }
{
    let rest = &s[at..];
    at + rest.iter().position(|b| *b == b'\n').unwrap_or(rest.len())
}

// Where the blanks from `at` on end.
fn blanks_end(s: &[u8], at: usize) -> usize
    requires { at ≤ length s.now }
    ensures { (result ≡ at + run Gap.is_blank (drop at s.now)) × (result ≤ length s.now) × (at ≤ result) }
{
    let rest = &s[at..];
    at + rest
        .iter()
        .position(|b| !is_blank(*b))
        .unwrap_or(rest.len())
}

// The place behind the blanks and comments at `at`. The blanks are passed first: a loop with one `match` for these and the `#` is a jump by a table for each byte.
pub fn gap_end(s: &[u8], at: usize) -> usize
    requires { at ≤ length s.now }
    ensures { (result ≡ gap_end_lem s.now at) × (result ≤ length s.now) × (at ≤ result) }
{
    let end = blanks_end(s, at);
    if source::byte(s, end) == b'#' {
        comment_end(s, end + 1)
    } else {
        end
    }
}
