// Eight bytes below 128, looked at together.
ghost use Rattle.std.specs.Prelude.{◌≡◌, ◌+◌, ◌*◌, ◌^◌, ◌<◌, ◌≤◌, length, drop};
ghost use Rattle.utf8.specs.Table.{fits, eight};

// A number of bytes with one byte more, the lowest.
fn push(others: u64, b: u8) -> u64
    requires { others < 2 ^ 56 }
    ensures { (result ≡ others * 256 + b) × (result < (others + 1) * 256) }
{
    others * 256 + b as u64
}

// Whether a round takes eight bytes at i: so many are left, and all are below 128. The number of the eight is one load, of which bit 7 of each is looked at.
pub fn eight(s: &[u8], i: usize) -> bool
    requires { i ≤ length s.now }
    ensures { result ≡ fits eight (drop i s.now) }
{
    if s.len() - i < 8 {
        return false;
    }
    let a = push(0, s[i + 7]);
    let b = push(a, s[i + 6]);
    let c = push(b, s[i + 5]);
    let d = push(c, s[i + 4]);
    let e = push(d, s[i + 3]);
    let f = push(e, s[i + 2]);
    let g = push(f, s[i + 1]);
    let h = push(g, s[i]);
    (h & 0x8080_8080_8080_8080) == 0
}
