// The sequence at a place, by table 3-7: its first byte says how long it is and which range the second byte has; all further bytes are continuation bytes.
ghost use Rattle.std.specs.Prelude.{◌≡◌, cond, ◌<◌, ◌≤◌, eqb, length, get_or, drop};
ghost use Rattle.source.specs.Bytes.{between};
ghost use Rattle.utf8.specs.Table.{sequence_at};

// The least second byte behind b: E0 80 .. E0 9F and F0 80 .. F0 8F would be overlong.
fn least(b: u8) -> u8
    ensures { result ≡ cond (eqb b 0xE0) 0xA0 (cond (eqb b 0xF0) 0x90 0x80) }
{
    match b {
        0xE0 => 0xA0,
        0xF0 => 0x90,
        _ => 0x80,
    }
}

// The greatest: ED A0 .. ED BF would be surrogates, F4 90 .. F4 BF above U+10FFFF.
fn most(b: u8) -> u8
    ensures { result ≡ cond (eqb b 0xED) 0x9F (cond (eqb b 0xF4) 0x8F 0xBF) }
{
    match b {
        0xED => 0x9F,
        0xF4 => 0x8F,
        _ => 0xBF,
    }
}

// Whether a continuation byte stands at k.
fn continues(s: &[u8], k: usize) -> bool
    ensures { result ≡ between 0x80 0xBF (get_or s.now k 0) }
{
    let c = source::byte(s, k);
    (0x80 <= c) & (c <= 0xBF)
}

// The length of the sequence at i whose first byte is from E0 to F4, if there is one: three bytes, or four from F0 on.
fn longer(s: &[u8], i: usize) -> Option<usize>
    requires { (i < length s.now) × (0xE0 ≤ get_or s.now i 0) × (get_or s.now i 0 ≤ 0xF4) }
    ensures { result ≡ sequence_at (drop i s.now) }
{
    let b = s[i];
    let a = source::byte(s, i + 1);
    let lo = least(b);
    let hi = most(b);
    let third = continues(s, i + 2);
    if ((lo <= a) & (a <= hi)) & third {
        if b < 0xF0 {
            return Some(3);
        }
        if continues(s, i + 3) {
            return Some(4);
        }
    }
    None
}

// The length of the well-formed sequence at i, if there is one.
pub fn sequence(s: &[u8], i: usize) -> Option<usize>
    requires { i < length s.now }
    ensures { result ≡ sequence_at (drop i s.now) }
{
    match s[i] {
        0x00..=0x7F => Some(1),
        0xC2..=0xDF => { if continues(s, i + 1) { Some(2) } else { None } }
        0xE0..=0xF4 => longer(s, i),
        _ => None,
    }
}
