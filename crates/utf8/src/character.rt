// The character at a place of a slice: its code point, and how many bytes it has.
ghost use Rattle.std.specs.Prelude.{◌≡◌, ◌<◌, length};
ghost use Rattle.utf8.specs.Character.{Decoded};

#[derive(Clone, Copy)]
pub struct Character {
    pub code: u32,
    pub len: usize,
}

// The well-formed sequence at i, its bits joined, if there is one.
pub fn decode(s: &[u8], i: usize) -> Option<Character>
    requires { i < length s.now }
    ensures { Decoded s.now i result }
{
    let len = crate::sequence::sequence(s, i)?;
    let a = u32::from(s[i]);
    if len == 1 {
        return Some(Character { code: a, len });
    }
    let b = u32::from(s[i + 1]) % 64;
    if len == 2 {
        let code = a % 32 * 64 + b;
        return Some(Character { code, len });
    }
    let d = u32::from(s[i + 2]) % 64;
    if len == 3 {
        let code = (a % 16 * 64 + b) * 64 + d;
        return Some(Character { code, len });
    }
    let e = u32::from(s[i + 3]) % 64;
    let code = ((a % 8 * 64 + b) * 64 + d) * 64 + e;
    Some(Character { code, len })
}
