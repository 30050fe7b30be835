// The three slices that a case is lent for its source: their lengths by its marks, and what they hold before the call.
ghost use Rattle.std.specs.Prelude.{◌≡◌, ◌<◌, ◌≤◌, ◌^◌};
ghost use Rattle.cases.specs.Lent.{CalledByMarks, lent_len, room};

use std::io;

// What the slices hold before the call. No word of an answer is such a word, but by chance, and no text has such a byte.
const GUARD_WORD: u32 = 2863311530;

pub const GUARD_BYTE: u8 = 255;

// The longest source whose slices are made small.
pub const SMALL: usize = 1023;

// For each slice how long it is: `-` one short of the area, a digit so many more than it, `.` nothing at all.
#[derive(Clone, Copy)]
pub struct Marks {
    pub tokens: u8,
    pub text: u8,
    pub tree: u8,
}

// A slice's length by its mark, at most what there is room for.
pub fn lent(area: usize, mark: u8, room: usize) -> usize
    requires { area ≤ 2000000 }
    ensures bound { result ≤ room }
    ensures value { result ≡ lent_len area mark room }
{
    let wanted = match mark {
        b'-' => area.saturating_sub(1),
        b'0'..=b'9' => area + usize::from(mark - b'0'),
        _ => 0,
    };
    wanted.min(room)
}

// Calls f with as much of slices of these lengths as the marks say for a source of n bytes.
fn lend_of<
    const TOKENS: usize,
    const TEXT: usize,
    const TREE: usize,
    F: FnOnce(&mut [u32], &mut [u8], &mut [u32]) -> io::Result<()>,
>(n: usize, marks: Marks, f: F) -> io::Result<()>
    requires sizes { (TOKENS < 2 ^ 32) × (TEXT < 2 ^ 32) × (TREE < 2 ^ 32) }
    requires source { n ≤ 65600 }
    requires callable { F.IsAlwaysCallable f }
    ensures called { CalledByMarks (F.post f) n marks.tokens marks.text marks.tree TOKENS TEXT TREE result }
{
    let mut tokens = [GUARD_WORD; TOKENS];
    let mut text = [GUARD_BYTE; TEXT];
    let mut tree = [GUARD_WORD; TREE];
    let i = lent(3 * (n + 1), marks.tokens, TOKENS);
    let j = lent(n, marks.text, TEXT);
    let k = lent(16 * n + 16, marks.tree, TREE);
    f(&mut tokens[..i], &mut text[..j], &mut tree[..k])
}

// Each slice has room for 9 more than the area of a source up to 1,023 bytes, or up to 65,537.
pub fn lend<F: FnOnce(&mut [u32], &mut [u8], &mut [u32]) -> io::Result<()>>(
    n: usize,
    marks: Marks,
    f: F,
) -> io::Result<()>
    requires source { n ≤ 65600 }
    requires callable { F.IsAlwaysCallable f }
    ensures called { CalledByMarks (F.post f) n marks.tokens marks.text marks.tree (room n 3081 196623) (room n 1032 65546) (room n 16393 1048617) result }
{
    if n <= SMALL {
        lend_of::<3081, 1032, 16393, F>(n, marks, f)
    } else {
        lend_of::<196623, 65546, 1048617, F>(n, marks, f)
    }
}
