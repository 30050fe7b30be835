// What the scanner answers for one source and leaves in the slices, printed.
ghost use Rattle.std.specs.Prelude.{◌≤◌};

use cases::hex::Hex;
use lexer::Scanned;
use source::Refusal;
use std::io;
use std::ops::Range;

// The slices are longer than their areas, and hold these before the scan. No word of a token is so large, and no decoded text has such a byte.
const GUARD_WORD: u32 = 4294967295;

const GUARD_BYTE: u8 = 255;

// The longest source: its areas have 6,147 words and 2,048 bytes.
const LONGEST: usize = 2048;

// Whether each word or byte of the range is there and is x.
fn are<T: Copy + PartialEq>(s: &[T], range: Range<usize>, x: T) -> bool {
    s.get(range)
        .is_some_and(|part| part.iter().all(|y| *y == x))
}

// Says where the slices are not as document 01 has them: zeros behind what was filled, and what lies beyond the areas as it was.
fn print_rest(
    rt: &impl Print,
    n: usize,
    words: &[u32],
    text: &[u8],
    filled: usize,
    used: usize,
) -> io::Result<()>
    requires { n ≤ 65536 }
{
    let area = 3 * (n + 1);
    if !are(words, filled..area, 0) || !are(text, used..n, 0) {
        print!(rt; " rest")?;
    }
    if !are(words, area..words.len(), GUARD_WORD) || !are(text, n..text.len(), GUARD_BYTE) {
        print!(rt; " guard")?;
    }
    Ok(())
}

// The tokens and the text of a source of n bytes.
fn print_tokens(
    rt: &impl Print,
    n: usize,
    words: &[u32],
    text: &[u8],
    count: usize,
    used: usize,
) -> io::Result<()>
    requires { n ≤ 65536 }
{
    if n < count {
        return print!(rt; "too many tokens");
    }
    let Some(decoded) = text.get(..used) else {
        return print!(rt; "too much text");
    };
    print!(rt; "ok")?;
    print!(rt; " {count} ")?;
    if used == 0 {
        print!(rt; "-")?;
    }
    print!(rt; "{}", Hex(decoded))?;
    let filled = 3 * (count + 1);
    for w in words.iter().take(filled) {
        print!(rt; " {w}")?;
    }
    print_rest(rt, n, words, text, filled, used)
}

pub fn print_answer(rt: &impl Print, src: &[u8]) -> io::Result<()> {
    let n = src.len();
    if LONGEST < n {
        return print!(rt; "too long");
    }
    let mut words = [GUARD_WORD; 6400];
    let mut text = [GUARD_BYTE; 2304];
    match lexer::scan(src, &mut words, &mut text) {
        Ok(Scanned { count, text: used }) => print_tokens(rt, n, &words, &text, count, used),
        Err(Refusal { reason, place }) => {
            print!(rt; "no")?;
            print!(rt; " {} {place}", reason.number())?;
            print_rest(rt, n, &words, &text, 0, 0)
        }
    }
}
