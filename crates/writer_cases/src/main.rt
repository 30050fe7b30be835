// Replays the stored cases of the files that its arguments name through `writer::write_source`. A line of a file is three marks, a space, how many bytes are lent for
// the text, a space and a source. Marks and source are as those of `reader_cases`. The line is printed with ` = ` and the answer behind it:
//
//     NUMBER PLACE T N TEXT OPENINGS LENGTH | TOKENS | TEXT | TREE | OUT
//
// The three slices of the reader are shown by their lengths and two sums, the writer's own whole, in hexadecimal, where it has up to 1,023 bytes, and so too where it
// has more. docs/CASES.md says how the cases were made.
#![tactic(auto)]

mod answers;

use answers::{print_answer, print_out};
use cases::lent::{GUARD_BYTE, Marks, lend};
use cases::replay::replay_unbuffered;
use cases::sources::{count_of, expand};
use cases::sums::Sums;
use std::io;
use std::io::ErrorKind;

// At most 65,600 bytes are lent for the text.
fn print_case(rt: &impl Print, marks: Marks, room: usize, spelt: &[u8]) -> io::Result<()> {
    let mut space = [0; 65600];
    let n = expand(spelt, &mut space);
    let src = &space[..n];
    let mut most = [GUARD_BYTE; 65600];
    let room = room.min(most.len());
    let out = &mut most[..room];
    lend(n, marks, |tokens, text, tree| {
        print_answer(rt, writer::write_source(src, tokens, text, tree, out))?;
        print!(rt; "{}{}{}", Sums::of(tokens), Sums::of(text), Sums::of(tree))?;
        print_out(rt, out)
    })
}

fn print_result(rt: &impl Print, line: &[u8]) -> io::Result<()> {
    let [a, b, c, _, rest @ ..] = line else {
        return Err(ErrorKind::InvalidInput.into());
    };
    let Some(end) = rest.iter().position(|x| *x == b' ') else {
        return Err(ErrorKind::InvalidInput.into());
    };
    let marks = Marks {
        tokens: *a,
        text: *b,
        tree: *c,
    };
    print_case(rt, marks, count_of(&rest[..end]), &rest[end + 1..])
}

fn main(rt: HostRuntime) {
    replay_unbuffered(&rt, |out, line| print_result(out, line));
}
