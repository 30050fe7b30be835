// Replays the stored cases of the files that its arguments name through `reader::parse_source`. A line of a file is three marks, a space and a
// source. The marks say how long the token slice, the text slice and the tree slice are: `-` one short of the area, a digit so many more than
// it, `.` nothing at all. The line is printed with ` = ` and the answer behind it:
//
//     NUMBER PLACE T N TEXT OPENINGS WRITTEN | TOKENS | TEXT | TREE
//
// WRITTEN is how many nodes were written, in a refusal as well. The slices are shown whole: words in base ten, a row of equal ones as WORD*COUNT, and
// bytes in hexadecimal. Of a source over 1,023 bytes each slice is shown by its length and two sums. docs/CASES.md says how the cases were made.
#![tactic(auto)]

mod answers;

use answers::{print_answer, print_slices, print_sums};
use cases::lent::{Marks, SMALL, lend};
use cases::replay::replay_unbuffered;
use cases::sources::expand;
use std::io;
use std::io::ErrorKind;

fn print_result(rt: &impl Print, line: &[u8]) -> io::Result<()> {
    let [a, b, c, _, spelt @ ..] = line else {
        return Err(ErrorKind::InvalidInput.into());
    };
    let mut space = [0; 65600];
    let n = expand(spelt, &mut space);
    let src = &space[..n];
    let marks = Marks {
        tokens: *a,
        text: *b,
        tree: *c,
    };
    lend(n, marks, |tokens, text, tree| {
        print_answer(rt, reader::parse_source(src, tokens, text, tree))?;
        if n <= SMALL {
            print_slices(rt, tokens, text, tree)
        } else {
            print_sums(rt, tokens, text, tree)
        }
    })
}

fn main(rt: HostRuntime) {
    replay_unbuffered(&rt, |out, line| print_result(out, line));
}
