// Replays stored sources that CPython reads too, from the files that its arguments name, through `reader::parse_source`. A line of a file is a source in
// hexadecimal, an empty one a dash; it is printed with ` = ` and one of these behind it:
//
//     TOKENS NODES TEXT | RECORD | RECORD ..   how many tokens and nodes, the decoded text in hexadecimal, and the eight words of each node
//     no NUMBER PLACE                          a refusal, which none of the files has
//
// No text at all and the word that means none are a dash.
//
// What must come is made from CPython's own reading. docs/CASES.md says how.
#![tactic(auto)]

mod answers;

use answers::print_answer;
use cases::hex::unhex;
use cases::replay::replay_unbuffered;
use std::io;

fn print_result(rt: &impl Print, line: &[u8]) -> io::Result<()> {
    let mut space = [0; 4096];
    let n = unhex(line, &mut space);
    print_answer(rt, &space[..n])
}

fn main(rt: HostRuntime) {
    replay_unbuffered(&rt, |out, line| print_result(out, line));
}
