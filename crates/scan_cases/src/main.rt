// Replays the stored sources of the files `picked` and `generated` through `lexer::scan`. A line of a file is a source in hexadecimal, an
// empty one a dash; it is printed with ` = ` and the answer behind it:
//
//     ok T TEXT CODE START END ..   T, the decoded text in hexadecimal or a dash, and the tokens, Eof last
//     no NUMBER PLACE               a refusal
//
// Behind that stands `rest` where a word or byte of an area that was not filled is not zero, and `guard` where one beyond an area changed.
// docs/CASES.md says how the cases were made.
#![tactic(auto)]

mod answers;

use answers::print_answer;
use cases::hex::unhex;
use cases::replay::replay_file_unbuffered;
use std::io;

fn print_result(rt: &impl Print, line: &[u8]) -> io::Result<()> {
    let mut space = [0; 4096];
    let n = unhex(line, &mut space);
    print_answer(rt, &space[..n])
}

fn main(rt: HostRuntime) {
    replay_file_unbuffered(&rt, b"picked", |out, line| print_result(out, line));
    replay_file_unbuffered(&rt, b"generated", |out, line| print_result(out, line));
}
