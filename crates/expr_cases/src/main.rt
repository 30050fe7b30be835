// Reads expressions from standard input, and replays each through `lexer::scan` and then `expr::comma_list`, the part t of the grammar. A line of
// the input is a source in hexadecimal, an empty one a dash; it is printed with ` = ` and the answer behind it:
//
//     ok AT NODES OPENED WORD ..   the token after t, how many nodes and openings, and the eight words of each node
//     no NUMBER PLACE              a refusal of the scanner
//     no NUMBER PLACE OPENED       a refusal of t, 13 or what it hands on (14 or 16), with the openings up to it
//
// What follows t is not asked for. docs/CASES.md says how the cases were made.
#![tactic(auto)]

mod answers;

use answers::print_answer;
use cases::hex::unhex;
use cases::lines::read_full;
use cases::replay::replay_text_unbuffered;
use std::io;

fn print_result(rt: &impl Print, line: &[u8]) -> io::Result<()> {
    let mut space = [0; 4096];
    let n = unhex(line, &mut space);
    print_answer(rt, &space[..n])
}

fn main(rt: HostRuntime) {
    let mut text = [0; 65536];
    let n = read_full(&mut rt.stdin(), &mut text);
    replay_text_unbuffered(&text[..n], |out, line| print_result(out, line));
}
