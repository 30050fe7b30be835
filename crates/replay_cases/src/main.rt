// Replays lines through `cases::replay`, which prints by the runtime's own output: those of a text, of the file `lines`, and of the files that the arguments name. A
// line is printed with ` = ` and its bytes in hexadecimal behind it; of one that begins with `!` the first byte alone, and the rest of its case is lost.
//
// docs/CASES.md says how what must come was made.
#![tactic(auto)]

use cases::hex::Hex;
use cases::replay::{replay, replay_file, replay_text};
use std::io;
use std::io::ErrorKind;

const TEXT: &[u8] = b"a text\n!lost\nits last line";

fn print_result(rt: &impl Print, line: &[u8]) -> io::Result<()> {
    match line {
        [b'!', ..] => {
            print!(rt; "21")?;
            Err(ErrorKind::InvalidInput.into())
        }
        _ => print!(rt; "{}", Hex(line)),
    }
}

fn main(rt: HostRuntime) {
    replay_text(&rt, TEXT, |line| print_result(&rt, line));
    replay_file(&rt, b"lines", |line| print_result(&rt, line));
    replay(&rt, |line| print_result(&rt, line));
}
