// Replays the stored cases of the files that its arguments name through the public functions of the leaves. A line of a file is a letter, a
// space and a case; it is printed with ` = ` and the result behind it:
//
//     i TEXT   an Int: the 64 bits of its value in hexadecimal, or a dash where it is out of range
//     f TEXT   a Float: the 64 bits of its value in hexadecimal, or a dash where it is not admitted
//     t HEX    a source: the token at each place, up to the end, as code:end, or a dash where none matches
//     s HEX    what stands between a String's quotes: its decoded bytes and how many they are
//     u HEX    a text: whether it is well-formed UTF-8, or the place where it is not; and the rounds of the check
//     c HEX    a text: each character's code point, with s where it is in XID_Start and c where it is in XID_Continue, up to a place with no character
//
// docs/CASES.md says how the cases were made.
#![tactic(auto)]

mod answers;

use answers::{print_characters, print_float, print_int, print_string, print_tokens, print_utf8};
use cases::hex::unhex;
use cases::replay::replay_unbuffered;
use std::io;
use std::io::ErrorKind;

// The result of a case whose bytes are written in hexadecimal.
fn print_bytes_result(rt: &impl Print, letter: u8, hex: &[u8]) -> io::Result<()> {
    let mut space = [0; 4096];
    let n = unhex(hex, &mut space);
    let s = &space[..n];
    match letter {
        b't' => print_tokens(rt, s),
        b's' => print_string(rt, s),
        b'u' => print_utf8(rt, s),
        b'c' => print_characters(rt, s),
        _ => print!(rt; "no such case"),
    }
}

fn print_result(rt: &impl Print, line: &[u8]) -> io::Result<()> {
    match line {
        [b'i', _, text @ ..] => print_int(rt, text),
        [b'f', _, text @ ..] => print_float(rt, text),
        [letter, _, hex @ ..] => print_bytes_result(rt, *letter, hex),
        _ => Err(ErrorKind::InvalidInput.into()),
    }
}

fn main(rt: HostRuntime) {
    replay_unbuffered(&rt, |out, line| print_result(out, line));
}
