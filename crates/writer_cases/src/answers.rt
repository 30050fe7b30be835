// An answer's seven numbers and the text after it, printed.
use cases::hex::Hex;
use cases::lent::SMALL;
use cases::sums::Sums;
use reader::{Stop, Tree};
use std::io;
use writer::Answer;

// The reader's six numbers. Of an accepted tree `accepted` is the first; "a number without a named place has place 0" (02, change 6).
fn print_read(rt: &impl Print, a: reader::Answer, accepted: u32) -> io::Result<()> {
    match a {
        Ok(
            Tree {
                tokens,
                nodes,
                text,
                openings,
            },
        ) => print!(rt; "{accepted} {} {tokens} {nodes} {text} {openings}", 0),
        Err(
            Stop {
                refusal,
                tokens,
                nodes: _,
                openings,
            },
        ) => {
            let number = refusal.reason.number();
            // the zeros are numbers, each written by itself
            print!(rt;
                "{number} {} {tokens} {} {} {openings}",
                refusal.place, 0, 0
            )
        }
    }
}

// These six, and the length of the text.
fn print_seven(
    rt: &impl Print,
    read: reader::Answer,
    accepted: u32,
    length: usize,
) -> io::Result<()> {
    print_read(rt, read, accepted)?;
    print!(rt; " {length}")
}

pub fn print_answer(rt: &impl Print, a: Answer) -> io::Result<()> {
    match a {
        Answer::Text(read, length) => print_seven(rt, read, 0, length),
        Answer::Hollow(read) => print_seven(rt, read, 17, 0),
        Answer::Full(read) => print_seven(rt, read, 18, 0),
        Answer::Unread(read) => print_seven(rt, read, 0, 0),
    }
}

// All of the writer's own slice.
pub fn print_out(rt: &impl Print, out: &[u8]) -> io::Result<()> {
    if SMALL < out.len() {
        return print!(rt; "{}", Sums::of(out));
    }
    print!(rt; " |")?;
    if !out.is_empty() {
        print!(rt; " {}", Hex(out))?;
    }
    Ok(())
}
