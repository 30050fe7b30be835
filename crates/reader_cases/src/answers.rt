// An answer and the slices after it, printed.
use cases::hex::Hex;
use cases::sums::Sums;
use reader::{Answer, Stop, Tree};
use std::io;

// "An answer holds number, place, T, N, text bytes, openings" (01, Questions), and the nodes written.
pub fn print_answer(rt: &impl Print, a: Answer) -> io::Result<()> {
    match a {
        Ok(
            Tree {
                tokens,
                nodes,
                text,
                openings,
            },
        ) => {
            print!(rt; "0 0")?;
            print!(rt; " {tokens} {nodes} {text} {openings} {nodes}")
        }
        Err(
            Stop {
                refusal,
                tokens,
                nodes,
                openings,
            },
        ) => {
            let number = refusal.reason.number();
            // the zeros are numbers, each written by itself
            print!(rt;
                "{number} {} {tokens} {} {} {openings} {nodes}",
                refusal.place, 0, 0
            )
        }
    }
}

// A row of equal words as one.
fn print_words(rt: &impl Print, s: &[u32]) -> io::Result<()> {
    print!(rt; " |")?;
    for row in s.chunk_by(|a, b| a == b) {
        let word = row[0];
        let count = row.len();
        if 1 < count {
            print!(rt; " {word}*{count}")?;
        } else {
            print!(rt; " {word}")?;
        }
    }
    Ok(())
}

// Every word and byte of the three slices.
pub fn print_slices(rt: &impl Print, tokens: &[u32], text: &[u8], tree: &[u32]) -> io::Result<()> {
    print_words(rt, tokens)?;
    print!(rt; " |")?;
    if !text.is_empty() {
        print!(rt; " {}", Hex(text))?;
    }
    print_words(rt, tree)
}

// The length of each slice, and two sums of all its words.
pub fn print_sums(rt: &impl Print, tokens: &[u32], text: &[u8], tree: &[u32]) -> io::Result<()> {
    print!(rt; "{}{}{}", Sums::of(tokens), Sums::of(text), Sums::of(tree))
}
