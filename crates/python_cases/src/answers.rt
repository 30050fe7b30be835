// The tree of one source, printed.
use cases::hex::Hex;
use std::io;

// The longest source: its areas have 3,072 words of tokens, 1,023 bytes of text and 16,384 words of tree.
const LONGEST: usize = 1023;

// "none is 4294967295" (01, Tree)
const NONE: u32 = 4294967295;

fn print_word(rt: &impl Print, w: u32) -> io::Result<()> {
    print!(rt; " ")?;
    match w {
        NONE => print!(rt; "-"),
        _ => print!(rt; "{w}"),
    }
}

// The records of the words from 8 up to `to`.
fn print_records(rt: &impl Print, tree: &[u32], to: usize) -> io::Result<()> {
    let Some(words) = tree.get(8..to) else {
        return print!(rt; " end");
    };
    for record in words.chunks(8) {
        print!(rt; " |")?;
        for w in record {
            print_word(rt, *w)?;
        }
    }
    Ok(())
}

// So many bytes of the text, none as a dash.
fn print_text(rt: &impl Print, text: &[u8], count: usize) -> io::Result<()> {
    print!(rt; " ")?;
    match text.get(..count) {
        Some([]) => print!(rt; "-"),
        Some(s) => print!(rt; "{}", Hex(s)),
        None => print!(rt; "end"),
    }
}

// By the header's counts of nodes, tokens and bytes of text.
fn print_tree(rt: &impl Print, text: &[u8], tree: &[u32]) -> io::Result<()> {
    let [_, nodes, tokens, bytes, ..] = tree else {
        return Ok(());
    };
    print!(rt; "{tokens}")?;
    print_word(rt, *nodes)?;
    print_text(rt, text, *bytes as usize)?;
    print_records(rt, tree, 8 * (*nodes as usize) + 8)
}

fn print_refusal(rt: &impl Print, number: u32, place: usize) -> io::Result<()> {
    print!(rt; "no {number} {place}")
}

pub fn print_answer(rt: &impl Print, src: &[u8]) -> io::Result<()> {
    if LONGEST < src.len() {
        return print!(rt; "too long");
    }
    let mut tokens = [0; 3072];
    let mut text = [0; 1023];
    let mut tree = [0; 16384];
    match reader::parse_source(src, &mut tokens, &mut text, &mut tree) {
        Ok(_) => print_tree(rt, &text, &tree),
        Err(stop) => print_refusal(rt, stop.refusal.reason.number(), stop.refusal.place),
    }
}
