// What the reader of t answers for one source and leaves in the tree, printed.
ghost use Rattle.std.specs.Prelude.{◌≤◌, length};
ghost use Rattle.lookahead.specs.Tokens.{Tokens};

use leaves::{Added, State};
use lexer::Scanned;
use source::Refusal;
use std::io;
use std::ops::Range;
use token::TokenNumber;

// The longest source: its areas have 3,072 words of tokens, 1,023 bytes of text and 16,384 words of tree.
const LONGEST: usize = 1023;

// "At most 64 E and Block open at once" (01, Questions).
const DEPTH: u32 = 64;

fn print_words(rt: &impl Print, s: &[u32], range: Range<usize>) -> io::Result<()> {
    let Some(words) = s.get(range) else {
        return print!(rt; " end");
    };
    for w in words {
        print!(rt; " {w}")?;
    }
    Ok(())
}

fn print_nodes(rt: &impl Print, tree: &[u32], s: State) -> io::Result<()> {
    let TokenNumber(at) = s.at;
    let nodes = s.nodes;
    print!(rt; "ok")?;
    print!(rt; " {at} {nodes} {}", s.opened)?;
    print_words(rt, tree, 8..8 * (nodes as usize) + 8)
}

// The place is where the state's token starts.
fn print_refusal(rt: &impl Print, toks: &[u32], number: u32, s: State) -> io::Result<()> {
    let TokenNumber(at) = s.at;
    let i = 3 * (at as usize) + 1;
    print!(rt; "no")?;
    print!(rt; " {number}")?;
    print_words(rt, toks, i..i + 1)?;
    print!(rt; " {}", s.opened)
}

fn print_tree(rt: &impl Print, src: &[u8], toks: &[u32]) -> io::Result<()>
    requires tokens { Tokens src.now toks.now }
    requires toks_len_bound { length toks.now ≤ 3072 }
{
    let mut tree = [0; 16384];
    let s = State {
        at: TokenNumber(0),
        nodes: 0,
        opened: 0,
        used: 0,
    };
    match expr::comma_list(src, toks, &mut tree, DEPTH, s) {
        Ok(Added(_, after)) => print_nodes(rt, &tree, after),
        Err(refused) => print_refusal(rt, toks, refused.reason().number(), refused.state()),
    }
}

pub fn print_answer(rt: &impl Print, src: &[u8]) -> io::Result<()> {
    if LONGEST < src.len() {
        return print!(rt; "too long");
    }
    let mut tokens = [0; 3072];
    let mut text = [0; 1023];
    match lexer::scan(src, &mut tokens, &mut text) {
        Ok(Scanned { count, text: _ }) => {
            let words = 3 * (count + 1);
            print_tree(rt, src, &tokens[..words])
        }
        Err(Refusal { reason, place }) => {
            print!(rt; "no")?;
            print!(rt; " {} {place}", reason.number())
        }
    }
}
