// The printed form of a tree or of a refusal, written into a lent buffer.
//
// Each writer writes at a place, each byte once, and answers the place behind what it wrote. Its contract, `Wrote`, says which bytes those are, and
// that the rest of the buffer is as it was. The bytes are written by hand, since nothing is promised of the bytes that `write!` puts there, and a text of
// `format!` wants a heap.
#![tactic(auto)]

ghost use Rattle.std.specs.Prelude.{[], ◌∷◌, ◌≡◌, ◌+◌, ◌*◌, ◌≤◌, ◌<◌, length, take};
ghost use Rattle.ast.specs.Words.{nodes_of};
ghost use Rattle.numbers.specs.Digits.{digits};
ghost use Rattle.printing.specs.Printed.{decimal, spaced, line, node_lines, printed_tree, printed_no};
ghost use Rattle.printing.specs.Wrote.{Wrote, Shows};
ghost use Rattle.printing.specs.Masked.{word, masked};

fn put_byte(out: &mut [u8], at: usize, b: u8) -> usize
    requires { at < length out.old }
    ensures { Wrote (b ∷ []) out.old at out.new result }
{
    out[at] = b;
    at + 1
}

fn digit(n: u64) -> u8
    requires { n < 10 }
    ensures { result ≡ 48 + n }
{
    b'0' + n as u8
}

// The digits of a number that has at most so many.
fn put_digits(out: &mut [u8], at: usize, n: u64, most: usize) -> usize
    requires { at + most ≤ length out.old }
    ensures { Wrote (digits most n) out.old at out.new result }
{
    if most == 0 {
        at
    } else if n < 10 {
        put_byte(out, at, digit(n))
    } else {
        let last = put_digits(out, at, n / 10, most - 1);
        put_byte(out, last, digit(n % 10))
    }
}

// A space and a number.
fn put_number(out: &mut [u8], at: usize, n: u64, most: usize) -> usize
    requires { at + 1 + most ≤ length out.old }
    ensures { Wrote (32 ∷ digits most n) out.old at out.new result }
{
    let next = put_byte(out, at, b' ');
    put_digits(out, next, n, most)
}

// A space and a word; `-` for no node, where the word holds a node's number, which its bit of the mask says.
fn put_word(out: &mut [u8], at: usize, w: u32, holds: bool) -> usize
    requires { at + 11 ≤ length out.old }
    ensures { Wrote (32 ∷ word holds w) out.old at out.new result }
{
    if holds && w == ast::NONE_NODE {
        let dash = put_byte(out, at, b' ');
        put_byte(out, dash, b'-')
    } else {
        put_number(out, at, u64::from(w), 10)
    }
}

// Words, each behind a space. The lowest bit of the mask is the first word's, and says that it holds a node's number.
fn put_words(out: &mut [u8], at: usize, words: &[u32], mask: u32) -> usize
    requires { at + 11 * length words.now ≤ length out.old }
    ensures { Wrote (spaced (masked mask words.now)) out.old at out.new result }
{
    let mut next = at;
    let mut rest = mask;
    for word in words {
        next = put_word(out, next, *word, rest % 2 == 1);
        rest /= 2;
    }
    next
}

// A line: a number, and words behind it.
fn put_line(out: &mut [u8], at: usize, first: u64, words: &[u32], mask: u32) -> usize
    requires { at + 11 + 11 * length words.now ≤ length out.old }
    ensures { Wrote (line (decimal first ∷ masked mask words.now)) out.old at out.new result }
{
    let a = put_digits(out, at, first, 10);
    let b = put_words(out, a, words, mask);
    put_byte(out, b, b'\n')
}

// The index and the record of each node. A record's first bits are those of kind, start, end and next, the one that is always a node's number.
#[tactic(auto, using(crate::proofs::Parts::fields_few))]
fn put_nodes(out: &mut [u8], at: usize, tree: &[u32], nodes: usize) -> usize
    requires { (8 * nodes + 8 ≤ length tree.now) × (at + 99 * nodes ≤ length out.old) }
    ensures { Wrote (node_lines 0 (nodes_of tree.now nodes)) out.old at out.new result }
{
    let mut next = at;
    for k in 0..nodes {
        let from = 8 * k + 8;
        let fields = ast::node_fields(tree[from]);
        next = put_line(out, next, k as u64, &tree[from..from + 8], 8 + 16 * fields);
    }
    next
}

// Prints a tree of so many nodes: its header's line, which takes at most 88 bytes, and a line for each node, which takes at most 99.
pub fn print_tree(tree: &[u32], nodes: usize, out: &mut [u8]) -> usize
    requires { (8 * nodes + 8 ≤ length tree.now) × (99 * nodes + 88 ≤ length out.old) }
    ensures { Shows (printed_tree (take 8 tree.now) (nodes_of tree.now nodes)) out.old out.new result }
{
    let next = put_line(out, 0, u64::from(tree[0]), &tree[1..8], 0);
    put_nodes(out, next, tree, nodes)
}

// Prints a refusal, the line `no NUMBER PLACE`.
pub fn print_no(number: u32, place: usize, out: &mut [u8]) -> usize
    requires { 35 ≤ length out.old }
    ensures { Shows (printed_no number place) out.old out.new result }
{
    let a = put_byte(out, 0, b'n');
    let b = put_byte(out, a, b'o');
    let c = put_number(out, b, u64::from(number), 10);
    let d = put_number(out, c, place as u64, 20);
    put_byte(out, d, b'\n')
}
