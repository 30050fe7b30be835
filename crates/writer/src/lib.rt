// The writer: from an accepted source the one standard text (02, change 6).
//
// It reads the source by `reader::parse_source`, looks for blocks with no statement, writes the text into the lent slice from the back and moves it to the
// front. What is lent to the reader is as the reader leaves it.
#![tactic(auto)]

ghost use Rattle.writer.specs.Writes.{Writes};
ghost use Rattle.writer.specs.Steps.{Accepted, Rewritten};

use writing::Back;

mod hollow;

// specs/Answer.antt has the numbers of each case. The reader's own answer is in all of them.
#[derive(Clone, Copy)]
pub enum Answer {
    // The text stands in the slice: so many bytes.
    Text(reader::Answer, usize),
    // 17: some block has no statement.
    Hollow(reader::Answer),
    // 18: no room for the text.
    Full(reader::Answer),
    // The reader's refusal.
    Unread(reader::Answer),
}

// The text of an accepted source: its decoded strings are all of `text`, its nodes the first of `tree`.
fn write_tree(
    read: reader::Answer,
    src: &[u8],
    text: &[u8],
    tree: &[u32],
    out: &mut [u8],
    nodes: usize,
) -> Answer
    requires { Accepted src.now text.now tree.now nodes }
    ensures { Rewritten read src.now text.now tree.now nodes out.old result out.new }
{
    if hollow::any_hollow(tree, nodes) {
        out.fill(0);
        return Answer::Hollow(read);
    }
    let mut back = Back::new(out);
    writer_stmt::put_program(src, text, tree, &mut back, nodes);
    match back.to_front() {
        Some(m) => Answer::Text(read, m),
        None => Answer::Full(read),
    }
}

// Reads a source and writes its standard text. `Writes` says what the answer is and what every word of the four slices is afterwards, in every case; nothing is
// asked of the caller.
pub fn write_source(
    src: &[u8],
    tokens: &mut [u32],
    text: &mut [u8],
    tree: &mut [u32],
    out: &mut [u8],
) -> Answer
    ensures { Writes src.now result tokens.old text.old tree.old out.old tokens.new text.new tree.new out.new }
{
    let read = reader::parse_source(src, tokens, text, tree);
    match read {
        Ok(found) => write_tree(read, src, &text[..found.text], tree, out, found.nodes),
        Err(_) => Answer::Unread(read),
    }
}
