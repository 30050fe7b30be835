// The standard text of a script, from its tree, written into a lent slice from the back: statements, whose expressions the crate `writer_expr` writes.
//
// Lists of statements, elifs and methods are loops from their last member to their first, so the functions call one another again only where a block is
// opened. `depth` is how many are open.
#![tactic(auto)]

ghost use Rattle.std.specs.Prelude.{◌+◌, ◌≤◌, ◌≡◌, length};
ghost use Rattle.ast.specs.Kind as kind;
ghost use Rattle.ast.specs.Node.{none};
ghost use Rattle.writer_expr.specs.Laid.{kind_at};
ghost use Rattle.writer_stmt.specs.Lines.{SomeLine, SomeLines, SomeElse, SomeProgram, PutsLine, PutsLines, PutsElse, PutsProgram};

mod line;
mod words;

use writer_expr::words::{kind_at, word_at};
use writing::Back;

// The whole text: node `nodes - 1` is the Program.
pub fn put_program(src: &[u8], text: &[u8], tree: &[u32], back: &mut Back, nodes: usize) -> usize
    requires { SomeProgram src.now text.now tree.now nodes }
    ensures { PutsProgram src.now text.now tree.now nodes back.old back.new result }
{
    let first = word_at(tree, nodes, 4);
    put_lines(src, text, tree, back, nodes - 1, first, 0)
}

// A list by its first node or none, the last member of which is node `end - 1`.
#[cycle(put_lines)]
pub fn put_lines(
    src: &[u8],
    text: &[u8],
    tree: &[u32],
    back: &mut Back,
    end: usize,
    first: u32,
    depth: usize,
) -> usize
    requires some_lines { SomeLines src.now text.now tree.now end first }
    requires few { depth + end ≤ none }
    ensures { PutsLines src.now text.now tree.now depth end first back.old back.new result }
{
    if first == ast::NONE_NODE {
        return end;
    }
    let from = first as usize;
    let mut e = end;
    // The label is the loop's name in the proof.
    'members: loop {
        let last = e - 1;
        e = put_line(src, text, tree, back, e, depth);
        if last == from {
            return e;
        }
    }
}

// A statement, an Elif, a Method or an Else: node `end - 1`, with all below it.
#[cycle(put_lines)]
fn put_line(
    src: &[u8],
    text: &[u8],
    tree: &[u32],
    back: &mut Back,
    end: usize,
    depth: usize,
) -> usize
    requires some_line { SomeLine src.now text.now tree.now end }
    requires few { depth + end ≤ none }
    ensures { PutsLine src.now text.now tree.now depth end back.old back.new result }
{
    let kind = kind_at(tree, end);
    if kind == ast::IF {
        return put_if(src, text, tree, back, end, depth);
    }
    let Some(j) = line::block_word(kind) else {
        return line::put_simple(src, text, tree, back, end, depth);
    };
    let first = word_at(tree, end, j);
    let head = put_lines(src, text, tree, back, end - 1, first, depth + 1);
    line::put_head(src, text, tree, back, head, end, depth)
}

// The Else, the Elifs, the block, and the line before them.
#[cycle(put_lines)]
fn put_if(src: &[u8], text: &[u8], tree: &[u32], back: &mut Back, end: usize, depth: usize) -> usize
    requires some_line { SomeLine src.now text.now tree.now end }
    requires few { depth + end ≤ none }
    requires branch { kind_at tree.now end ≡ kind.If }
    ensures { PutsLine src.now text.now tree.now depth end back.old back.new result }
{
    let block = word_at(tree, end, 5);
    let elifs = word_at(tree, end, 6);
    let other = word_at(tree, end, 7);
    let s = put_else(src, text, tree, back, end - 1, other, depth);
    let t = put_lines(src, text, tree, back, s, elifs, depth);
    let u = put_lines(src, text, tree, back, t, block, depth + 1);
    line::put_head(src, text, tree, back, u, end, depth)
}

// The Else of an If, or none.
#[cycle(put_lines)]
fn put_else(
    src: &[u8],
    text: &[u8],
    tree: &[u32],
    back: &mut Back,
    end: usize,
    first: u32,
    depth: usize,
) -> usize
    requires some_else { SomeElse src.now text.now tree.now end first }
    requires few { depth + end ≤ none }
    ensures { PutsElse src.now text.now tree.now depth end first back.old back.new result }
{
    if first == ast::NONE_NODE {
        return end;
    }
    put_line(src, text, tree, back, end, depth)
}
