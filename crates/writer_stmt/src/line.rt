// One line: its blanks, what it says, its colon where a block follows, and its line feed.
ghost use Rattle.std.specs.Prelude.{◌≡◌, if◌then◌else◌, ◌==◌, IfSome, ◌++◌, ◌+◌, ◌-◌, ◌*◌, ◌≤◌, ◌<◌, length, replicate};
ghost use Rattle.token.specs.Code as code;
ghost use Rattle.rendered.specs.Spelled.{spelled_fixed};
ghost use Rattle.spacing.specs.Indentation.{step};
ghost use Rattle.standard.specs.Text.{line};
ghost use Rattle.ast.specs.Node.{none};
ghost use Rattle.writer_stmt.specs.Words.{SomeWords, PutsWords};
ghost use Rattle.writer_stmt.specs.Lines.{block_word_lem};

use crate::words::put_words;
use writing::Back;

// The word of a node that is the list below its line, if it has one.
#[tactic(auto, unfolding(crate::specs::Lines::block_word_lem))]
pub fn block_word(kind: u32) -> Option<usize>
    ensures is { result ≡ (if block_word_lem kind == 0 then None else Some (block_word_lem kind)) }
    ensures below { IfSome result (λ j. j < 8) }
{
    match kind {
        ast::WHILE | ast::ELIF => Some(5),
        ast::FOR | ast::DEF | ast::METHOD => Some(7),
        ast::CLASS => Some(6),
        ast::ELSE => Some(4),
        _ => None,
    }
}

// The line of node `node - 1` with no end.
fn put_row(
    src: &[u8],
    text: &[u8],
    tree: &[u32],
    back: &mut Back,
    end: usize,
    node: usize,
    depth: usize,
) -> usize
    requires some_words { SomeWords src.now text.now tree.now end node }
    requires node_nonzero { (0 < node) × (8 * node + 8 ≤ length tree.now) × (depth ≤ none) }
    ensures { PutsWords src.now text.now tree.now (λ w. replicate (step * depth) 32 ++ w) end node back.old back.new result }
{
    let first = put_words(src, text, tree, back, end, node);
    back.put_spaces(2 * depth);
    first
}

pub fn put_simple(
    src: &[u8],
    text: &[u8],
    tree: &[u32],
    back: &mut Back,
    node: usize,
    depth: usize,
) -> usize
    requires some_words { SomeWords src.now text.now tree.now (node - 1) node }
    requires node_nonzero { (0 < node) × (8 * node + 8 ≤ length tree.now) × (depth ≤ none) }
    ensures { PutsWords src.now text.now tree.now (line depth) (node - 1) node back.old back.new result }
{
    back.put(b'\n');
    put_row(src, text, tree, back, node - 1, node, depth)
}

// A line that opens a block.
pub fn put_head(
    src: &[u8],
    text: &[u8],
    tree: &[u32],
    back: &mut Back,
    end: usize,
    node: usize,
    depth: usize,
) -> usize
    requires some_words { SomeWords src.now text.now tree.now end node }
    requires node_nonzero { (0 < node) × (8 * node + 8 ≤ length tree.now) × (depth ≤ none) }
    ensures { PutsWords src.now text.now tree.now (λ w. line depth (w ++ spelled_fixed code.Colon)) end node back.old back.new result }
{
    back.put(b'\n');
    back.put_fixed(token::COLON);
    put_row(src, text, tree, back, end, node, depth)
}
