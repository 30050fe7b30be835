// Names and literals.
ghost use Rattle.std.specs.Prelude.{◌+◌, ◌-◌, ◌*◌, ◌≤◌, ◌<◌, length};
ghost use Rattle.ast.specs.Words.{node_at};
ghost use Rattle.writing.specs.Wrote.{Wrote};
ghost use Rattle.writer_expr.specs.Forms.{leaf_text, Leaf};

use crate::words::{kind_at, word_at};
use writing::Back;

// Node `end - 1`.
pub fn put_leaf(src: &[u8], text: &[u8], tree: &[u32], back: &mut Back, end: usize)
    requires end_nonzero { (0 < end) × (8 * end + 8 ≤ length tree.now) }
    requires leaf { Leaf src.now text.now (node_at tree.now (end - 1)) }
    ensures { Wrote (leaf_text src.now text.now (node_at tree.now (end - 1))) back.old back.new }
{
    let p = word_at(tree, end, 4);
    let q = word_at(tree, end, 5);
    match kind_at(tree, end) {
        ast::NONE => back.put_fixed(token::NONE),
        ast::BOOL => back.put_bool(p),
        ast::INT => back.put_int(p, q),
        ast::STRING => back.put_string(text, p, q),
        ast::FLOAT => back.put_part(src, word_at(tree, end, 6), word_at(tree, end, 7)),
        _ => back.put_part(src, p, q),
    }
}
