// Words of a tree. `end` is one more than the number of a node.
ghost use Rattle.std.specs.Prelude.{◌≡◌, ◌+◌, ◌*◌, ◌≤◌, ◌<◌, length};
ghost use Rattle.writer_expr.specs.Laid.{kind_at, word_at};

// The kind of node `end - 1`, and another word of its record.
pub fn kind_at(tree: &[u32], end: usize) -> u32
    requires { (0 < end) × (8 * end + 8 ≤ length tree.now) }
    ensures { result ≡ kind_at tree.now end }
{
    tree[8 * (end - 1) + 8]
}

pub fn word_at(tree: &[u32], end: usize, j: usize) -> u32
    requires { (0 < end) × (8 * end + 8 ≤ length tree.now) × (j < 8) }
    ensures { result ≡ word_at tree.now end j }
{
    tree[8 * (end - 1) + 8 + j]
}
