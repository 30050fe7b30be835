// "17 where some block has no statement" (02, change 6).
ghost use Rattle.std.specs.Prelude.{◌≡◌, unwrap_or, ◌+◌, ◌*◌, ◌≤◌, length};
ghost use Rattle.ast.specs.Words.{node_at, nodes_of};
ghost use Rattle.standard.specs.Hollow.{block_of, any_hollow_lem};

// The first statement of node k's block, or none in it; no answer for a node that has no block.
fn block_of(tree: &[u32], k: usize) -> Option<u32>
    requires { 8 * k + 16 ≤ length tree.now }
    ensures { unwrap_or result 0 ≡ block_of (node_at tree.now k) }
{
    let i = 8 * k + 8;
    match tree[i] {
        ast::IF | ast::WHILE | ast::ELIF => Some(tree[i + 5]),
        ast::FOR | ast::DEF | ast::METHOD => Some(tree[i + 7]),
        ast::ELSE => Some(tree[i + 4]),
        _ => None,
    }
}

// Whether some block has no statement: one look at each node, up to the first such block.
pub fn any_hollow(tree: &[u32], nodes: usize) -> bool
    requires { 8 * nodes + 8 ≤ length tree.now }
    ensures { result ≡ any_hollow_lem (nodes_of tree.now nodes) }
{
    for k in 0..nodes {
        if block_of(tree, k) == Some(ast::NONE_NODE) {
            return true;
        }
    }
    false
}
