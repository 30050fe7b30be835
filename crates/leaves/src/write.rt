// A node behind the others. It ends where the token ends that was taken last.
ghost use Rattle.std.specs.Prelude.{◌≡◌, ◌-◌, ◌^◌, ◌<◌};
ghost use Rattle.ast.specs.Node.{made};
ghost use Rattle.ast.specs.Words.{node_at};
ghost use Rattle.lookahead.specs.Tokens.{start_at, end_at};
ghost use Rattle.leaves.specs.Contract.{added, Spot};
ghost use Rattle.leaves.specs.Put.{Put};

use crate::{Added, State};
use ast::Content;
use lookahead::{end_at, start_at};
use token::{NodeNumber, Place, TokenNumber};

// The number of the next node, and the state that has counted it.
pub fn add(s: State) -> Added
    requires { s.nodes < 2 ^ 32 - 1 }
    ensures { (result.0.0 ≡ s.nodes) × (result.1 ≡ added s) }
{
    let after = State {
        nodes: s.nodes + 1,
        ..s
    };
    Added(NodeNumber(s.nodes), after)
}

// A node from `from` on.
fn put(toks: &[u32], tree: &mut [u32], from: Place, content: Content, s: State) -> Added
    requires { Spot toks.now tree.old s }
    ensures { Put s tree.old (made content.kind from.0 (end_at toks.now (s.at.0 - 1)) content.p content.q content.r content.s) result tree.new }
{
    let to = end_at(toks, TokenNumber(s.at.0 - 1));
    ast::put_node(tree, NodeNumber(s.nodes), from, to, content);
    add(s)
}

// A node from the token `opener` on.
pub fn put_opened(
    toks: &[u32],
    tree: &mut [u32],
    opener: TokenNumber,
    content: Content,
    s: State,
) -> Added
    requires spot { Spot toks.now tree.old s }
    requires opener_lt_at { opener.0 < s.at.0 }
    ensures { Put s tree.old (made content.kind (start_at toks.now opener.0) (end_at toks.now (s.at.0 - 1)) content.p content.q content.r content.s) result tree.new }
{
    put(toks, tree, start_at(toks, opener), content, s)
}

// A node from the start of its first part on.
pub fn put_begun(
    toks: &[u32],
    tree: &mut [u32],
    first: NodeNumber,
    content: Content,
    s: State,
) -> Added
    requires spot { Spot toks.now tree.old s }
    requires first_lt_nodes { first.0 < s.nodes }
    ensures { Put s tree.old (made content.kind (node_at tree.old first.0).start (end_at toks.now (s.at.0 - 1)) content.p content.q content.r content.s) result tree.new }
{
    let from = ast::start_of(tree, first);
    put(toks, tree, from, content, s)
}
