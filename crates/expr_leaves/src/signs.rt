// The signs of U, wrapped around the node behind them, the last of them first.
ghost use Rattle.std.specs.Prelude.{List, ℕ, ◌<◌};
ghost use Rattle.leaves.specs.Contract.{Spot, Signed, Wraps, Wrapping};

use ast::Content;
use leaves::{Added, State, put_opened};
use lookahead::code_at;
use token::{NodeNumber, TokenNumber};

// The Unary of the sign in the token `op`.
fn put_unary(toks: &[u32], tree: &mut [u32], op: TokenNumber, child: NodeNumber, s: State) -> Added
    requires spot { Spot toks.now tree.old s }
    requires op_lt_at { op.0 < s.at.0 }
    ensures { (src : List ℕ) → Signed src toks.now op.0 child.0 s tree.old result tree.new }
{
    let code = code_at(toks, op);
    let sign = ast::unary_op(code);
    put_opened(toks, tree, op, Content::of(ast::UNARY, sign, child.0), s)
}

// The signs from `first` up to `end` around a node, the last of them first.
pub fn wrap(
    toks: &[u32],
    tree: &mut [u32],
    first: TokenNumber,
    end: TokenNumber,
    node: NodeNumber,
    s: State,
) -> Added
    requires { Wrapping toks.now tree.old first.0 end.0 s }
    ensures { (src : List ℕ) → Wraps src toks.now first.0 end.0 node.0 s tree.old result tree.new }
{
    let mut made = Added(node, s);
    for k in (first.0..end.0).rev() {
        let Added(n, s) = made;
        made = put_unary(toks, tree, TokenNumber(k), n, s);
    }
    made
}
