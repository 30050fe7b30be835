// Operators between two nodes, and chains of comparisons.
ghost use Rattle.std.specs.Prelude.{List, [], ◌∷◌, ℕ, ◌-◌, ◌<◌};
ghost use Rattle.ast.specs.Kind.{Binary};
ghost use Rattle.ast.specs.Node.{made};
ghost use Rattle.ast.specs.Operator.{binary_op_lem};
ghost use Rattle.ast.specs.Words.{node_at};
ghost use Rattle.lookahead.specs.Tokens.{end_at};
ghost use Rattle.pyhyeon.specs.Machine.{token, node};
ghost use Rattle.pyhyeon.specs.Action.{binary};
ghost use Rattle.leaves.specs.Contract.{Spot, Writes, Joins};
ghost use Rattle.leaves.specs.Put.{Put};

use ast::Content;
use leaves::{Added, State, put_begun};
use lookahead::code_at;
use token::{NodeNumber, TokenNumber};

// The Binary of the operator with this code.
fn put_joined(
    toks: &[u32],
    tree: &mut [u32],
    code: u32,
    l: NodeNumber,
    r: NodeNumber,
    s: State,
) -> Added
    requires spot { Spot toks.now tree.old s }
    requires l_lt_nodes { l.0 < s.nodes }
    ensures { Put s tree.old (made Binary (node_at tree.old l.0).start (end_at toks.now (s.at.0 - 1)) (binary_op_lem code) l.0 r.0 0) result tree.new }
{
    let content = Content {
        kind: ast::BINARY,
        p: ast::binary_op(code),
        q: l.0,
        r: r.0,
        s: 0,
    };
    put_begun(toks, tree, l, content, s)
}

// The Binary of the operator in the token `op`.
pub fn put_binary(
    toks: &[u32],
    tree: &mut [u32],
    op: TokenNumber,
    l: NodeNumber,
    r: NodeNumber,
    s: State,
) -> Added
    requires spot { Spot toks.now tree.old s }
    requires op_lt_at { (op.0 < s.at.0) × (l.0 < s.nodes) }
    ensures { (src : List ℕ) → Writes src toks.now binary (node r.0 ∷ token op.0 ∷ node l.0 ∷ []) s tree.old result tree.new }
{
    let code = code_at(toks, op);
    put_joined(toks, tree, code, l, r, s)
}

// The And of a chain so far with the comparison behind it: "A chain `a<b<c` is And(a<b, b<c)" (01, Grammar).
pub fn put_and(toks: &[u32], tree: &mut [u32], l: NodeNumber, r: NodeNumber, s: State) -> Added
    requires spot { Spot toks.now tree.old s }
    requires l_lt_nodes { l.0 < s.nodes }
    ensures { (src : List ℕ) → Joins src toks.now l.0 r.0 s tree.old result tree.new }
{
    put_joined(toks, tree, token::AND, l, r, s)
}
