// The statements on one line. A node ends where the token ends that was taken last.
ghost use Rattle.std.specs.Prelude.{List, [], ◌∷◌, ℕ, ◌<◌};
ghost use Rattle.pyhyeon.specs.Machine.{token, node};
ghost use Rattle.pyhyeon.specs.Action.{alone, expr, assign, return};
ghost use Rattle.leaves.specs.Contract.{Spot, Writes};

use ast::Content;
use leaves::{Added, State, put_begun, put_opened};
use lookahead::end_at;
use token::{NodeNumber, TokenNumber};

// The Break, Continue or Pass of the word that was taken.
pub fn put_alone(toks: &[u32], tree: &mut [u32], kind: u32, s: State) -> Added
    requires { Spot toks.now tree.old s }
    ensures { (src : List ℕ) → Writes src toks.now (alone kind) [] s tree.old result tree.new }
{
    let word = TokenNumber(s.at.0 - 1);
    put_opened(toks, tree, word, Content::of(kind, 0, 0), s)
}

// The Expr of a node.
pub fn put_expr(toks: &[u32], tree: &mut [u32], n: NodeNumber, s: State) -> Added
    requires spot { Spot toks.now tree.old s }
    requires n_lt_nodes { n.0 < s.nodes }
    ensures { (src : List ℕ) → Writes src toks.now expr (node n.0 ∷ []) s tree.old result tree.new }
{
    put_begun(toks, tree, n, Content::of(ast::EXPR, n.0, 0), s)
}

// The Return of a node.
pub fn put_return(
    toks: &[u32],
    tree: &mut [u32],
    keyword: TokenNumber,
    n: NodeNumber,
    s: State,
) -> Added
    requires spot { Spot toks.now tree.old s }
    requires keyword_lt_at { keyword.0 < s.at.0 }
    ensures { (src : List ℕ) → Writes src toks.now return (node n.0 ∷ token keyword.0 ∷ []) s tree.old result tree.new }
{
    put_opened(toks, tree, keyword, Content::of(ast::RETURN, n.0, 0), s)
}

// The Assign of a value to a target: "An Assign target takes the statement's span" (01, Grammar).
pub fn put_assign(
    toks: &[u32],
    tree: &mut [u32],
    target: NodeNumber,
    value: NodeNumber,
    s: State,
) -> Added
    requires spot { Spot toks.now tree.old s }
    requires target_lt_nodes { target.0 < s.nodes }
    ensures { (src : List ℕ) → Writes src toks.now assign (node value.0 ∷ node target.0 ∷ []) s tree.old result tree.new }
{
    let from = ast::start_of(tree, target);
    let to = end_at(toks, TokenNumber(s.at.0 - 1));
    ast::set_span(tree, target, from, to);
    let content = Content::of(ast::ASSIGN, target.0, value.0);
    put_begun(toks, tree, target, content, s)
}
