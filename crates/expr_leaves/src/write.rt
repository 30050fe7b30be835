// The actions that write one node each. A node ends where the token ends that was taken last.
ghost use Rattle.std.specs.Prelude.{List, [], ◌∷◌, ℕ, ◌<◌};
ghost use Rattle.pyhyeon.specs.Machine.{token, node, growing, list};
ghost use Rattle.pyhyeon.specs.Action.{named, enclose, empty, tuple, pair, attribute, apply, index, lambda};
ghost use Rattle.leaves.specs.Contract.{Spot, Writes};

use ast::Content;
use leaves::{Added, State, put_begun, put_opened};
use lookahead::{end_at, start_at};
use token::{NodeNumber, TokenNumber};

// The Name or Variable of the name that was taken.
pub fn put_named(toks: &[u32], tree: &mut [u32], kind: u32, s: State) -> Added
    requires { Spot toks.now tree.old s }
    ensures { (src : List ℕ) → Writes src toks.now (named kind) [] s tree.old result tree.new }
{
    let name = TokenNumber(s.at.0 - 1);
    let from = start_at(toks, name);
    let to = end_at(toks, name);
    put_opened(toks, tree, name, Content::of(kind, from.0, to.0), s)
}

// A List, Dict, Set, TreeSet or Tuple from the token `opener` on, with the list that begins at `first`, which may be none.
pub fn put_enclosed(
    toks: &[u32],
    tree: &mut [u32],
    kind: u32,
    opener: TokenNumber,
    first: NodeNumber,
    s: State,
) -> Added
    requires spot { Spot toks.now tree.old s }
    requires opener_lt_at { opener.0 < s.at.0 }
    ensures { (src : List ℕ) → Writes src toks.now (enclose kind) (list first.0 ∷ token opener.0 ∷ []) s tree.old result tree.new }
{
    put_opened(toks, tree, opener, Content::of(kind, first.0, 0), s)
}

// The same with no list.
pub fn put_empty(toks: &[u32], tree: &mut [u32], kind: u32, opener: TokenNumber, s: State) -> Added
    requires spot { Spot toks.now tree.old s }
    requires opener_lt_at { opener.0 < s.at.0 }
    ensures { (src : List ℕ) → Writes src toks.now (empty kind) (token opener.0 ∷ []) s tree.old result tree.new }
{
    put_enclosed(toks, tree, kind, opener, NodeNumber(ast::NONE_NODE), s)
}

// The Lambda whose keyword is the token `keyword`, with the names that begin at `names`, which may be none.
pub fn put_lambda(
    toks: &[u32],
    tree: &mut [u32],
    keyword: TokenNumber,
    names: NodeNumber,
    body: NodeNumber,
    s: State,
) -> Added
    requires spot { Spot toks.now tree.old s }
    requires keyword_lt_at { keyword.0 < s.at.0 }
    ensures { (src : List ℕ) → Writes src toks.now lambda (node body.0 ∷ list names.0 ∷ token keyword.0 ∷ []) s tree.old result tree.new }
{
    let content = Content::of(ast::LAMBDA, names.0, body.0);
    put_opened(toks, tree, keyword, content, s)
}

// The Tuple without parentheses whose members begin at `first`. (Which is the last does not matter.)
pub fn put_tuple(toks: &[u32], tree: &mut [u32], first: NodeNumber, s: State) -> Added
    requires spot { Spot toks.now tree.old s }
    requires first_lt_nodes { first.0 < s.nodes }
    ensures { (src : List ℕ) (l : ℕ) → Writes src toks.now tuple (growing first.0 l ∷ []) s tree.old result tree.new }
{
    put_begun(toks, tree, first, Content::of(ast::TUPLE, first.0, 0), s)
}

// A key and its value.
pub fn put_pair(
    toks: &[u32],
    tree: &mut [u32],
    key: NodeNumber,
    value: NodeNumber,
    s: State,
) -> Added
    requires spot { Spot toks.now tree.old s }
    requires key_lt_nodes { key.0 < s.nodes }
    ensures { (src : List ℕ) → Writes src toks.now pair (node value.0 ∷ node key.0 ∷ []) s tree.old result tree.new }
{
    put_begun(toks, tree, key, Content::of(ast::PAIR, key.0, value.0), s)
}

// The Attribute of a node, of the name that was taken.
pub fn put_attribute(toks: &[u32], tree: &mut [u32], n: NodeNumber, s: State) -> Added
    requires spot { Spot toks.now tree.old s }
    requires n_lt_nodes { n.0 < s.nodes }
    ensures { (src : List ℕ) → Writes src toks.now attribute (node n.0 ∷ []) s tree.old result tree.new }
{
    let name = TokenNumber(s.at.0 - 1);
    let content = Content {
        kind: ast::ATTRIBUTE,
        p: n.0,
        q: start_at(toks, name).0,
        r: end_at(toks, name).0,
        s: 0,
    };
    put_begun(toks, tree, n, content, s)
}

// The Call of a node with the list that begins at `first`, which may be none.
pub fn put_apply(
    toks: &[u32],
    tree: &mut [u32],
    n: NodeNumber,
    first: NodeNumber,
    s: State,
) -> Added
    requires spot { Spot toks.now tree.old s }
    requires n_lt_nodes { n.0 < s.nodes }
    ensures { (src : List ℕ) → Writes src toks.now apply (list first.0 ∷ node n.0 ∷ []) s tree.old result tree.new }
{
    put_begun(toks, tree, n, Content::of(ast::CALL, n.0, first.0), s)
}

// The Index of a node.
pub fn put_index(toks: &[u32], tree: &mut [u32], n: NodeNumber, i: NodeNumber, s: State) -> Added
    requires spot { Spot toks.now tree.old s }
    requires n_lt_nodes { n.0 < s.nodes }
    ensures { (src : List ℕ) → Writes src toks.now index (node i.0 ∷ node n.0 ∷ []) s tree.old result tree.new }
{
    put_begun(toks, tree, n, Content::of(ast::INDEX, n.0, i.0), s)
}
