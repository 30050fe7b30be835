// The statements that have a Block, and the whole script. Each list is its first node, or none.
ghost use Rattle.std.specs.Prelude.{List, [], ◌∷◌, ℕ, ◌+◌, ◌-◌, ◌*◌, ◌^◌, ◌≤◌, ◌<◌, length};
ghost use Rattle.ast.specs.Node.{made};
ghost use Rattle.pyhyeon.specs.Machine.{token, node, list};
ghost use Rattle.pyhyeon.specs.Action.{branch, elif, else, while, for, define, class, program};
ghost use Rattle.leaves.specs.Contract.{Spot, Writes};
ghost use Rattle.leaves.specs.Put.{Put};
ghost use Rattle.lookahead.specs.Tokens.{start_at, end_at};

use ast::Content;
use leaves::{Added, State, add, put_opened};
use lookahead::{end_at, start_at};
use token::{NodeNumber, Place, TokenNumber};

// An If. Its Else is a list of one, or none.
pub fn put_if(
    toks: &[u32],
    tree: &mut [u32],
    keyword: TokenNumber,
    condition: NodeNumber,
    then: NodeNumber,
    elifs: NodeNumber,
    otherwise: NodeNumber,
    s: State,
) -> Added
    requires spot { Spot toks.now tree.old s }
    requires keyword_lt_at { keyword.0 < s.at.0 }
    ensures { (src : List ℕ) → Writes src toks.now branch (list otherwise.0 ∷ list elifs.0 ∷ list then.0 ∷ node condition.0 ∷ token keyword.0 ∷ []) s tree.old result tree.new }
{
    let content = Content {
        kind: ast::IF,
        p: condition.0,
        q: then.0,
        r: elifs.0,
        s: otherwise.0,
    };
    put_opened(toks, tree, keyword, content, s)
}

// An Elif.
pub fn put_elif(
    toks: &[u32],
    tree: &mut [u32],
    keyword: TokenNumber,
    condition: NodeNumber,
    body: NodeNumber,
    s: State,
) -> Added
    requires spot { Spot toks.now tree.old s }
    requires keyword_lt_at { keyword.0 < s.at.0 }
    ensures { (src : List ℕ) → Writes src toks.now elif (list body.0 ∷ node condition.0 ∷ token keyword.0 ∷ []) s tree.old result tree.new }
{
    let content = Content::of(ast::ELIF, condition.0, body.0);
    put_opened(toks, tree, keyword, content, s)
}

// An Else.
pub fn put_else(
    toks: &[u32],
    tree: &mut [u32],
    keyword: TokenNumber,
    body: NodeNumber,
    s: State,
) -> Added
    requires spot { Spot toks.now tree.old s }
    requires keyword_lt_at { keyword.0 < s.at.0 }
    ensures { (src : List ℕ) → Writes src toks.now else (list body.0 ∷ token keyword.0 ∷ []) s tree.old result tree.new }
{
    put_opened(toks, tree, keyword, Content::of(ast::ELSE, body.0, 0), s)
}

// A While.
pub fn put_while(
    toks: &[u32],
    tree: &mut [u32],
    keyword: TokenNumber,
    condition: NodeNumber,
    body: NodeNumber,
    s: State,
) -> Added
    requires spot { Spot toks.now tree.old s }
    requires keyword_lt_at { keyword.0 < s.at.0 }
    ensures { (src : List ℕ) → Writes src toks.now while (list body.0 ∷ node condition.0 ∷ token keyword.0 ∷ []) s tree.old result tree.new }
{
    let content = Content::of(ast::WHILE, condition.0, body.0);
    put_opened(toks, tree, keyword, content, s)
}

// A node from its keyword on, whose first fields are a name: "Names are start and end in the source" (01, Tree).
fn put_called(
    toks: &[u32],
    tree: &mut [u32],
    kind: u32,
    keyword: TokenNumber,
    name: TokenNumber,
    r: u32,
    f: u32,
    s: State,
) -> Added
    requires spot { Spot toks.now tree.old s }
    requires keyword_lt_at { (keyword.0 < s.at.0) × (name.0 < s.at.0) }
    ensures { Put s tree.old (made kind (start_at toks.now keyword.0) (end_at toks.now (s.at.0 - 1)) (start_at toks.now name.0) (end_at toks.now name.0) r f) result tree.new }
{
    let content = Content {
        kind,
        p: start_at(toks, name).0,
        q: end_at(toks, name).0,
        r,
        s: f,
    };
    put_opened(toks, tree, keyword, content, s)
}

// A For, with the token of its name.
pub fn put_for(
    toks: &[u32],
    tree: &mut [u32],
    keyword: TokenNumber,
    name: TokenNumber,
    iterable: NodeNumber,
    body: NodeNumber,
    s: State,
) -> Added
    requires spot { Spot toks.now tree.old s }
    requires keyword_lt_at { (keyword.0 < s.at.0) × (name.0 < s.at.0) }
    ensures { (src : List ℕ) → Writes src toks.now for (list body.0 ∷ node iterable.0 ∷ token name.0 ∷ token keyword.0 ∷ []) s tree.old result tree.new }
{
    put_called(toks, tree, ast::FOR, keyword, name, iterable.0, body.0, s)
}

// A Def or Method, with the token of its name and the list of its names.
pub fn put_def(
    toks: &[u32],
    tree: &mut [u32],
    kind: u32,
    keyword: TokenNumber,
    name: TokenNumber,
    names: NodeNumber,
    body: NodeNumber,
    s: State,
) -> Added
    requires spot { Spot toks.now tree.old s }
    requires keyword_lt_at { (keyword.0 < s.at.0) × (name.0 < s.at.0) }
    ensures { (src : List ℕ) → Writes src toks.now (define kind) (list body.0 ∷ list names.0 ∷ token name.0 ∷ token keyword.0 ∷ []) s tree.old result tree.new }
{
    put_called(toks, tree, kind, keyword, name, names.0, body.0, s)
}

// A Class, with the token of its name.
pub fn put_class(
    toks: &[u32],
    tree: &mut [u32],
    keyword: TokenNumber,
    name: TokenNumber,
    methods: NodeNumber,
    s: State,
) -> Added
    requires spot { Spot toks.now tree.old s }
    requires keyword_lt_at { (keyword.0 < s.at.0) × (name.0 < s.at.0) }
    ensures { (src : List ℕ) → Writes src toks.now class (list methods.0 ∷ token name.0 ∷ token keyword.0 ∷ []) s tree.old result tree.new }
{
    put_called(toks, tree, ast::CLASS, keyword, name, methods.0, 0, s)
}

// The Program of all lines, from the source's start to its end. No token needs to have been taken.
pub fn put_program(src: &[u8], tree: &mut [u32], lines: NodeNumber, s: State) -> Added
    requires src_len_bound { length src.now ≤ 65536 }
    requires nodes_in_bounds { (8 * s.nodes + 16 ≤ length tree.old) × (s.nodes < 2 ^ 32 - 1) }
    ensures { (toks : List ℕ) → Writes src.now toks program (list lines.0 ∷ []) s tree.old result tree.new }
{
    let end = Place(src.len() as u32);
    let content = Content::of(ast::PROGRAM, lines.0, 0);
    ast::put_node(tree, NodeNumber(s.nodes), Place(0), end, content);
    add(s)
}
