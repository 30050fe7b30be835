// The expressions of the language (src/parser/mod.rs): the rules E, O, A, C, S, P, U and F, each one function that takes the running count of openings,
// raises it by one before it reads a token, and hands it on in every answer. The other functions read parts of rules: lists, names, pairs, braces,
// parentheses, postfix parts and t, and open nothing.
//
// The contract of a rule is `Rules`: its answer, and the nodes in the tree, are what the descent of the rule comes to. That of a function that has a
// part of a rule is `Parts`, with the values that are at hand, which are its parameters; `Lists` for the rest of a list. What the levels of operators
// share stands in the crate `levels`, with contracts of its own.
#![tactic(auto)]

ghost use Rattle.std.specs.Prelude.{◌≡◌, true, false, [], ◌∷◌, ℕ, ◌+◌, ◌<◌};
ghost use Rattle.grammar.specs.Sets.{mem};
ghost use Rattle.grammar.specs.Grammar.{call, many, act, ◌⨾◌, ◌∕◌};
ghost use Rattle.token.specs.Code.{Eof, String, Dot, LParen, RParen, LBracket};
ghost use Rattle.pyhyeon.specs.Machine.{token, node, growing, list};
ghost use Rattle.pyhyeon.specs.Rules.{E, O, C, S, P, U, F, entry, postfix};
ghost use Rattle.pyhyeon.specs.Rules as rules;
ghost use Rattle.pyhyeon.specs.Tables.{joined, primary, pairs_on, set_on};
ghost use Rattle.pyhyeon.specs.Tables as tables;
ghost use Rattle.lookahead.specs.Tokens.{symbol_at};
ghost use Rattle.leaves.specs.Contract.{a_node, a_list, Rules, Parts, Lists, Ready, Begun};
ghost use Rattle.ast.specs.Kind as kind;
ghost use Rattle.pyhyeon.specs.Action.{empty};
ghost use Rattle.expr.specs.Parts.{member, others, closes, enclosed, lambda_on, lambda_body, tee_on, valued, pairs_rest, listed_on, round_on, call_on, index_on};

mod comma;
mod parameters;

pub use comma::comma_list;
use leaves::{Added, Parsed, Refused, State};
use levels::{Chain, Left, Level};
pub use parameters::names;
use token::{NodeNumber, TokenNumber};

// E: lambda names : E, or O. Room is asked for before the opening counts. The compiler puts this into the callers, which have the state's words at hand: a
// function that may hand back as a whole the state that it was passed loads it as one vector, and waits for the stores of its words (docs/PERFORMANCE.md).
#[cycle(expr)]
#[inline(always)]
pub fn rule_e(src: &[u8], toks: &[u32], tree: &mut [u32], left: u32, s: State) -> Parsed
    requires ready { Ready src.now toks.now tree.old s 3 }
    requires begun { Begun src.now toks.now s E }
    ensures { Rules src.now toks.now left E a_node s tree.old result tree.new }
{
    if left == 0 {
        return Err(Refused::TooDeep(s));
    }
    let up = State {
        opened: s.opened + 1,
        ..s
    };
    lambda_or_o(src, toks, tree, left - 1, up)
}

// What an E is, once its opening counts. By the hints the compiler makes one function of it, the rules from O to F and the list of a call: each call between
// them would hand the state on through memory.
#[cycle(expr)]
#[inline(never)]
fn lambda_or_o(src: &[u8], toks: &[u32], tree: &mut [u32], left: u32, s: State) -> Parsed
    requires ready { Ready src.now toks.now tree.old s 4 }
    requires begun { Begun src.now toks.now s E }
    ensures { Parts src.now toks.now left (joined E) [] a_node s tree.old result tree.new }
{
    if lookahead::is_symbol(lookahead::symbol_at(src, toks, s.at), token::LAMBDA) {
        lambda(src, toks, tree, left, s.at, leaves::past(s))
    } else {
        rule_o(src, toks, tree, left, s)
    }
}

// An E, if the token there can begin one.
#[cycle(expr)]
pub fn enter(src: &[u8], toks: &[u32], tree: &mut [u32], left: u32, s: State) -> Parsed
    requires { Ready src.now toks.now tree.old s 3 }
    ensures { Parts src.now toks.now left (call E) [] a_node s tree.old result tree.new }
{
    if lookahead::begins_e(lookahead::symbol_at(src, toks, s.at)) {
        rule_e(src, toks, tree, left, s)
    } else {
        Err(Refused::Missing(s))
    }
}

// After `lambda`, the token `opener`.
#[cycle(expr)]
fn lambda(
    src: &[u8],
    toks: &[u32],
    tree: &mut [u32],
    left: u32,
    opener: TokenNumber,
    s: State,
) -> Parsed
    requires ready { Ready src.now toks.now tree.old s 1 }
    requires opener_lt_at { opener.0 < s.at.0 }
    ensures { Parts src.now toks.now left lambda_on (token opener.0 ∷ []) a_node s tree.old result tree.new }
{
    let Added(first, after) = names(src, toks, tree, s);
    if lookahead::is_symbol(lookahead::symbol_at(src, toks, after.at), token::COLON) {
        body(src, toks, tree, left, opener, first, leaves::past(after))
    } else {
        Err(Refused::Misfit(after))
    }
}

// After the colon of a lambda with the names from `first` on.
#[cycle(expr)]
fn body(
    src: &[u8],
    toks: &[u32],
    tree: &mut [u32],
    left: u32,
    opener: TokenNumber,
    first: NodeNumber,
    s: State,
) -> Parsed
    requires ready { Ready src.now toks.now tree.old s 1 }
    requires opener_lt_at { opener.0 < s.at.0 }
    ensures { Parts src.now toks.now left lambda_body (list first.0 ∷ token opener.0 ∷ []) a_node s tree.old result tree.new }
{
    let Added(n, after) = enter(src, toks, tree, left, s)?;
    Ok(expr_leaves::put_lambda(toks, tree, opener, first, n, after))
}

// What O, A, S and P are: operands of a rule by the operators of a level, grouped left. It is a text and no function, so that each of the four has a loop of its
// own, which the compiler puts into the others': one function over the level would be called once more for each of them at every operand (docs/PERFORMANCE.md).
macro_rules! grouped {
    ($operand:ident, $level:expr, $src:ident, $toks:ident, $tree:ident, $left:ident, $s:ident) => {{
        let mut st = State {
            opened: $s.opened + 1,
            ..$s
        };
        let mut before = None;
        loop {
            let Added(n, after) = $operand($src, $toks, $tree, $left, st)?;
            let Added(l, done) = levels::join($toks, $tree, before, n, after);
            match levels::look($src, $toks, $level, done)? {
                Some(on) => {
                    before = Some(Left(done.at, l));
                    st = on;
                }
                None => return Ok(Added(l, done)),
            }
        }
    }};
}

// O: A by `or`.
#[cycle(expr)]
#[inline(always)]
fn rule_o(src: &[u8], toks: &[u32], tree: &mut [u32], left: u32, s: State) -> Parsed
    requires ready { Ready src.now toks.now tree.old s 4 }
    requires begun { Begun src.now toks.now s O }
    ensures { Rules src.now toks.now left O a_node s tree.old result tree.new }
{
    grouped!(rule_a, Level::Or, src, toks, tree, left, s)
}

// A: C by `and`.
#[cycle(expr)]
#[inline(always)]
fn rule_a(src: &[u8], toks: &[u32], tree: &mut [u32], left: u32, s: State) -> Parsed
    requires ready { Ready src.now toks.now tree.old s 5 }
    requires begun { Begun src.now toks.now s rules.A }
    ensures { Rules src.now toks.now left rules.A a_node s tree.old result tree.new }
{
    grouped!(rule_c, Level::And, src, toks, tree, left, s)
}

// C: S by comparisons. `a<b<c` is And(a<b, b<c), whose b is one node.
#[cycle(expr)]
#[inline(always)]
fn rule_c(src: &[u8], toks: &[u32], tree: &mut [u32], left: u32, s: State) -> Parsed
    requires ready { Ready src.now toks.now tree.old s 6 }
    requires begun { Begun src.now toks.now s C }
    ensures { Rules src.now toks.now left C a_node s tree.old result tree.new }
{
    let mut st = State {
        opened: s.opened + 1,
        ..s
    };
    let mut before = Chain::Nothing;
    loop {
        let Added(n, after) = rule_s(src, toks, tree, left, st)?;
        let Added(l, done) = levels::compare(toks, tree, before, n, after);
        match levels::look(src, toks, Level::Comparison, done)? {
            Some(on) => {
                before = levels::lengthen(before, done.at, l, n);
                st = on;
            }
            None => return Ok(Added(l, done)),
        }
    }
}

// S: P by + -.
#[cycle(expr)]
#[inline(always)]
fn rule_s(src: &[u8], toks: &[u32], tree: &mut [u32], left: u32, s: State) -> Parsed
    requires ready { Ready src.now toks.now tree.old s 7 }
    requires begun { Begun src.now toks.now s S }
    ensures { Rules src.now toks.now left S a_node s tree.old result tree.new }
{
    grouped!(rule_p, Level::Sum, src, toks, tree, left, s)
}

// P: U by * // / %.
#[cycle(expr)]
#[inline(always)]
fn rule_p(src: &[u8], toks: &[u32], tree: &mut [u32], left: u32, s: State) -> Parsed
    requires ready { Ready src.now toks.now tree.old s 8 }
    requires begun { Begun src.now toks.now s P }
    ensures { Rules src.now toks.now left P a_node s tree.old result tree.new }
{
    grouped!(rule_u, Level::Product, src, toks, tree, left, s)
}

// U: any of not - +, then F.
#[cycle(expr)]
#[inline(always)]
fn rule_u(src: &[u8], toks: &[u32], tree: &mut [u32], left: u32, s: State) -> Parsed
    requires ready { Ready src.now toks.now tree.old s 9 }
    requires begun { Begun src.now toks.now s U }
    ensures { Rules src.now toks.now left U a_node s tree.old result tree.new }
{
    let first = s.at;
    let end = lookahead::skip_signs(src, toks, first);
    let on = State {
        at: end,
        opened: s.opened + 1,
        ..s
    };
    if !lookahead::behind_signs(src, toks, first, end) {
        return Err(Refused::Missing(on));
    }
    let Added(n, after) = rule_f(src, toks, tree, left, on)?;
    Ok(expr_leaves::wrap(toks, tree, first, end, n, after))
}

// F: a primary, then .name (list) [E] repeated.
#[cycle(expr)]
#[inline(always)]
fn rule_f(src: &[u8], toks: &[u32], tree: &mut [u32], left: u32, s: State) -> Parsed
    requires ready { Ready src.now toks.now tree.old s 10 }
    requires begun { Begun src.now toks.now s F }
    ensures { Rules src.now toks.now left F a_node s tree.old result tree.new }
{
    let up = State {
        opened: s.opened + 1,
        ..s
    };
    let Added(n, after) = head(src, toks, tree, left, up)?;
    posts(src, toks, tree, left, n, after)
}

// What stands before the postfix parts: a bracket, the name `t`, a name, or else a literal.
#[cycle(expr)]
fn head(src: &[u8], toks: &[u32], tree: &mut [u32], left: u32, s: State) -> Parsed
    requires ready { Ready src.now toks.now tree.old s 11 }
    requires begun { Begun src.now toks.now s F }
    ensures { Parts src.now toks.now left primary [] a_node s tree.old result tree.new }
{
    let on = leaves::past(s);
    match lookahead::symbol_at(src, toks, s.at) {
        token::LBRACKET => shown(src, toks, tree, left, s.at, token::RBRACKET, ast::LIST, on),
        lookahead::TEE => tee(src, toks, tree, left, s.at, on),
        token::LBRACE => braces(src, toks, tree, left, s.at, on),
        token::LPAREN => round(src, toks, tree, left, s.at, on),
        token::IDENTIFIER => Ok(expr_leaves::put_named(toks, tree, ast::VARIABLE, on)),
        _ => Ok(expr_leaves::put_literal(src, toks, tree, on)),
    }
}

// After the name `t`, the token `opener`: t{list}, or the name alone.
#[cycle(expr)]
fn tee(
    src: &[u8],
    toks: &[u32],
    tree: &mut [u32],
    left: u32,
    opener: TokenNumber,
    s: State,
) -> Parsed
    requires ready { Ready src.now toks.now tree.old s 1 }
    requires opener_value { opener.0 + 1 ≡ s.at.0 }
    ensures { Parts src.now toks.now left tee_on [] a_node s tree.old result tree.new }
{
    if lookahead::is_symbol(lookahead::symbol_at(src, toks, s.at), token::LBRACE) {
        let on = leaves::past(s);
        shown(
            src,
            toks,
            tree,
            left,
            opener,
            token::RBRACE,
            ast::TREE_SET,
            on,
        )
    } else {
        Ok(expr_leaves::put_named(toks, tree, ast::VARIABLE, s))
    }
}

// A list of E up to the bracket `close`, as a node of this kind from the token `opener` on.
#[cycle(expr)]
fn shown(
    src: &[u8],
    toks: &[u32],
    tree: &mut [u32],
    left: u32,
    opener: TokenNumber,
    close: u32,
    kind: u32,
    s: State,
) -> Parsed
    requires ready { Ready src.now toks.now tree.old s 1 }
    requires opener_lt_at { (opener.0 < s.at.0) × (mem Eof (close ∷ []) ≡ false) × (mem String (close ∷ []) ≡ false) }
    ensures { Parts src.now toks.now left (enclosed close kind) (token opener.0 ∷ []) a_node s tree.old result tree.new }
{
    let Added(first, after) = items(src, toks, tree, left, s)?;
    shut(src, toks, tree, opener, close, kind, first, after)
}

// The bracket that ends a list.
fn shut(
    src: &[u8],
    toks: &[u32],
    tree: &mut [u32],
    opener: TokenNumber,
    close: u32,
    kind: u32,
    first: NodeNumber,
    s: State,
) -> Parsed
    requires ready { Ready src.now toks.now tree.old s 1 }
    requires opener_lt_at { (opener.0 < s.at.0) × (mem Eof (close ∷ []) ≡ false) × (mem String (close ∷ []) ≡ false) }
    ensures { (room : ℕ) → Parts src.now toks.now room (closes close kind) (list first.0 ∷ token opener.0 ∷ []) a_node s tree.old result tree.new }
{
    if lookahead::is_symbol(lookahead::symbol_at(src, toks, s.at), close) {
        let on = leaves::past(s);
        Ok(expr_leaves::put_enclosed(toks, tree, kind, opener, first, on))
    } else {
        Err(Refused::Misfit(s))
    }
}

// A list of E, which may be empty: its first node, or none.
#[cycle(expr)]
#[inline(always)]
fn items(src: &[u8], toks: &[u32], tree: &mut [u32], left: u32, s: State) -> Parsed
    requires { Ready src.now toks.now tree.old s 1 }
    ensures { Parts src.now toks.now left rules.list [] a_list s tree.old result tree.new }
{
    if lookahead::begins_e(lookahead::symbol_at(src, toks, s.at)) {
        let Added(n, after) = rule_e(src, toks, tree, left, s)?;
        rest(src, toks, tree, left, false, n, n, after)
    } else {
        Ok(Added(NodeNumber(ast::NONE_NODE), s))
    }
}

// The rest of a list of E, or of pairs, after the member `newest`: each member is linked to the one before it. Which of both is a bool, as in the definition
// `others`.
#[cycle(expr)]
#[inline(always)]
fn rest(
    src: &[u8],
    toks: &[u32],
    tree: &mut [u32],
    left: u32,
    paired: bool,
    first: NodeNumber,
    newest: NodeNumber,
    s: State,
) -> Parsed
    requires ready { Ready src.now toks.now tree.old s 1 }
    requires first_lt_nodes { (first.0 < s.nodes) × (newest.0 < s.nodes) }
    ensures { Lists src.now toks.now left (others paired) (growing first.0 newest.0 ∷ []) s tree.old result tree.new }
{
    let mut last = newest;
    let mut st = s;
    while lookahead::is_symbol(lookahead::symbol_at(src, toks, st.at), token::COMMA) {
        let on = leaves::past(st);
        if !lookahead::begins_e(lookahead::symbol_at(src, toks, on.at)) {
            return Ok(Added(first, on));
        }
        let Added(n, after) = member(src, toks, tree, left, paired, on)?;
        leaves::link(tree, last, n, after);
        last = n;
        st = after;
    }
    Ok(Added(first, st))
}

// After `{`: `}` at once is a Dict, else the first E decides. Either was asked for, so what is neither is refused by 14.
#[cycle(expr)]
fn braces(
    src: &[u8],
    toks: &[u32],
    tree: &mut [u32],
    left: u32,
    opener: TokenNumber,
    s: State,
) -> Parsed
    requires ready { Ready src.now toks.now tree.old s 1 }
    requires opener_lt_at { opener.0 < s.at.0 }
    ensures { Parts src.now toks.now left tables.braces (token opener.0 ∷ []) a_node s tree.old result tree.new }
{
    let symbol = lookahead::symbol_at(src, toks, s.at);
    if lookahead::is_symbol(symbol, token::RBRACE) {
        let on = leaves::past(s);
        Ok(expr_leaves::put_empty(toks, tree, ast::DICT, opener, on))
    } else if lookahead::begins_e(symbol) {
        let Added(n, after) = rule_e(src, toks, tree, left, s)?;
        brace(src, toks, tree, left, opener, n, after)
    } else {
        Err(Refused::Misfit(s))
    }
}

// After the first E in braces: a colon makes it a pair, anything else a member.
#[cycle(expr)]
fn brace(
    src: &[u8],
    toks: &[u32],
    tree: &mut [u32],
    left: u32,
    opener: TokenNumber,
    first: NodeNumber,
    s: State,
) -> Parsed
    requires ready { Ready src.now toks.now tree.old s 1 }
    requires opener_lt_at { (opener.0 < s.at.0) × (first.0 < s.nodes) }
    ensures { Parts src.now toks.now left (pairs_on ∕ set_on) (node first.0 ∷ token opener.0 ∷ []) a_node s tree.old result tree.new }
{
    if lookahead::is_symbol(lookahead::symbol_at(src, toks, s.at), token::COLON) {
        pairs(src, toks, tree, left, opener, first, leaves::past(s))
    } else {
        listed(
            src,
            toks,
            tree,
            left,
            opener,
            token::RBRACE,
            ast::SET,
            first,
            s,
        )
    }
}

// The rest of a list of E whose member `first` was read, up to the bracket `close`, as a node of this kind from the token `opener` on.
#[cycle(expr)]
fn listed(
    src: &[u8],
    toks: &[u32],
    tree: &mut [u32],
    left: u32,
    opener: TokenNumber,
    close: u32,
    kind: u32,
    first: NodeNumber,
    s: State,
) -> Parsed
    requires ready { Ready src.now toks.now tree.old s 1 }
    requires opener_lt_at { (opener.0 < s.at.0) × (first.0 < s.nodes) × (mem Eof (close ∷ []) ≡ false) × (mem String (close ∷ []) ≡ false) }
    ensures { Parts src.now toks.now left (listed_on close kind) (growing first.0 first.0 ∷ token opener.0 ∷ []) a_node s tree.old result tree.new }
{
    let Added(head, after) = rest(src, toks, tree, left, false, first, first, s)?;
    shut(src, toks, tree, opener, close, kind, head, after)
}

// A Dict, after the colon of its first pair.
#[cycle(expr)]
fn pairs(
    src: &[u8],
    toks: &[u32],
    tree: &mut [u32],
    left: u32,
    opener: TokenNumber,
    key: NodeNumber,
    s: State,
) -> Parsed
    requires ready { Ready src.now toks.now tree.old s 1 }
    requires opener_lt_at { (opener.0 < s.at.0) × (key.0 < s.nodes) }
    ensures { Parts src.now toks.now left pairs_rest (node key.0 ∷ token opener.0 ∷ []) a_node s tree.old result tree.new }
{
    let Added(n, after) = value(src, toks, tree, left, key, s)?;
    let Added(head, done) = rest(src, toks, tree, left, true, n, n, after)?;
    shut(
        src,
        toks,
        tree,
        opener,
        token::RBRACE,
        ast::DICT,
        head,
        done,
    )
}

// A pair, after its colon.
#[cycle(expr)]
fn value(src: &[u8], toks: &[u32], tree: &mut [u32], left: u32, key: NodeNumber, s: State) -> Parsed
    requires ready { Ready src.now toks.now tree.old s 1 }
    requires key_lt_nodes { key.0 < s.nodes }
    ensures { Parts src.now toks.now left valued (node key.0 ∷ []) a_node s tree.old result tree.new }
{
    let Added(n, after) = enter(src, toks, tree, left, s)?;
    Ok(expr_leaves::put_pair(toks, tree, key, n, after))
}

// A pair.
#[cycle(expr)]
fn item(src: &[u8], toks: &[u32], tree: &mut [u32], left: u32, s: State) -> Parsed
    requires ready { Ready src.now toks.now tree.old s 1 }
    requires begun { Begun src.now toks.now s E }
    ensures { Parts src.now toks.now left entry [] a_node s tree.old result tree.new }
{
    let Added(key, after) = rule_e(src, toks, tree, left, s)?;
    if lookahead::is_symbol(lookahead::symbol_at(src, toks, after.at), token::COLON) {
        value(src, toks, tree, left, key, leaves::past(after))
    } else {
        Err(Refused::Misfit(after))
    }
}

// A member of a list: a pair, or an E.
#[cycle(expr)]
fn member(src: &[u8], toks: &[u32], tree: &mut [u32], left: u32, paired: bool, s: State) -> Parsed
    requires ready { Ready src.now toks.now tree.old s 1 }
    requires begun { Begun src.now toks.now s E }
    ensures { Parts src.now toks.now left (member paired) [] a_node s tree.old result tree.new }
{
    if paired {
        item(src, toks, tree, left, s)
    } else {
        rule_e(src, toks, tree, left, s)
    }
}

// Parentheses, after the `(` that is the token `opener`.
#[cycle(expr)]
fn round(
    src: &[u8],
    toks: &[u32],
    tree: &mut [u32],
    left: u32,
    opener: TokenNumber,
    s: State,
) -> Parsed
    requires ready { Ready src.now toks.now tree.old s 1 }
    requires opener_lt_at { opener.0 < s.at.0 }
    ensures { Parts src.now toks.now left tables.round (token opener.0 ∷ []) a_node s tree.old result tree.new }
{
    let symbol = lookahead::symbol_at(src, toks, s.at);
    if lookahead::begins_e(symbol) {
        let Added(n, after) = rule_e(src, toks, tree, left, s)?;
        paren(src, toks, tree, left, opener, n, after)
    } else if lookahead::is_symbol(symbol, token::RPAREN) {
        unit(src, toks, tree, opener, leaves::past(s))
    } else {
        Err(Refused::Misfit(s))
    }
}

// After `()`: another `)` makes it the empty Tuple.
fn unit(src: &[u8], toks: &[u32], tree: &mut [u32], opener: TokenNumber, s: State) -> Parsed
    requires ready { Ready src.now toks.now tree.old s 1 }
    requires opener_lt_at { opener.0 < s.at.0 }
    ensures { (room : ℕ) → Parts src.now toks.now room (rules.tk RParen ⨾ act (empty kind.Tuple)) (token opener.0 ∷ []) a_node s tree.old result tree.new }
{
    if lookahead::is_symbol(lookahead::symbol_at(src, toks, s.at), token::RPAREN) {
        let on = leaves::past(s);
        Ok(expr_leaves::put_empty(toks, tree, ast::TUPLE, opener, on))
    } else {
        Err(Refused::Misfit(s))
    }
}

// After the first E in parentheses: `)`, and the node's span is widened; or a comma, and it is a Tuple.
#[cycle(expr)]
fn paren(
    src: &[u8],
    toks: &[u32],
    tree: &mut [u32],
    left: u32,
    opener: TokenNumber,
    first: NodeNumber,
    s: State,
) -> Parsed
    requires ready { Ready src.now toks.now tree.old s 1 }
    requires opener_lt_at { (opener.0 < s.at.0) × (first.0 < s.nodes) }
    ensures { Parts src.now toks.now left round_on (node first.0 ∷ token opener.0 ∷ []) a_node s tree.old result tree.new }
{
    let symbol = lookahead::symbol_at(src, toks, s.at);
    if lookahead::is_symbol(symbol, token::RPAREN) {
        let on = leaves::past(s);
        leaves::widen(toks, tree, opener, first, on);
        Ok(Added(first, on))
    } else if lookahead::is_symbol(symbol, token::COMMA) {
        listed(
            src,
            toks,
            tree,
            left,
            opener,
            token::RPAREN,
            ast::TUPLE,
            first,
            s,
        )
    } else {
        Err(Refused::Misfit(s))
    }
}

// What follows a primary.
#[cycle(expr)]
fn posts(
    src: &[u8],
    toks: &[u32],
    tree: &mut [u32],
    left: u32,
    first: NodeNumber,
    s: State,
) -> Parsed
    requires ready { Ready src.now toks.now tree.old s 2 }
    requires first_lt_nodes { first.0 < s.nodes }
    ensures { Parts src.now toks.now left (many postfix) (node first.0 ∷ []) a_node s tree.old result tree.new }
{
    let mut n = first;
    let mut st = s;
    while lookahead::begins_postfix(lookahead::symbol_at(src, toks, st.at)) {
        let Added(m, after) = post(src, toks, tree, left, n, st)?;
        n = m;
        st = after;
    }
    Ok(Added(n, st))
}

// One of them: the token there begins it.
#[cycle(expr)]
fn post(src: &[u8], toks: &[u32], tree: &mut [u32], left: u32, n: NodeNumber, s: State) -> Parsed
    requires ready { Ready src.now toks.now tree.old s 2 }
    requires n_lt_nodes { (n.0 < s.nodes) × (mem (symbol_at src.now toks.now s.at.0) (Dot ∷ LParen ∷ LBracket ∷ []) ≡ true) }
    ensures { Parts src.now toks.now left postfix (node n.0 ∷ []) a_node s tree.old result tree.new }
{
    let on = leaves::past(s);
    match lookahead::symbol_at(src, toks, s.at) {
        token::DOT => {
            if lookahead::is_name(lookahead::symbol_at(src, toks, on.at)) {
                Ok(expr_leaves::put_attribute(toks, tree, n, leaves::past(on)))
            } else {
                Err(Refused::Misfit(on))
            }
        }
        token::LPAREN => args(src, toks, tree, left, n, on),
        _ => index(src, toks, tree, left, n, on),
    }
}

// A call, after its `(`.
#[cycle(expr)]
fn args(src: &[u8], toks: &[u32], tree: &mut [u32], left: u32, n: NodeNumber, s: State) -> Parsed
    requires ready { Ready src.now toks.now tree.old s 1 }
    requires n_lt_nodes { n.0 < s.nodes }
    ensures { Parts src.now toks.now left call_on (node n.0 ∷ []) a_node s tree.old result tree.new }
{
    let Added(first, after) = items(src, toks, tree, left, s)?;
    if lookahead::is_symbol(lookahead::symbol_at(src, toks, after.at), token::RPAREN) {
        let on = leaves::past(after);
        Ok(expr_leaves::put_apply(toks, tree, n, first, on))
    } else {
        Err(Refused::Misfit(after))
    }
}

// An index, after its `[`. (As a call, but for what it reads and writes, which is all of it.)
#[cycle(expr)]
fn index(src: &[u8], toks: &[u32], tree: &mut [u32], left: u32, n: NodeNumber, s: State) -> Parsed
    requires ready { Ready src.now toks.now tree.old s 1 }
    requires n_lt_nodes { n.0 < s.nodes }
    ensures { Parts src.now toks.now left index_on (node n.0 ∷ []) a_node s tree.old result tree.new }
{
    let Added(i, after) = enter(src, toks, tree, left, s)?;
    if lookahead::is_symbol(lookahead::symbol_at(src, toks, after.at), token::RBRACKET) {
        let on = leaves::past(after);
        Ok(expr_leaves::put_index(toks, tree, n, i, on))
    } else {
        Err(Refused::Misfit(after))
    }
}
