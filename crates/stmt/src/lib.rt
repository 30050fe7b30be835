// The statements of the language (src/parser/mod.rs): the rules Line, Block and Class, which open each other, and Program above them. Each rule is
// one function that takes the running count of openings, raises it by one before it reads a token, and hands it on in every answer. The other
// functions read parts of rules, and open nothing.
//
// Contracts are those of the leaves: `Rules` for a rule, `Parts` for a part of one, `Lists` for the rest of a list; `Takes` for one token, `Guards` for an
// E and the Block behind it, `Newest` where a statement's node is the last that was written. A Line gives a list in the making (`a_growing`), a Block a list.
#![tactic(auto)]

ghost use Rattle.std.specs.Prelude.{◌≡◌, true, [], ◌∷◌, ◌<◌};
ghost use Rattle.grammar.specs.Sets.{mem};
ghost use Rattle.grammar.specs.Grammar.{call};
ghost use Rattle.token.specs.Code.{Elif};
ghost use Rattle.ast.specs.Kind as kind;
ghost use Rattle.pyhyeon.specs.Machine.{token, growing};
ghost use Rattle.pyhyeon.specs.Rules.{Line, Block, Class};
ghost use Rattle.pyhyeon.specs.Rules as rules;
ghost use Rattle.pyhyeon.specs.Tables.{lines_on};
ghost use Rattle.lookahead.specs.Tokens.{symbol_at};
ghost use Rattle.leaves.specs.Contract.{a_node, a_list, a_growing, Rules, Parts, Lists, Ready, Begun};
ghost use Rattle.simple.specs.Parts.{Newest};
ghost use Rattle.stmt.specs.Guards.{Guards};
ghost use Rattle.stmt.specs.Parts.{inside_on, indented_on, leading, member, others, class_body_lem, named_on, elifs_on, else_on, if_on, elif_on, while_on, for_on};

mod take;
mod whole;

use leaves::{Added, Parsed, Refused, State};
use simple::Gathered;
use take::{begins_lines, leads, take, take_name};
use token::{NodeNumber, TokenNumber};
pub use whole::program;

// "at most 64 E and Block open at once" (01, Questions).
const DEPTH: u32 = 64;

// What "E, Block" gives: the node of E, the first node of the Block and the state behind both.
#[derive(Clone, Copy)]
struct Clause(NodeNumber, NodeNumber, State);

// Line: class, def, if, while, for, or simples.
#[cycle(stmt)]
fn rule_line(src: &[u8], toks: &[u32], tree: &mut [u32], left: u32, s: State) -> Parsed
    requires ready { Ready src.now toks.now tree.old s 1 }
    requires begun { Begun src.now toks.now s Line }
    ensures { Rules src.now toks.now left Line a_growing s tree.old result tree.new }
{
    let up = State {
        opened: s.opened + 1,
        ..s
    };
    let on = leaves::past(up);
    match lookahead::symbol_at(src, toks, s.at) {
        token::CLASS => rule_class(src, toks, tree, left, up),
        token::DEF => named(src, toks, tree, left, ast::DEF, s.at, on),
        token::IF => cond(src, toks, tree, left, s.at, on),
        token::WHILE => again(src, toks, tree, left, s.at, on),
        token::FOR => each(src, toks, tree, left, s.at, on),
        _ => simple::simples(src, toks, tree, left, up),
    }
}

// Block, opened at its colon: one or more Newlines, Indent, Lines, Dedent; or simples. Room is asked for before the opening counts.
#[cycle(stmt)]
fn rule_block(src: &[u8], toks: &[u32], tree: &mut [u32], left: u32, s: State) -> Parsed
    requires ready { Ready src.now toks.now tree.old s 9 }
    requires begun { Begun src.now toks.now s Block }
    ensures { Rules src.now toks.now left Block a_list s tree.old result tree.new }
{
    if left == 0 {
        return Err(Refused::TooDeep(s));
    }
    let room = left - 1;
    let on = State {
        at: TokenNumber(s.at.0 + 1),
        opened: s.opened + 1,
        ..s
    };
    if lookahead::is_symbol(lookahead::symbol_at(src, toks, on.at), token::NEWLINE) {
        let at = lookahead::skip_newlines(src, toks, TokenNumber(on.at.0 + 1));
        indented(src, toks, tree, room, State { at, ..on })
    } else {
        simple::simples(src, toks, tree, room, on)
    }
}

// A Block, if the token there can begin one.
#[cycle(stmt)]
fn block(src: &[u8], toks: &[u32], tree: &mut [u32], left: u32, s: State) -> Parsed
    requires { Ready src.now toks.now tree.old s 9 }
    ensures { Parts src.now toks.now left (call Block) [] a_list s tree.old result tree.new }
{
    if lookahead::is_symbol(lookahead::symbol_at(src, toks, s.at), token::COLON) {
        rule_block(src, toks, tree, left, s)
    } else {
        Err(Refused::Misfit(s))
    }
}

// Indent, Lines or none, Dedent.
#[cycle(stmt)]
fn indented(src: &[u8], toks: &[u32], tree: &mut [u32], left: u32, s: State) -> Parsed
    requires { Ready src.now toks.now tree.old s 1 }
    ensures { Parts src.now toks.now left indented_on [] a_list s tree.old result tree.new }
{
    let on = take(src, toks, token::INDENT, s)?;
    let Added(first, after) = inside(src, toks, tree, left, on)?;
    let done = take(src, toks, token::DEDENT, after)?;
    Ok(Added(first, done))
}

// Lines with Newlines before them, or nothing.
#[cycle(stmt)]
fn inside(src: &[u8], toks: &[u32], tree: &mut [u32], left: u32, s: State) -> Parsed
    requires { Ready src.now toks.now tree.old s 1 }
    ensures { Parts src.now toks.now left inside_on [] a_list s tree.old result tree.new }
{
    if begins_lines(lookahead::symbol_at(src, toks, s.at)) {
        let at = lookahead::skip_newlines(src, toks, s.at);
        lines(src, toks, tree, left, State { at, ..s })
    } else {
        Ok(Added(NodeNumber(ast::NONE_NODE), s))
    }
}

// Lines each with Newlines after it: at least one. The answer's node is the first.
#[cycle(stmt)]
fn lines(src: &[u8], toks: &[u32], tree: &mut [u32], left: u32, s: State) -> Parsed
    requires { Ready src.now toks.now tree.old s 1 }
    ensures { Parts src.now toks.now left lines_on [] a_list s tree.old result tree.new }
{
    if !lookahead::begins_line(lookahead::symbol_at(src, toks, s.at)) {
        return Err(Refused::Misfit(s));
    }
    let mut gathered = None;
    let mut st = s;
    loop {
        let Added(n, after) = rule_line(src, toks, tree, left, st)?;
        let last = NodeNumber(after.nodes - 1);
        let at = lookahead::skip_newlines(src, toks, after.at);
        let on = State { at, ..after };
        let first = simple::append(tree, gathered, n, on);
        if !lookahead::begins_line(lookahead::symbol_at(src, toks, at)) {
            return Ok(Added(first, on));
        }
        gathered = Some(Gathered { first, last });
        st = on;
    }
}

// Class, opened at its keyword: name, colon, one or more Newlines, Indent, one or more Methods with no Newline between, Dedent.
#[cycle(stmt)]
fn rule_class(src: &[u8], toks: &[u32], tree: &mut [u32], left: u32, s: State) -> Parsed
    requires ready { Ready src.now toks.now tree.old s 9 }
    requires begun { Begun src.now toks.now s Class }
    ensures rules { Rules src.now toks.now left Class a_node s tree.old result tree.new }
    ensures newest { Newest result }
{
    let up = State {
        at: TokenNumber(s.at.0 + 1),
        opened: s.opened + 1,
        ..s
    };
    let named = take_name(src, toks, up)?;
    let colon = take(src, toks, token::COLON, named)?;
    let on = take(src, toks, token::NEWLINE, colon)?;
    let at = lookahead::skip_newlines(src, toks, on.at);
    class_body(src, toks, tree, left, s.at, up.at, State { at, ..on })
}

// Indent, one or more Methods, Dedent.
#[cycle(stmt)]
fn class_body(
    src: &[u8],
    toks: &[u32],
    tree: &mut [u32],
    left: u32,
    keyword: TokenNumber,
    name: TokenNumber,
    s: State,
) -> Parsed
    requires ready { Ready src.now toks.now tree.old s 1 }
    requires keyword_lt_at { (keyword.0 < s.at.0) × (name.0 < s.at.0) }
    ensures parts { Parts src.now toks.now left class_body_lem (token name.0 ∷ token keyword.0 ∷ []) a_node s tree.old result tree.new }
    ensures newest { Newest result }
{
    let on = take(src, toks, token::INDENT, s)?;
    let Added(n, after) = method(src, toks, tree, left, on)?;
    let Added(first, behind) = further(src, toks, tree, left, true, n, after)?;
    let done = take(src, toks, token::DEDENT, behind)?;
    Ok(stmt_leaves::put_class(toks, tree, keyword, name, first, done))
}

// A Method.
#[cycle(stmt)]
fn method(src: &[u8], toks: &[u32], tree: &mut [u32], left: u32, s: State) -> Parsed
    requires { Ready src.now toks.now tree.old s 1 }
    ensures { Parts src.now toks.now left (rules.definition kind.Method) [] a_node s tree.old result tree.new }
{
    let on = take(src, toks, token::DEF, s)?;
    named(src, toks, tree, left, ast::METHOD, s.at, on)
}

// A Def or Method after its keyword: name, names in parentheses, Block.
#[cycle(stmt)]
fn named(
    src: &[u8],
    toks: &[u32],
    tree: &mut [u32],
    left: u32,
    kind: u32,
    keyword: TokenNumber,
    s: State,
) -> Parsed
    requires ready { Ready src.now toks.now tree.old s 1 }
    requires keyword_lt_at { keyword.0 < s.at.0 }
    ensures parts { Parts src.now toks.now left (named_on kind) (token keyword.0 ∷ []) a_node s tree.old result tree.new }
    ensures newest { Newest result }
{
    let named = take_name(src, toks, s)?;
    let on = take(src, toks, token::LPAREN, named)?;
    let Added(names, after) = expr::names(src, toks, tree, on);
    let shut = take(src, toks, token::RPAREN, after)?;
    let Added(first, done) = block(src, toks, tree, left, shut)?;
    Ok(stmt_leaves::put_def(toks, tree, kind, keyword, s.at, names, first, done))
}

// E, and the Block behind it: what While, For, If and Elif have in common.
#[cycle(stmt)]
fn guarded(
    src: &[u8],
    toks: &[u32],
    tree: &mut [u32],
    left: u32,
    s: State,
) -> Result<Clause, Refused>
    requires { Ready src.now toks.now tree.old s 1 }
    ensures { Guards src.now toks.now left s tree.old result tree.new }
{
    let Added(test, after) = expr::enter(src, toks, tree, left, s)?;
    let Added(first, done) = block(src, toks, tree, left, after)?;
    Ok(Clause(test, first, done))
}

// While after its keyword: E, Block.
#[cycle(stmt)]
fn again(
    src: &[u8],
    toks: &[u32],
    tree: &mut [u32],
    left: u32,
    keyword: TokenNumber,
    s: State,
) -> Parsed
    requires ready { Ready src.now toks.now tree.old s 1 }
    requires keyword_lt_at { keyword.0 < s.at.0 }
    ensures parts { Parts src.now toks.now left while_on (token keyword.0 ∷ []) a_node s tree.old result tree.new }
    ensures newest { Newest result }
{
    let Clause(test, first, done) = guarded(src, toks, tree, left, s)?;
    Ok(stmt_leaves::put_while(toks, tree, keyword, test, first, done))
}

// For after its keyword: name, `in`, E, Block.
#[cycle(stmt)]
fn each(
    src: &[u8],
    toks: &[u32],
    tree: &mut [u32],
    left: u32,
    keyword: TokenNumber,
    s: State,
) -> Parsed
    requires ready { Ready src.now toks.now tree.old s 1 }
    requires keyword_lt_at { keyword.0 < s.at.0 }
    ensures parts { Parts src.now toks.now left for_on (token keyword.0 ∷ []) a_node s tree.old result tree.new }
    ensures newest { Newest result }
{
    let named = take_name(src, toks, s)?;
    let on = take(src, toks, token::IN, named)?;
    let Clause(range, first, done) = guarded(src, toks, tree, left, on)?;
    Ok(stmt_leaves::put_for(toks, tree, keyword, s.at, range, first, done))
}

// If after its keyword: E, Block, and its Elifs and its Else, which follow at once.
#[cycle(stmt)]
fn cond(
    src: &[u8],
    toks: &[u32],
    tree: &mut [u32],
    left: u32,
    keyword: TokenNumber,
    s: State,
) -> Parsed
    requires ready { Ready src.now toks.now tree.old s 1 }
    requires keyword_lt_at { keyword.0 < s.at.0 }
    ensures parts { Parts src.now toks.now left if_on (token keyword.0 ∷ []) a_node s tree.old result tree.new }
    ensures newest { Newest result }
{
    let Clause(test, first, after) = guarded(src, toks, tree, left, s)?;
    let Added(more, behind) = elifs(src, toks, tree, left, after)?;
    let Added(last, done) = other(src, toks, tree, left, behind)?;
    Ok(stmt_leaves::put_if(toks, tree, keyword, test, first, more, last, done))
}

// Elifs, or none.
#[cycle(stmt)]
fn elifs(src: &[u8], toks: &[u32], tree: &mut [u32], left: u32, s: State) -> Parsed
    requires { Ready src.now toks.now tree.old s 1 }
    ensures { Parts src.now toks.now left elifs_on [] a_list s tree.old result tree.new }
{
    if lookahead::is_symbol(lookahead::symbol_at(src, toks, s.at), token::ELIF) {
        let Added(n, after) = elif(src, toks, tree, left, s)?;
        further(src, toks, tree, left, false, n, after)
    } else {
        Ok(Added(NodeNumber(ast::NONE_NODE), s))
    }
}

// The Methods, or the Elifs, after the first: each is linked to the one before it.
#[cycle(stmt)]
fn further(
    src: &[u8],
    toks: &[u32],
    tree: &mut [u32],
    left: u32,
    methods: bool,
    first: NodeNumber,
    s: State,
) -> Parsed
    requires ready { Ready src.now toks.now tree.old s 1 }
    requires first_lt_nodes { first.0 < s.nodes }
    ensures { Lists src.now toks.now left (others methods) (growing first.0 first.0 ∷ []) s tree.old result tree.new }
{
    let mut last = first;
    let mut st = s;
    while leads(lookahead::symbol_at(src, toks, st.at), methods) {
        let Added(n, after) = member(src, toks, tree, left, methods, st)?;
        leaves::link(tree, last, n, after);
        last = n;
        st = after;
    }
    Ok(Added(first, st))
}

// A Method, or an Elif, at its keyword.
#[cycle(stmt)]
fn member(src: &[u8], toks: &[u32], tree: &mut [u32], left: u32, methods: bool, s: State) -> Parsed
    requires ready { Ready src.now toks.now tree.old s 1 }
    requires methods_value { mem (symbol_at src.now toks.now s.at.0) (leading methods ∷ []) ≡ true }
    ensures { Parts src.now toks.now left (member methods) [] a_node s tree.old result tree.new }
{
    if methods {
        method(src, toks, tree, left, s)
    } else {
        elif(src, toks, tree, left, s)
    }
}

// An Elif, at its keyword: E, Block.
#[cycle(stmt)]
fn elif(src: &[u8], toks: &[u32], tree: &mut [u32], left: u32, s: State) -> Parsed
    requires ready { Ready src.now toks.now tree.old s 1 }
    requires at_value { mem (symbol_at src.now toks.now s.at.0) (Elif ∷ []) ≡ true }
    ensures { Parts src.now toks.now left elif_on [] a_node s tree.old result tree.new }
{
    let Clause(test, first, done) = guarded(src, toks, tree, left, leaves::past(s))?;
    Ok(stmt_leaves::put_elif(toks, tree, s.at, test, first, done))
}

// An Else as a list of one, or none.
#[cycle(stmt)]
fn other(src: &[u8], toks: &[u32], tree: &mut [u32], left: u32, s: State) -> Parsed
    requires { Ready src.now toks.now tree.old s 1 }
    ensures { Parts src.now toks.now left else_on [] a_list s tree.old result tree.new }
{
    if lookahead::is_symbol(lookahead::symbol_at(src, toks, s.at), token::ELSE) {
        let Added(first, done) = block(src, toks, tree, left, leaves::past(s))?;
        Ok(stmt_leaves::put_else(toks, tree, s.at, first, done))
    } else {
        Ok(Added(NodeNumber(ast::NONE_NODE), s))
    }
}
