// The statements on one line (src/parser/mod.rs): the rule Simple, and simples, which opens nothing. A statement's node is the last that is
// written for it, so the last statement of simples is the last node (`Newest`, `a_growing`).
#![tactic(auto)]

ghost use Rattle.std.specs.Prelude.{◌≡◌, List, [], ◌∷◌, ℕ, ◌+◌, ◌-◌, ◌*◌, ◌<◌, ◌≤◌, length};
ghost use Rattle.grammar.specs.Grammar.{act};
ghost use Rattle.pyhyeon.specs.Action.{alone};
ghost use Rattle.pyhyeon.specs.Machine.{node, growing};
ghost use Rattle.pyhyeon.specs.Rules.{Simple};
ghost use Rattle.pyhyeon.specs.Rules as rules;
ghost use Rattle.lookahead.specs.Tokens.{eof_at, text_before, Tokens};
ghost use Rattle.leaves.specs.Contract.{a_node, a_growing, Rules, Parts, Ready, Begun, Spot, Writes};
ghost use Rattle.simple.specs.Parts.{Newest, line_end_lem};
ghost use Rattle.simple.specs.Roles.{stated, hand, does, targets, Placed};
ghost use Rattle.simple.specs.Lists.{Held, Appended};

use leaves::{Added, Parsed, Refused, State};
use token::{NodeNumber, TokenNumber};

// What a t is to its statement: what the Return of this keyword gives; its first t, which may be a target; or the value of this target.
#[derive(Clone, Copy)]
enum Role {
    Return(TokenNumber),
    First,
    Value(NodeNumber),
}

// What is gathered before a statement or a Line where that is not nothing: a list in the making, by its first node and its last.
#[derive(Clone, Copy)]
pub struct Gathered {
    pub first: NodeNumber,
    pub last: NodeNumber,
}

// Simple: return t; t = t; t; break; continue; pass.
pub fn rule_simple(src: &[u8], toks: &[u32], tree: &mut [u32], left: u32, s: State) -> Parsed
    requires ready { Ready src.now toks.now tree.old s 2 }
    requires begun { Begun src.now toks.now s Simple }
    ensures rules { Rules src.now toks.now left Simple a_node s tree.old result tree.new }
    ensures newest { Newest result }
{
    let up = State {
        opened: s.opened + 1,
        ..s
    };
    let on = leaves::past(up);
    match lookahead::symbol_at(src, toks, s.at) {
        token::BREAK => word(toks, tree, ast::BREAK, on),
        token::CONTINUE => word(toks, tree, ast::CONTINUE, on),
        token::PASS => word(toks, tree, ast::PASS, on),
        token::RETURN => statement(src, toks, tree, left, Role::Return(s.at), on),
        _ => statement(src, toks, tree, left, Role::First, up),
    }
}

// The Break, Continue or Pass of the word that was taken.
fn word(toks: &[u32], tree: &mut [u32], kind: u32, s: State) -> Parsed
    requires { Spot toks.now tree.old s }
    ensures by_index { (src : List ℕ) (room : ℕ) → s.used ≡ text_before src toks.now s.at.0 → Parts src toks.now room (act (alone kind)) [] a_node s tree.old result tree.new }
    ensures newest { Newest result }
{
    Ok(stmt_leaves::put_alone(toks, tree, kind, s))
}

// A statement from its t on, whose role is `what`: behind a target the value is read next.
fn statement(src: &[u8], toks: &[u32], tree: &mut [u32], left: u32, what: Role, s: State) -> Parsed
    requires ready { Ready src.now toks.now tree.old s 3 }
    requires placed { Placed what s }
    ensures parts { Parts src.now toks.now left (stated what) (hand what) a_node s tree.old result tree.new }
    ensures newest { Newest result }
{
    let mut role = what;
    let mut st = s;
    loop {
        let Added(n, after) = expr::comma_list(src, toks, tree, left, st)?;
        if !is_target(src, toks, role, after.at) {
            return Ok(put(toks, tree, role, n, after));
        }
        role = Role::Value(n);
        st = leaves::past(after);
    }
}

// Whether a t of this role that ends at the token `at` is a target.
fn is_target(src: &[u8], toks: &[u32], role: Role, at: TokenNumber) -> bool
    requires tokens { Tokens src.now toks.now }
    requires at_bound { at.0 ≤ eof_at toks.now }
    ensures { result ≡ targets src.now toks.now at.0 role }
{
    matches!(role, Role::First)
        && lookahead::is_symbol(lookahead::symbol_at(src, toks, at), token::EQUAL)
}

// The statement whose last t is the node n.
fn put(toks: &[u32], tree: &mut [u32], role: Role, n: NodeNumber, s: State) -> Added
    requires spot { Spot toks.now tree.old s }
    requires placed { Placed role s × (n.0 < s.nodes) }
    ensures { (src : List ℕ) → Writes src toks.now (does role) (node n.0 ∷ hand role) s tree.old result tree.new }
{
    match role {
        Role::Return(keyword) => stmt_leaves::put_return(toks, tree, keyword, n, s),
        Role::First => stmt_leaves::put_expr(toks, tree, n, s),
        Role::Value(target) => stmt_leaves::put_assign(toks, tree, target, n, s),
    }
}

// simples: Simple separated by `;`, one trailing allowed, then Newline or end. The answer's node is the first of them; the last was written last.
pub fn simples(src: &[u8], toks: &[u32], tree: &mut [u32], left: u32, s: State) -> Parsed
    requires { Ready src.now toks.now tree.old s 2 }
    ensures { Parts src.now toks.now left rules.simples [] a_growing s tree.old result tree.new }
{
    if !lookahead::begins_simple(lookahead::symbol_at(src, toks, s.at)) {
        return Err(Refused::Misfit(s));
    }
    let mut gathered = None;
    let mut st = s;
    loop {
        let Added(n, done) = rule_simple(src, toks, tree, left, st)?;
        let first = append(tree, gathered, n, done);
        if !lookahead::is_symbol(lookahead::symbol_at(src, toks, done.at), token::SEMICOLON) {
            return line_end(src, toks, first, done);
        }
        let on = leaves::past(done);
        if !lookahead::begins_simple(lookahead::symbol_at(src, toks, on.at)) {
            return line_end(src, toks, first, on);
        }
        gathered = Some(Gathered { first, last: n });
        st = on;
    }
}

// The list that begins at the node n, behind what is gathered before it: the first node of both.
pub fn append(tree: &mut [u32], gathered: Option<Gathered>, n: NodeNumber, s: State) -> NodeNumber
    requires nodes_in_bounds { 8 * s.nodes + 8 ≤ length tree.old }
    requires held { Held gathered s }
    ensures { (src toks : List ℕ) → Appended src toks gathered n s tree.old result tree.new }
{
    match gathered {
        None => n,
        Some(Gathered { first, last }) => {
            leaves::link(tree, last, n, s);
            first
        }
    }
}

// Newline, which is taken, or the end, which is not.
fn line_end(src: &[u8], toks: &[u32], first: NodeNumber, s: State) -> Parsed
    requires tokens { Tokens src.now toks.now }
    requires at_bound { (s.at.0 ≤ eof_at toks.now) × (s.used ≡ text_before src.now toks.now s.at.0) }
    ensures { (room : ℕ) (tr : List ℕ) → Parts src.now toks.now room line_end_lem (growing first.0 (s.nodes - 1) ∷ []) a_growing s tr result tr }
{
    match lookahead::symbol_at(src, toks, s.at) {
        token::NEWLINE => Ok(Added(first, leaves::past(s))),
        token::EOF => Ok(Added(first, s)),
        _ => Err(Refused::Misfit(s)),
    }
}
