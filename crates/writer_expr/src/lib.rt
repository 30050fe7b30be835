// The standard text of an expression, from its tree, written into a lent slice from the back.
//
// A text is written from the back (`Back` of crate `writing`). Nodes are taken by falling number: `end` is one more than the number of a subtree's root, and the
// answer is the number of its first node. So no child's number is read, and the words read are kinds, operators, places and the first member of a list.
//
// A contract asks that some expression stands there (`Some`), and answers for every one that does (`Puts`, `Turns`: specs/Put.antt). `step` takes one turn
// down the left side of a tree: it writes all of it, or its end, and what is left is again the text of one expression, which starts at the same node. So
// the functions call one another again only where an E is opened, or a rule further behind is asked for.
#![tactic(auto)]

ghost use Rattle.std.specs.Prelude.{◌≡◌, ℕ, ◌+◌, ◌≤◌, length};
ghost use Rattle.token.specs.Code as code;
ghost use Rattle.ast.specs.Kind as kind;
ghost use Rattle.ast.specs.Node.{none};
ghost use Rattle.unparse.specs.Trees.{Tree, a, some, list, Pair};
ghost use Rattle.standard.specs.Text.{within};
ghost use Rattle.writer_expr.specs.Levels.{number, text_at, text_of, text_whole};
ghost use Rattle.writer_expr.specs.Laid.{kind_at, word_at, Stands, Some, SomeMember, SomeMembers, SomeList};
ghost use Rattle.writer_expr.specs.Forms.{binary, call, attribute, index, lambda, enclosed, Linked, Formed};
ghost use Rattle.writer_expr.specs.Put.{Put, Puts, Turns, PutsMember, PutsList};

mod leaf;
mod marks;
mod rules;
pub mod words;

use leaf::put_leaf;
pub use rules::Rule;
use words::{kind_at, word_at};
use writing::Back;

// What a turn leaves, which ends before the node `end`: nothing where all is written, or an expression that must fit the rule `left`.
#[derive(Clone, Copy)]
pub struct Turn {
    pub end: usize,
    pub left: Option<Rule>,
}

// Node `end - 1`, with all below it, where a text that fits the rule `least` must stand. Each turn goes one step down the left side.
#[cycle(put_expr)]
pub fn put_expr(
    src: &[u8],
    text: &[u8],
    tree: &[u32],
    back: &mut Back,
    end: usize,
    least: Rule,
) -> usize
    requires { Some src.now text.now tree.now end }
    ensures { Puts src.now text.now tree.now (text_at (number least)) end back.old back.new result }
{
    let mut e = end;
    let mut l = least;
    loop {
        let Turn { end, left } = step(src, text, tree, back, e, l);
        let Some(rule) = left else {
            return end;
        };
        e = end;
        l = rule;
    }
}

// The same where a whole statement's stands: a tuple that is not empty has no parentheses there.
pub fn put_whole(src: &[u8], text: &[u8], tree: &[u32], back: &mut Back, end: usize) -> usize
    requires { Some src.now text.now tree.now end }
    ensures { Puts src.now text.now tree.now text_whole end back.old back.new result }
{
    if kind_at(tree, end) != ast::TUPLE {
        return put_expr(src, text, tree, back, end, Rule::E);
    }
    if word_at(tree, end, 4) == ast::NONE_NODE {
        return put_expr(src, text, tree, back, end, Rule::E);
    }
    put_inside(src, text, tree, back, end)
}

// One turn.
#[cycle(put_expr)]
fn step(src: &[u8], text: &[u8], tree: &[u32], back: &mut Back, end: usize, least: Rule) -> Turn
    requires { Some src.now text.now tree.now end }
    ensures { Turns src.now text.now tree.now (text_at (number least)) end back.old back.new result }
{
    if Rule::of_node(tree, end) < least {
        return parens(src, text, tree, back, end);
    }
    if rules::is_link(tree, end) {
        return put_link(src, text, tree, back, end);
    }
    match kind_at(tree, end) {
        ast::BINARY => put_binary(src, text, tree, back, end),
        ast::UNARY => put_unary(src, text, tree, back, end),
        ast::CALL => put_call(src, text, tree, back, end),
        ast::ATTRIBUTE => put_attribute(src, text, tree, back, end),
        ast::INDEX => put_index(src, text, tree, back, end),
        ast::LAMBDA => put_lambda(src, text, tree, back, end),
        ast::TUPLE => put_tuple(src, text, tree, back, end),
        ast::LIST | ast::DICT | ast::SET | ast::TREE_SET => put_enclosed(
            src, text, tree, back, end,
        ),
        _ => {
            put_leaf(src, text, tree, back, end);
            Turn {
                end: end - 1,
                left: None,
            }
        }
    }
}

// All of it in parentheses.
#[cycle(put_expr)]
fn parens(src: &[u8], text: &[u8], tree: &[u32], back: &mut Back, end: usize) -> Turn
    requires { Some src.now text.now tree.now end }
    ensures { Turns src.now text.now tree.now (λ x. within code.LParen (text_of x) code.RParen) end back.old back.new result }
{
    back.put_fixed(token::RPAREN);
    let end = put_expr(src, text, tree, back, end, Rule::E);
    back.put_fixed(token::LPAREN);
    Turn { end, left: None }
}

// An operator and what stands at its right, which must fit the next rule.
#[cycle(put_expr)]
fn put_binary(src: &[u8], text: &[u8], tree: &[u32], back: &mut Back, end: usize) -> Turn
    requires some { Some src.now text.now tree.now end }
    requires formed { Formed tree.now end binary }
    ensures { Turns src.now text.now tree.now text_of end back.old back.new result }
{
    let op = word_at(tree, end, 4);
    let rule = Rule::of(op);
    let end = put_expr(src, text, tree, back, end - 1, rule.next());
    back.put_spaced(marks::operator(op));
    Turn {
        end,
        left: Some(rule.left()),
    }
}

// The last comparison of a chain; what is left is the chain before it.
#[cycle(put_expr)]
fn put_link(src: &[u8], text: &[u8], tree: &[u32], back: &mut Back, end: usize) -> Turn
    requires some { Some src.now text.now tree.now end }
    requires linked { Linked tree.now end }
    ensures { Turns src.now text.now tree.now text_of end back.old back.new result }
{
    let compare = end - 1;
    let op = word_at(tree, compare, 4);
    let end = put_expr(src, text, tree, back, compare - 1, Rule::S);
    back.put_spaced(marks::operator(op));
    Turn {
        end,
        left: Some(Rule::C),
    }
}

// Signs: the operand below them first, and then each sign before it.
#[cycle(put_expr)]
fn put_unary(src: &[u8], text: &[u8], tree: &[u32], back: &mut Back, end: usize) -> Turn
    requires some { Some src.now text.now tree.now end }
    requires signed { kind_at tree.now end ≡ kind.Unary }
    ensures { Turns src.now text.now tree.now text_of end back.old back.new result }
{
    let j = marks::operand(tree, end - 1);
    let first = put_expr(src, text, tree, back, j, Rule::U);
    marks::put_signs(tree, back, j, end);
    Turn {
        end: first,
        left: None,
    }
}

// The arguments of a call in their parentheses; what is called is left.
#[cycle(put_expr)]
fn put_call(src: &[u8], text: &[u8], tree: &[u32], back: &mut Back, end: usize) -> Turn
    requires some { Some src.now text.now tree.now end }
    requires formed { Formed tree.now end call }
    ensures { Turns src.now text.now tree.now text_of end back.old back.new result }
{
    let first = word_at(tree, end, 5);
    back.put_fixed(token::RPAREN);
    let end = put_list(src, text, tree, back, end - 1, first);
    back.put_fixed(token::LPAREN);
    Turn {
        end,
        left: Some(Rule::F),
    }
}

// The name behind a dot; what has it is left.
fn put_attribute(src: &[u8], text: &[u8], tree: &[u32], back: &mut Back, end: usize) -> Turn
    requires some { Some src.now text.now tree.now end }
    requires formed { Formed tree.now end attribute }
    ensures { Turns src.now text.now tree.now text_of end back.old back.new result }
{
    back.put_part(src, word_at(tree, end, 5), word_at(tree, end, 6));
    back.put_fixed(token::DOT);
    Turn {
        end: end - 1,
        left: Some(Rule::F),
    }
}

// An index in its brackets; what is indexed is left.
#[cycle(put_expr)]
fn put_index(src: &[u8], text: &[u8], tree: &[u32], back: &mut Back, end: usize) -> Turn
    requires some { Some src.now text.now tree.now end }
    requires formed { Formed tree.now end index }
    ensures { Turns src.now text.now tree.now text_of end back.old back.new result }
{
    back.put_fixed(token::RBRACKET);
    let end = put_expr(src, text, tree, back, end - 1, Rule::E);
    back.put_fixed(token::LBRACKET);
    Turn {
        end,
        left: Some(Rule::F),
    }
}

// A lambda: its body, its names, and the word.
#[cycle(put_expr)]
fn put_lambda(src: &[u8], text: &[u8], tree: &[u32], back: &mut Back, end: usize) -> Turn
    requires some { Some src.now text.now tree.now end }
    requires formed { Formed tree.now end lambda }
    ensures { Turns src.now text.now tree.now text_of end back.old back.new result }
{
    let first = word_at(tree, end, 4);
    let names = put_expr(src, text, tree, back, end - 1, Rule::E);
    back.put_then_space(token::COLON);
    let end = put_list(src, text, tree, back, names, first);
    marks::put_gap(back, first);
    back.put_fixed(token::LAMBDA);
    Turn { end, left: None }
}

// A tuple in its parentheses.
#[cycle(put_expr)]
fn put_tuple(src: &[u8], text: &[u8], tree: &[u32], back: &mut Back, end: usize) -> Turn
    requires some { Some src.now text.now tree.now end }
    requires tuple { kind_at tree.now end ≡ kind.Tuple }
    ensures { Turns src.now text.now tree.now text_of end back.old back.new result }
{
    if word_at(tree, end, 4) == ast::NONE_NODE {
        marks::put_unit(back);
        return Turn {
            end: end - 1,
            left: None,
        };
    }
    back.put_fixed(token::RPAREN);
    let end = put_inside(src, text, tree, back, end);
    back.put_fixed(token::LPAREN);
    Turn { end, left: None }
}

// The members of a tuple that is not empty, and the comma of a tuple of one.
#[cycle(put_expr)]
fn put_inside(src: &[u8], text: &[u8], tree: &[u32], back: &mut Back, end: usize) -> usize
    requires some { Some src.now text.now tree.now end }
    requires tuple { (kind_at tree.now end ≡ kind.Tuple) × (word_at tree.now end 4 ≡ none → ⊥) }
    ensures { Puts src.now text.now tree.now text_whole end back.old back.new result }
{
    let first = word_at(tree, end, 4);
    let i = end - 1;
    marks::put_comma(back, first as usize, i - 1);
    put_members(src, text, tree, back, i, first)
}

// A List, Dict, Set or TreeSet.
#[cycle(put_expr)]
fn put_enclosed(src: &[u8], text: &[u8], tree: &[u32], back: &mut Back, end: usize) -> Turn
    requires some { Some src.now text.now tree.now end }
    requires formed { Formed tree.now end (enclosed (kind_at tree.now end)) }
    ensures { Turns src.now text.now tree.now text_of end back.old back.new result }
{
    let (opening, closing) = marks::brackets(kind_at(tree, end));
    let first = word_at(tree, end, 4);
    back.put_bytes(closing);
    let end = put_list(src, text, tree, back, end - 1, first);
    back.put_bytes(opening);
    Turn { end, left: None }
}

// A list by its first node or none, the last member of which is node `end - 1`. Members are expressions, pairs, or names, of a lambda and of a Def or Method.
#[cycle(put_expr)]
pub fn put_list(
    src: &[u8],
    text: &[u8],
    tree: &[u32],
    back: &mut Back,
    end: usize,
    first: u32,
) -> usize
    requires { SomeList src.now text.now tree.now end first }
    ensures { PutsList src.now text.now tree.now list end first back.old back.new result }
{
    if first == ast::NONE_NODE {
        return end;
    }
    put_members(src, text, tree, back, end, first)
}

// The members from the node `first` on, the last one first.
#[cycle(put_expr)]
fn put_members(
    src: &[u8],
    text: &[u8],
    tree: &[u32],
    back: &mut Back,
    end: usize,
    first: u32,
) -> usize
    requires { SomeMembers src.now text.now tree.now end first }
    ensures { PutsList src.now text.now tree.now some end first back.old back.new result }
{
    let from = first as usize;
    let mut e = end;
    loop {
        let last = e - 1;
        e = put_member(src, text, tree, back, e);
        if last == from {
            return e;
        }
        back.put_then_space(token::COMMA);
    }
}

// A name, a pair or an expression.
#[cycle(put_expr)]
fn put_member(src: &[u8], text: &[u8], tree: &[u32], back: &mut Back, end: usize) -> usize
    requires { SomeMember src.now text.now tree.now end }
    ensures { PutsMember src.now text.now tree.now end back.old back.new result }
{
    let kind = kind_at(tree, end);
    if kind == ast::NAME {
        put_leaf(src, text, tree, back, end);
        return end - 1;
    }
    if kind == ast::PAIR {
        return put_pair(src, text, tree, back, end);
    }
    put_expr(src, text, tree, back, end, Rule::E)
}

// A pair of a Dict.
#[cycle(put_expr)]
fn put_pair(src: &[u8], text: &[u8], tree: &[u32], back: &mut Back, end: usize) -> usize
    requires some { SomeMember src.now text.now tree.now end }
    requires pair { kind_at tree.now end ≡ kind.Pair }
    ensures { (b : ℕ) (x : Tree (a Pair)) → Stands src.now text.now tree.now b x end → Put (text_of x) b back.old back.new result }
{
    let end = put_expr(src, text, tree, back, end - 1, Rule::E);
    back.put_then_space(token::COLON);
    put_expr(src, text, tree, back, end, Rule::E)
}
