// The names of a lambda, Def or Method.
ghost use Rattle.std.specs.Prelude.{[], ◌∷◌, ℕ, ◌<◌};
ghost use Rattle.grammar.specs.Grammar.{tail, act, ◌⨾◌};
ghost use Rattle.token.specs.Code.{Comma};
ghost use Rattle.pyhyeon.specs.Machine.{growing};
ghost use Rattle.pyhyeon.specs.Rules.{parameters, more};
ghost use Rattle.pyhyeon.specs.Action.{list_done};
ghost use Rattle.leaves.specs.Contract.{read, a_list, Parts, Ready};
ghost use Rattle.expr.specs.Parts.{name};

use leaves::{Added, State};
use token::NodeNumber;

// A list of names, which may be empty.
pub fn names(src: &[u8], toks: &[u32], tree: &mut [u32], s: State) -> Added
    requires { Ready src.now toks.now tree.old s 1 }
    ensures { (room : ℕ) → Parts src.now toks.now room parameters [] a_list s tree.old (read result.0 result.1) tree.new }
{
    if lookahead::is_name(lookahead::symbol_at(src, toks, s.at)) {
        let Added(first, after) = expr_leaves::put_named(toks, tree, ast::NAME, leaves::past(s));
        names_rest(src, toks, tree, first, after)
    } else {
        Added(NodeNumber(ast::NONE_NODE), s)
    }
}

// The rest of a list of names.
fn names_rest(src: &[u8], toks: &[u32], tree: &mut [u32], first: NodeNumber, s: State) -> Added
    requires ready { Ready src.now toks.now tree.old s 1 }
    requires first_lt_nodes { first.0 < s.nodes }
    ensures { (room : ℕ) → Parts src.now toks.now room (tail Comma (more name) ⨾ act list_done) (growing first.0 first.0 ∷ []) a_list s tree.old (read result.0 result.1) tree.new }
{
    let mut last = first;
    let mut st = s;
    while lookahead::is_symbol(lookahead::symbol_at(src, toks, st.at), token::COMMA) {
        let on = leaves::past(st);
        if !lookahead::is_name(lookahead::symbol_at(src, toks, on.at)) {
            return Added(first, on);
        }
        let Added(n, after) = expr_leaves::put_named(toks, tree, ast::NAME, leaves::past(on));
        leaves::link(tree, last, n, after);
        last = n;
        st = after;
    }
    Added(first, st)
}
