// Program: Newlines, Lines each with Newlines around, end.
ghost use Rattle.std.specs.Prelude.{[], ◌∷◌, ℕ, ◌+◌, ◌*◌, ◌≤◌, length};
ghost use Rattle.pyhyeon.specs.Machine.{list};
ghost use Rattle.pyhyeon.specs.Rules.{Program};
ghost use Rattle.pyhyeon.specs.Tables.{depth};
ghost use Rattle.lookahead.specs.Tokens.{eof_at, Tokens};
ghost use Rattle.leaves.specs.Contract.{a_node, Rules, Parts, Ready};
ghost use Rattle.stmt.specs.Parts.{start, program_end};

use crate::{DEPTH, lines};
use leaves::{Added, Parsed, Refused, State};
use token::{NodeNumber, TokenNumber};

// Program: Newlines (none or more), Lines each with Newlines around, end.
fn rule_program(src: &[u8], toks: &[u32], tree: &mut [u32], left: u32, s: State) -> Parsed
    requires { Ready src.now toks.now tree.old s 0 }
    ensures { Rules src.now toks.now left Program a_node s tree.old result tree.new }
{
    let at = lookahead::skip_newlines(src, toks, s.at);
    let on = State {
        at,
        opened: s.opened + 1,
        ..s
    };
    if lookahead::begins_line(lookahead::symbol_at(src, toks, at)) {
        let Added(first, after) = lines(src, toks, tree, left, on)?;
        end(src, toks, tree, first, after)
    } else {
        end(src, toks, tree, NodeNumber(ast::NONE_NODE), on)
    }
}

// The end, and the Program of the lines from `first` on, which may be none.
fn end(src: &[u8], toks: &[u32], tree: &mut [u32], first: NodeNumber, s: State) -> Parsed
    requires { Ready src.now toks.now tree.old s 1 }
    ensures { (room : ℕ) → Parts src.now toks.now room program_end (list first.0 ∷ []) a_node s tree.old result tree.new }
{
    if lookahead::is_symbol(lookahead::symbol_at(src, toks, s.at), token::EOF) {
        Ok(stmt_leaves::put_program(src, tree, first, s))
    } else {
        Err(Refused::Misfit(s))
    }
}

// The tree of a script's tokens: Program, opened once, with room for 64 E and Block.
pub fn program(src: &[u8], toks: &[u32], tree: &mut [u32]) -> Parsed
    requires tokens { Tokens src.now toks.now }
    requires toks_in_bounds { 16 * eof_at toks.now + 16 ≤ length tree.old }
    ensures { Rules src.now toks.now depth Program a_node start tree.old result tree.new }
{
    let s = State {
        at: TokenNumber(0),
        nodes: 0,
        opened: 0,
        used: 0,
    };
    rule_program(src, toks, tree, DEPTH, s)
}
