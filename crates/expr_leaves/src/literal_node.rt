// The node of a literal.
ghost use Rattle.std.specs.Prelude.{◌≡◌, ◌+◌, ◌-◌, ◌^◌, ◌<◌};
ghost use Rattle.lookahead.specs.Tokens.{text_before, Tokens};
ghost use Rattle.leaves.specs.Contract.{Spot, Literals};
ghost use Rattle.expr_leaves.specs.TextLength.{text_length};

use leaves::{Added, State, put_opened};
use literal::Literal;
use lookahead::{code_at, end_at, start_at};
use token::TokenNumber;

// The bytes of text before a literal, and its own.
fn text_after(used: u32, l: Literal) -> u32
    requires { used + text_length l < 2 ^ 32 }
    ensures { result ≡ used + text_length l }
{
    if let Literal::String(_, len) = l {
        used + len
    } else {
        used
    }
}

// The node of the literal that was taken, whose text is counted.
pub fn put_literal(src: &[u8], toks: &[u32], tree: &mut [u32], s: State) -> Added
    requires tokens { Tokens src.now toks.now }
    requires spot { Spot toks.now tree.old s }
    requires used_value { s.used ≡ text_before src.now toks.now (s.at.0 - 1) }
    ensures { Literals src.now toks.now s tree.old result tree.new }
{
    let t = TokenNumber(s.at.0 - 1);
    let code = code_at(toks, t);
    let from = start_at(toks, t);
    let to = end_at(toks, t);
    let l = lexer::literal_of(src, code, from.0 as usize, to.0 as usize, s.used);
    let used = text_after(s.used, l);
    let after = State { used, ..s };
    put_opened(toks, tree, t, ast::leaf_of(l, from, to), after)
}
