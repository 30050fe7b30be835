// Runs of tokens that are passed one by one: the Newlines around a Line, and the signs of U, with what stands behind these.
ghost use Rattle.std.specs.Prelude.{◌≡◌, true, false, [], ◌∷◌, ◌≤◌};
ghost use Rattle.grammar.specs.Sets.{mem};
ghost use Rattle.token.specs.Code.{Newline, Eof};
ghost use Rattle.pyhyeon.specs.Rules.{sign_set};
ghost use Rattle.pyhyeon.specs.Tables.{first_f, first_u};
ghost use Rattle.lookahead.specs.Tokens.{eof_at, symbol_at, Tokens};
ghost use Rattle.lookahead.specs.Run.{Passed, Run};

use crate::read::symbol_at;
use crate::sets::{begins_f, is_newline, is_sign};
use token::TokenNumber;

// The first token from `at` on whose symbol fails the test. Eof's does, so the tokens' end is not passed.
fn skip_while<F: Fn(u32) -> bool>(src: &[u8], toks: &[u32], at: TokenNumber, test: F) -> TokenNumber
    requires tokens { Tokens src.now toks.now }
    requires at_bound { at.0 ≤ eof_at toks.now }
    requires callable { F.IsAlwaysCallable test }
    requires ends { F.post test Eof true → ⊥ }
    ensures passed { Passed (λ c. F.post test c true) src.now toks.now at.0 result.0 }
    ensures stop { F.post test (symbol_at src.now toks.now result.0) false }
{
    let mut t = at;
    while test(symbol_at(src, toks, t)) {
        t = TokenNumber(t.0 + 1);
    }
    t
}

// The first token from `at` on that is no Newline: "Newlines (none or more)" (01, Grammar).
pub fn skip_newlines(src: &[u8], toks: &[u32], at: TokenNumber) -> TokenNumber
    requires tokens { Tokens src.now toks.now }
    requires at_bound { at.0 ≤ eof_at toks.now }
    ensures { Run src.now toks.now (Newline ∷ []) at.0 result.0 }
{
    skip_while(src, toks, at, is_newline)
}

// The first token from `at` on that is no sign: "any of not - +" (01, Grammar).
pub fn skip_signs(src: &[u8], toks: &[u32], at: TokenNumber) -> TokenNumber
    requires tokens { Tokens src.now toks.now }
    requires at_bound { at.0 ≤ eof_at toks.now }
    ensures { Run src.now toks.now sign_set at.0 result.0 }
{
    skip_while(src, toks, at, is_sign)
}

// Whether the token `end`, behind the signs of a U that begins at `first`, can begin F. Without signs it can, and is not asked.
pub fn behind_signs(src: &[u8], toks: &[u32], first: TokenNumber, end: TokenNumber) -> bool
    requires tokens { Tokens src.now toks.now }
    requires first_u_value { mem (symbol_at src.now toks.now first.0) first_u ≡ true }
    requires run { Run src.now toks.now sign_set first.0 end.0 }
    ensures { result ≡ mem (symbol_at src.now toks.now end.0) first_f }
{
    first == end || begins_f(symbol_at(src, toks, end))
}
