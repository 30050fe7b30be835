// One token, or its test: what stands in no cycle.
ghost use Rattle.std.specs.Prelude.{◌≡◌, [], ◌∷◌, ◌+◌, ◌^◌, ◌<◌, ◌≤◌};
ghost use Rattle.grammar.specs.Sets.{mem};
ghost use Rattle.token.specs.Code.{Newline};
ghost use Rattle.pyhyeon.specs.Rules.{names};
ghost use Rattle.pyhyeon.specs.Tables.{first_line};
ghost use Rattle.lookahead.specs.Tokens.{eof_at, symbol_at, Tokens};
ghost use Rattle.stmt.specs.Taking.{Takes};
ghost use Rattle.stmt.specs.Parts.{leading};

use leaves::{Refused, State};

// The state past the token there, if that fits.
fn past_if(fits: bool, s: State) -> Result<State, Refused>
    requires { s.at.0 + 1 < 2 ^ 32 }
    ensures { Takes fits s result }
{
    if fits {
        Ok(leaves::past(s))
    } else {
        Err(Refused::Misfit(s))
    }
}

// The state past the token there, if that is this symbol.
pub(crate) fn take(src: &[u8], toks: &[u32], symbol: u32, s: State) -> Result<State, Refused>
    requires tokens { Tokens src.now toks.now }
    requires at_bound { s.at.0 ≤ eof_at toks.now }
    ensures { Takes (mem (symbol_at src.now toks.now s.at.0) (symbol ∷ [])) s result }
{
    past_if(
        lookahead::is_symbol(lookahead::symbol_at(src, toks, s.at), symbol),
        s,
    )
}

// The same, if it is a name.
pub(crate) fn take_name(src: &[u8], toks: &[u32], s: State) -> Result<State, Refused>
    requires tokens { Tokens src.now toks.now }
    requires at_bound { s.at.0 ≤ eof_at toks.now }
    ensures { Takes (mem (symbol_at src.now toks.now s.at.0) names) s result }
{
    past_if(lookahead::is_name(lookahead::symbol_at(src, toks, s.at)), s)
}

// Whether the symbol can begin Lines, or a Newline before them.
pub(crate) fn begins_lines(symbol: u32) -> bool
    ensures { result ≡ mem symbol (Newline ∷ first_line) }
{
    lookahead::is_symbol(symbol, token::NEWLINE) || lookahead::begins_line(symbol)
}

// Whether the symbol is the keyword of a Method, or of an Elif.
pub(crate) fn leads(symbol: u32, methods: bool) -> bool
    ensures { result ≡ mem symbol (leading methods ∷ []) }
{
    lookahead::is_symbol(symbol, if methods { token::DEF } else { token::ELIF })
}
