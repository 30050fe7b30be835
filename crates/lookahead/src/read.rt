// What is asked of a token: its words, and its symbol.
ghost use Rattle.std.specs.Prelude.{◌≡◌, ◌+◌, ◌*◌, ◌≤◌, length};
ghost use Rattle.lookahead.specs.Tokens.{code_at, start_at, end_at, eof_at, symbol_at, Tokens};

use token::{Place, TokenNumber};

// The three words of a token: its code, and where it starts and ends.
pub fn code_at(toks: &[u32], at: TokenNumber) -> u32
    requires { 3 * at.0 + 3 ≤ length toks.now }
    ensures { result ≡ code_at toks.now at.0 }
{
    toks[3 * (at.0 as usize)]
}

pub fn start_at(toks: &[u32], at: TokenNumber) -> Place
    requires { 3 * at.0 + 3 ≤ length toks.now }
    ensures { result.0 ≡ start_at toks.now at.0 }
{
    Place(toks[3 * (at.0 as usize) + 1])
}

pub fn end_at(toks: &[u32], at: TokenNumber) -> Place
    requires { 3 * at.0 + 3 ≤ length toks.now }
    ensures { result.0 ≡ end_at toks.now at.0 }
{
    Place(toks[3 * (at.0 as usize) + 2])
}

// The token's code, or TEE where it is the name `t`.
pub fn symbol_at(src: &[u8], toks: &[u32], at: TokenNumber) -> u32
    requires tokens { Tokens src.now toks.now }
    requires at_bound { at.0 ≤ eof_at toks.now }
    ensures { result ≡ symbol_at src.now toks.now at.0 }
{
    let code = code_at(toks, at);
    let start = start_at(toks, at).0;
    if code == token::IDENTIFIER
        && end_at(toks, at).0 == start + 1
        && source::byte(src, start as usize) == b't'
    {
        crate::TEE
    } else {
        code
    }
}
