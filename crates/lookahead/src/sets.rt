// The tests of a token's symbol: the sets that the rules' tables have (specs/Tables.antt of pyhyeon).
ghost use Rattle.std.specs.Prelude.{◌≡◌, [], ◌∷◌};
ghost use Rattle.grammar.specs.Sets.{mem};
ghost use Rattle.token.specs.Code.{Newline, LParen, LBracket, Dot};
ghost use Rattle.pyhyeon.specs.Rules.{names, comparisons, sums, products, sign_set};
ghost use Rattle.pyhyeon.specs.Tables.{first_f, first_u, first_e, first_simple, first_line};

// Whether the symbol is this one.
pub fn is_symbol(symbol: u32, c: u32) -> bool
    ensures { result ≡ mem symbol (c ∷ []) }
{
    symbol == c
}

// A Newline.
pub fn is_newline(symbol: u32) -> bool
    ensures { result ≡ mem symbol (Newline ∷ []) }
{
    symbol == token::NEWLINE
}

// What begins F: a literal, a name, an opening bracket.
pub fn begins_f(symbol: u32) -> bool
    ensures { result ≡ mem symbol first_f }
{
    matches!(
        symbol,
        token::NONE
            | token::BOOL
            | token::INT
            | token::STRING
            | token::IDENTIFIER
            | token::FLOAT
            | token::LPAREN
            | token::LBRACKET
            | token::LBRACE
            | crate::TEE
    )
}

// What begins U, and O to P: a sign, or what begins F.
pub fn begins_u(symbol: u32) -> bool
    ensures { result ≡ mem symbol first_u }
{
    matches!(symbol, token::NOT | token::PLUS | token::MINUS) || begins_f(symbol)
}

// What begins E: lambda, or what begins U.
pub fn begins_e(symbol: u32) -> bool
    ensures { result ≡ mem symbol first_e }
{
    symbol == token::LAMBDA || begins_u(symbol)
}

// What begins Simple: a keyword of a statement on one line, or what begins E.
pub fn begins_simple(symbol: u32) -> bool
    ensures { result ≡ mem symbol first_simple }
{
    matches!(
        symbol,
        token::RETURN | token::BREAK | token::CONTINUE | token::PASS
    ) || begins_e(symbol)
}

// What begins Line: class, def, if, while or for, or what begins Simple.
pub fn begins_line(symbol: u32) -> bool
    ensures { result ≡ mem symbol first_line }
{
    matches!(
        symbol,
        token::CLASS | token::DEF | token::IF | token::WHILE | token::FOR
    ) || begins_simple(symbol)
}

// A name, which may be `t`.
pub fn is_name(symbol: u32) -> bool
    ensures { result ≡ mem symbol names }
{
    matches!(symbol, crate::TEE | token::IDENTIFIER)
}

// A sign of U.
pub fn is_sign(symbol: u32) -> bool
    ensures { result ≡ mem symbol sign_set }
{
    matches!(symbol, token::NOT | token::MINUS | token::PLUS)
}

// An operator of S.
pub fn is_add(symbol: u32) -> bool
    ensures { result ≡ mem symbol sums }
{
    matches!(symbol, token::PLUS | token::MINUS)
}

// An operator of P.
pub fn is_multiply(symbol: u32) -> bool
    ensures { result ≡ mem symbol products }
{
    matches!(
        symbol,
        token::STAR | token::SLASH_SLASH | token::SLASH | token::PERCENT
    )
}

// An operator of C.
pub fn is_comparison(symbol: u32) -> bool
    ensures { result ≡ mem symbol comparisons }
{
    matches!(
        symbol,
        token::LESS
            | token::LESS_EQUAL
            | token::GREATER
            | token::GREATER_EQUAL
            | token::EQUAL_EQUAL
            | token::NOT_EQUAL
    )
}

// What begins a postfix part: a dot, a call, an index.
pub fn begins_postfix(symbol: u32) -> bool
    ensures { result ≡ mem symbol (Dot ∷ LParen ∷ LBracket ∷ []) }
{
    matches!(symbol, token::DOT | token::LPAREN | token::LBRACKET)
}
