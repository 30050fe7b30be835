// The value of a literal, made from its token. Port of `lex_integer`, `lex_float` and `lex_string` in raw_token.rs.
#![tactic(auto)]

ghost use Rattle.std.specs.Prelude.{◌≡◌, ◌^◌, ◌≤◌, ◌<◌, length};
ghost use Rattle.literal.specs.Literal.{lex_integer_lem, lex_float_lem, lex_string_lem};

#[derive(Clone, Copy)]
pub enum Literal {
    Bool(bool),
    Int(i64),
    // the offset and the length of its decoded bytes in the text
    String(u32, u32),
    Float(f64),
    None,
}

// None where it is out of range.
pub fn lex_integer(s: &[u8]) -> Option<Literal>
    ensures { result ≡ lex_integer_lem s.now }
{
    numbers::integer::int_value(s).map(Literal::Int)
}

// None where it is not admitted.
pub fn lex_float(s: &[u8]) -> Option<Literal>
    ensures { result ≡ lex_float_lem s.now }
{
    numbers::decimal::float_value(s).map(Literal::Float)
}

// The String token s, with its quotes: the decoded bytes of what stands between them have their place in the text at `at`.
pub fn lex_string(s: &[u8], at: u32) -> Literal
    requires { (2 ≤ length s.now) × (length s.now < 2 ^ 32) }
    ensures { result ≡ lex_string_lem s.now at }
{
    let last = s.len() - 1;
    Literal::String(at, strings::decoded_len(&s[1..last]) as u32)
}
