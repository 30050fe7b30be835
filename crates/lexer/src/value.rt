// The value of a token.
ghost use Rattle.std.specs.Prelude.{◌≡◌, ◌+◌, ◌-◌, ◌≤◌, ◌<◌, ◌^◌, length};
ghost use Rattle.std.proofs.lemmas.List.Edits.{sets};
ghost use Rattle.source.specs.Bytes.{part};
ghost use Rattle.token.specs.Code.{String};
ghost use Rattle.lexer.specs.Value.{value_of, text_of, literal_in};
ghost use Rattle.lexer.specs.Steps.{taken_of};

use literal::Literal;

// Reads the value of the token with this code from start to end, and writes its text behind the `used` bytes so far: how long the text is then, and nothing
// where the value is refused.
pub fn take_value(
    src: &[u8],
    text: &mut [u8],
    code: u32,
    start: usize,
    end: usize,
    used: usize,
) -> Option<usize>
    requires start_le_end { (start ≤ end) × (end ≤ length src.now) × (used + (end - start) ≤ length text.old) }
    requires start_bound { code ≡ String → start + 2 ≤ end }
    ensures value { result ≡ taken_of (value_of code (part src.now start end) used) (used + length (text_of code (part src.now start end))) }
    ensures text_after { text.new ≡ sets text.old used (text_of code (part src.now start end)) }
{
    match code {
        token::INT => literal::lex_integer(&src[start..end]).and(Some(used)),
        token::FLOAT => literal::lex_float(&src[start..end]).and(Some(used)),
        token::STRING => {
            let from = start + 1;
            let to = end - 1;
            Some(strings::process_string_escapes(&src[from..to], text, used))
        }
        _ => Some(used),
    }
}

// The literal of the token with this code from start to end, where `used` bytes of text stand before it: what the token list has for it.
pub fn literal_of(src: &[u8], code: u32, start: usize, end: usize, used: u32) -> Literal
    requires start_le_end { (start ≤ end) × (end ≤ length src.now) × (length src.now < 2 ^ 32) }
    requires start_bound { code ≡ String → start + 2 ≤ end }
    ensures { result ≡ literal_in (value_of code (part src.now start end) used) }
{
    match code {
        token::BOOL => Literal::Bool(source::byte(&src[start..end], 0) == b'T'),
        token::INT => literal::lex_integer(&src[start..end]).unwrap_or(Literal::None),
        token::FLOAT => literal::lex_float(&src[start..end]).unwrap_or(Literal::None),
        token::STRING => literal::lex_string(&src[start..end], used),
        _ => Literal::None,
    }
}
