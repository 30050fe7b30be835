// What a leaf answers for one case, printed.
ghost use Rattle.std.specs.Prelude.{◌≤◌, length};

use cases::hex::Hex;
use numbers::halves::Halves;
use raw_token::RawToken;
use std::fmt::InlineText;
use std::io;
use utf8::character::Character;

// Where a decoded string begins in the text, so that its place plays a part.
const TEXT_AT: usize = 1;

fn print_halves(rt: &impl Print, h: Halves) -> io::Result<()> {
    let Halves { high, low } = h;
    // the digits of a half in one write: a padded hole would be two
    let high = InlineText::<8>::of(format_args!("{high:08x}"));
    let low = InlineText::<8>::of(format_args!("{low:08x}"));
    print!(rt; "{}{}", high.as_str(), low.as_str())
}

pub fn print_int(rt: &impl Print, s: &[u8]) -> io::Result<()> {
    match numbers::integer::int_value(s) {
        Some(n) => print_halves(rt, Halves::from(n)),
        None => print!(rt; "-"),
    }
}

pub fn print_float(rt: &impl Print, s: &[u8]) -> io::Result<()> {
    match numbers::decimal::float_value(s) {
        Some(x) => print_halves(rt, Halves::of_f64(x)),
        None => print!(rt; "-"),
    }
}

fn print_token(rt: &impl Print, s: &[u8], at: usize) -> io::Result<()> {
    match raw_token::token_at(s, at) {
        Some(RawToken { code, end }) => print!(rt; "{code}:{end}"),
        None => print!(rt; "-"),
    }
}

pub fn print_tokens(rt: &impl Print, s: &[u8]) -> io::Result<()> {
    print_token(rt, s, 0)?;
    for at in 1..=s.len() {
        print!(rt; " ")?;
        print_token(rt, s, at)?;
    }
    Ok(())
}

// A case has at most 4,096 bytes, so the text has room for it behind TEXT_AT.
pub fn print_string(rt: &impl Print, s: &[u8]) -> io::Result<()>
    requires { length s.now ≤ 4096 }
{
    let mut text = [0; 65536];
    let end = strings::process_string_escapes(s, &mut text, TEXT_AT);
    let decoded = &text[TEXT_AT..end];
    print!(rt; "{} {}", Hex(decoded), strings::decoded_len(s))
}

pub fn print_utf8(rt: &impl Print, s: &[u8]) -> io::Result<()> {
    let checked = utf8::utf8_error(s);
    match checked.found {
        None => print!(rt; "well-formed")?,
        Some(at) => print!(rt; "{at}")?,
    }
    print!(rt; " {}", checked.rounds)
}

fn print_character(rt: &impl Print, c: Character) -> io::Result<()> {
    let code = c.code;
    let s = if xid::is_start(code) { "s" } else { "" };
    let c = if xid::is_continue(code) { "c" } else { "" };
    print!(rt; "{code}{s}{c};")
}

pub fn print_characters(rt: &impl Print, s: &[u8]) -> io::Result<()> {
    // a step is one to four bytes, by what was decoded
    let mut at = 0;
    while at < s.len() {
        let Some(c) = utf8::character::decode(s, at) else {
            return print!(rt; "none");
        };
        print_character(rt, c)?;
        at += c.len;
    }
    Ok(())
}
