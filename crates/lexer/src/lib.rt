// The scanner (src/lexer/mod.rs): indentation, skipping, and the token list, written three words a token with the decoded text beside it.
//
// Rust's `token_queue` is a number of marks that are written at once, and its `indent_stack` is its top, since the stack reads 0, 2, 4.
#![tactic(auto)]

mod put;
mod value;

ghost use Rattle.std.specs.Prelude.{◌≡◌, List, ℕ, ◌+◌, ◌≤◌, ◌<◌, length};
ghost use Rattle.areas.specs.Area.{token_area};
ghost use Rattle.token.specs.Code.{String};
ghost use Rattle.lexer.specs.Scan.{closed, found_then, indent_then, token_then, token_list};
ghost use Rattle.lexer.specs.Words.{Room, Scans};
ghost use Rattle.lexer.specs.Steps.{Exact, Paid, Marks, Turns, Runs, Fills};
ghost use Rattle.lexer.specs.declared.Turn.TheVariants as T;

use raw_token::RawToken;
use source::{Reason, Refusal};
use spacing::Indentation;
pub use value::literal_of;

// The scanner's state: the place reached, 01's flag, which is one there too, the deepest open level, the tokens so far, and the bytes of text so far.
#[derive(Clone, Copy, Debug, PartialEq, Eq)]
pub struct Lexer {
    pub at: usize,
    pub flag: bool,
    pub top: usize,
    pub count: usize,
    pub used: usize,
}

// What was scanned: T, and the bytes of text.
#[derive(Clone, Copy, Debug, PartialEq, Eq)]
pub struct Scanned {
    pub count: usize,
    pub text: usize,
}

// A token is written, or the last one was.
#[derive(Clone, Copy)]
enum Turn {
    On(Lexer),
    End(Scanned),
}

// With the flag set, counts the spaces of a line and writes their marks.
fn handle_indentation(src: &[u8], tokens: &mut [u32], x: Lexer) -> Result<Lexer, Refusal>
    requires { (length src.now ≤ 65536) × (length tokens.old ≡ token_area (length src.now)) × Paid (length src.now) x }
    ensures { Marks src.now x result tokens.old tokens.new }
{
    if !x.flag {
        return Ok(x);
    }
    match spacing::measure(src, x.at, x.top)? {
        Indentation::Blank(end) => Ok(Lexer { at: end, ..x }),
        Indentation::Level {
            end,
            code,
            marks,
            top,
        } => {
            put::put_marks(tokens, x.count, marks, code, x.at, end);
            Ok(Lexer {
                at: end,
                flag: false,
                top,
                count: x.count + marks,
                ..x
            })
        }
    }
}

// The closing Dedents, and Eof.
fn close(tokens: &mut [u32], n: usize, x: Lexer) -> Scanned
    requires { (n ≤ 65536) × (length tokens.old ≡ token_area n) × Paid n x }
    ensures { (text : List ℕ) → Turns n (λ rest. closed n x) x (Ok (T.End result)) tokens.old text tokens.new text }
{
    let closing = x.top / spacing::STEP;
    let count = x.count + closing;
    put::put_marks(tokens, x.count, closing, token::DEDENT, n, n);
    put::put_token(tokens, count, token::EOF, n, n);
    Scanned {
        count,
        text: x.used,
    }
}

// The token that starts at `start`: its value, its text and its words.
fn found(
    src: &[u8],
    tokens: &mut [u32],
    text: &mut [u8],
    x: Lexer,
    start: usize,
    token: RawToken,
) -> Result<Turn, Refusal>
    requires exact { Exact src.now tokens.old text.old × Paid (length src.now) x }
    requires at_le_start { (x.at ≤ start) × (start < token.end) × (token.end ≤ length src.now) × (token.code ≡ String → start + 2 ≤ token.end) }
    ensures { Turns (length src.now) (λ rest. found_then src.now rest x start (Some token)) x result tokens.old text.old tokens.new text.new }
{
    let RawToken { code, end } = token;
    let Some(used) = value::take_value(src, text, code, start, end, x.used) else {
        let reason = if code == token::INT {
            Reason::IntRange
        } else {
            Reason::FloatRange
        };
        return Err(Refusal {
            reason,
            place: start,
        });
    };
    put::put_token(tokens, x.count, code, start, end);
    Ok(Turn::On(Lexer {
        at: end,
        flag: (code == token::NEWLINE) | x.flag,
        count: x.count + 1,
        used,
        ..x
    }))
}

// The next token, behind what is skipped.
fn next_token(src: &[u8], tokens: &mut [u32], text: &mut [u8], x: Lexer) -> Result<Turn, Refusal>
    requires { Exact src.now tokens.old text.old × Paid (length src.now) x }
    ensures { Turns (length src.now) (λ rest. token_then src.now rest x) x result tokens.old text.old tokens.new text.new }
{
    let start = spacing::gap_end(src, x.at);
    if src.len() <= start {
        return Ok(Turn::End(close(tokens, src.len(), x)));
    }
    let token = raw_token::token_at(src, start).ok_or(Refusal {
        reason: Reason::NoToken,
        place: start,
    })?;
    found(src, tokens, text, x, start, token)
}

// The spaces that count, and then a token.
fn next_token_with_span(
    src: &[u8],
    tokens: &mut [u32],
    text: &mut [u8],
    x: Lexer,
) -> Result<Turn, Refusal>
    requires { Exact src.now tokens.old text.old × Paid (length src.now) x }
    ensures { Turns (length src.now) (λ rest. indent_then src.now (token_then src.now rest) x) x result tokens.old text.old tokens.new text.new }
{
    let y = handle_indentation(src, tokens, x)?;
    next_token(src, tokens, text, y)
}

// All tokens, in slices that are the areas; what lies behind them there is left as it is.
fn run(src: &[u8], tokens: &mut [u32], text: &mut [u8]) -> Result<Scanned, Refusal>
    requires { Exact src.now tokens.old text.old }
    ensures { Runs src.now result tokens.new text.new }
{
    let mut x = Lexer {
        at: 0,
        flag: true,
        top: 0,
        count: 0,
        used: 0,
    };
    loop {
        match next_token_with_span(src, tokens, text, x)? {
            Turn::On(y) => x = y,
            Turn::End(scanned) => return Ok(scanned),
        }
    }
}

// All tokens, and zeros behind them; a refusal leaves zeros alone.
fn fill(src: &[u8], tokens: &mut [u32], text: &mut [u8]) -> Result<Scanned, Refusal>
    requires { Exact src.now tokens.old text.old }
    ensures { Fills (token_list src.now) (length src.now) result tokens.new text.new }
{
    let n = src.len();
    let words = 3 * (n + 1);
    let scanned = run(src, tokens, text);
    let (filled, used) = match scanned {
        Ok(Scanned { count, text }) => (3 * (count + 1), text),
        Err(_) => (0, 0),
    };
    areas::put_zeros(tokens, filled, words);
    areas::put_zeros(text, used, n);
    scanned
}

// The tokens and the text of a source, or the first refusal of 6 to 11. `Scans` says what the answer is and what every word of both slices is
// afterwards.
pub fn scan(src: &[u8], tokens: &mut [u32], text: &mut [u8]) -> Result<Scanned, Refusal>
    requires { Room src.now tokens.old text.old }
    ensures { Scans src.now result tokens.old text.old tokens.new text.new }
{
    let n = src.len();
    let words = 3 * (n + 1);
    fill(src, &mut tokens[..words], &mut text[..n])
}
