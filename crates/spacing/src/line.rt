// The spaces that open a line.
ghost use Rattle.std.specs.Prelude.{◌≡◌, ◌-◌, ◌≤◌, ◌<◌, ◌^◌, length};
ghost use Rattle.spacing.specs.Indentation.{spaces_end_lem, level_of, indentation_at};

use source::{Reason, Refusal};

// How many spaces one level is more than the one below it.
pub const STEP: usize = 2;

#[derive(Clone, Copy, Debug, PartialEq, Eq)]
pub enum Indentation {
    // The line has no token of its own: the place behind its spaces.
    Blank(usize),
    // The place behind the spaces, the code and number of the marks, and the new top.
    Level {
        end: usize,
        code: u32,
        marks: usize,
        top: usize,
    },
}

// Where the spaces from `at` on end.
fn spaces_end(s: &[u8], at: usize) -> usize
    requires { at ≤ length s.now }
    ensures { (result ≡ spaces_end_lem s.now at) × (at ≤ result) × (result ≤ length s.now) }
{
    let rest = &s[at..];
    at + rest.iter().position(|b| *b != b' ').unwrap_or(rest.len())
}

// What the spaces from `at` to `end` say, against the top.
#[tactic(auto, unfolding(crate::specs::Indentation::level_of))]
fn level(at: usize, end: usize, top: usize) -> Result<Indentation, Refusal>
    requires { (at ≤ end) × (top < 2 ^ 32) }
    ensures { result ≡ level_of at end top }
{
    let spaces = end - at;
    if spaces == top {
        return Ok(Indentation::Level {
            end,
            code: token::DEDENT,
            marks: 0,
            top,
        });
    }
    if spaces == top + STEP {
        return Ok(Indentation::Level {
            end,
            code: token::INDENT,
            marks: 1,
            top: spaces,
        });
    }
    if top < spaces {
        return Err(Refusal {
            reason: Reason::TooFar,
            place: at,
        });
    }
    if spaces % STEP != 0 {
        return Err(Refusal {
            reason: Reason::NoLevel,
            place: at,
        });
    }
    Ok(Indentation::Level {
        end,
        code: token::DEDENT,
        marks: (top - spaces) / STEP,
        top: spaces,
    })
}

// What a line's spaces say, by the byte behind them.
#[tactic(auto, unfolding(crate::specs::Indentation::indentation_at))]
pub fn measure(s: &[u8], at: usize, top: usize) -> Result<Indentation, Refusal>
    requires { (at ≤ length s.now) × (top < 2 ^ 32) }
    ensures { result ≡ indentation_at s.now at top }
{
    let end = spaces_end(s, at);
    match source::byte(s, end) {
        b'\t' => Err(Refusal {
            reason: Reason::Tab,
            place: end,
        }),
        b'\n' | b'\r' | b'#' => Ok(Indentation::Blank(end)),
        _ => level(at, end, top),
    }
}
