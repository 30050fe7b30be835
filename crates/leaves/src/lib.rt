// What every leaf of the tree reader stands on (src/parser/mod.rs): its state and answers, a node put behind the others, a link, a wider span.
// Their contracts speak of the machine of the grammar's actions: specs/Contract.antt.
#![tactic(auto)]

ghost use Rattle.std.specs.Prelude.{◌≡◌, ◌+◌, ◌<◌, ◌^◌};
ghost use Rattle.leaves.specs.Contract.{past, why, stopped};

mod list;
mod write;

pub use list::{link, widen};
use source::Reason;
use token::{NodeNumber, TokenNumber};
pub use write::{add, put_begun, put_opened};

// How far the reader is: the token that it looks at, the nodes written, the rules opened, and the bytes of text of the tokens before that one.
#[derive(Clone, Copy)]
pub struct State {
    pub at: TokenNumber,
    pub nodes: u32,
    pub opened: u32,
    pub used: u32,
}

// One token further.
pub fn past(s: State) -> State
    requires { s.at.0 + 1 < 2 ^ 32 }
    ensures { result ≡ past s }
{
    State {
        at: TokenNumber(s.at.0 + 1),
        ..s
    }
}

// A node that was read or written, or the first of a list, which may be none; and the state after it.
#[derive(Clone, Copy)]
pub struct Added(pub NodeNumber, pub State);

// A refusal at the state's token: too deep, or by what was asked for there, an expression or operand (`Missing`, which is its number at a Newline or Dedent) or
// anything else (`Misfit`). The case takes the word that an answer's node takes. A `Reason` there would be one byte, so that the word would be stored in
// pieces, for which whoever loads it waits (docs/PERFORMANCE.md).
#[derive(Clone, Copy)]
pub enum Refused {
    TooDeep(State),
    Misfit(State),
    Missing(State),
}

impl Refused {
    // Why it is refused.
    pub fn reason(self) -> Reason
        ensures { result ≡ why self }
    {
        match self {
            Refused::TooDeep(_) => Reason::TooDeep,
            Refused::Misfit(_) => Reason::Misfit,
            Refused::Missing(_) => Reason::Missing,
        }
    }

    // The state at its token.
    pub fn state(self) -> State
        ensures { result ≡ stopped self }
    {
        match self {
            Refused::TooDeep(s) | Refused::Misfit(s) | Refused::Missing(s) => s,
        }
    }
}

// The answer of a rule or a part. The state is handed on in both.
pub type Parsed = Result<Added, Refused>;
