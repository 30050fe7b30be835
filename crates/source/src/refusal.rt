// Why a script is refused, and where. Each reason is one of 01's numbers, which the reader's answer and C have.
ghost use Rattle.std.specs.Prelude.{◌≡◌};
ghost use Rattle.source.specs.Reasons.{number_of};

// 12 is no reason any more (02, change 1); 17 and 18 are the writer's (02, change 6).
#[derive(Clone, Copy, Debug, PartialEq, Eq)]
pub enum Reason {
    TooLong = 1,
    TokensTooSmall = 2,
    TextTooSmall = 3,
    TreeTooSmall = 4,
    NotUtf8 = 5,
    Tab = 6,
    TooFar = 7,
    NoLevel = 8,
    NoToken = 9,
    IntRange = 10,
    FloatRange = 11,
    TooDeep = 13,
    Misfit = 14,
    Cut = 15,
    Missing = 16,
    EmptyBlock = 17,
    NoRoom = 18,
}

impl Reason {
    // 01's number of the reason.
    pub fn number(self) -> u32
        ensures { result ≡ number_of self }
    {
        self as u32
    }
}

// A reason, and the byte at which the script is refused.
#[derive(Clone, Copy, Debug, PartialEq, Eq)]
pub struct Refusal {
    pub reason: Reason,
    pub place: usize,
}
