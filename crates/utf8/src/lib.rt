// Whether a slice of bytes is well-formed UTF-8 by table 3-7 of the Unicode Standard, or where its first ill-formed sequence begins; and the character at a
// place. The look goes in rounds: eight bytes below 128, or one sequence.
#![tactic(auto)]

ghost use Rattle.std.specs.Prelude.{◌≡◌};
ghost use Rattle.utf8.specs.Table.{utf8_error_lem, rounds};

pub mod character; // character.rt: the character at a place, decoded
mod eight; // eight.rt: whether eight bytes below 128 stand at a place
mod sequence; // sequence.rt: the well-formed sequence at a place

// The first byte of the first ill-formed sequence, if there is one, and in how many rounds that was found.
#[derive(Clone, Copy)]
pub struct Checked {
    pub found: Option<usize>,
    pub rounds: usize,
}

// Where the first ill-formed sequence begins, if there is one. A round takes "the next eight bytes if all are under 128, else one sequence, good or bad"
// (02, change 2). Where no eight stand, none do at the bytes below 128 up to the next other byte, so these are a round each. The place is moved by hand, since
// a round takes eight bytes, one, or a sequence.
pub fn utf8_error(s: &[u8]) -> Checked
    ensures found_value { result.found ≡ utf8_error_lem s.now }
    ensures rounds_value { result.rounds ≡ rounds s.now }
{
    let mut i = 0;
    let mut rounds = 0;
    while i < s.len() {
        while eight::eight(s, i) {
            i += 8;
            rounds += 1;
        }
        while (i < s.len()) && (s[i] < 0x80) {
            i += 1;
            rounds += 1;
        }
        if i < s.len() {
            rounds += 1;
            let Some(n) = sequence::sequence(s, i) else {
                return Checked {
                    found: Some(i),
                    rounds,
                };
            };
            i += n;
        }
    }
    Checked {
        found: None,
        rounds,
    }
}
