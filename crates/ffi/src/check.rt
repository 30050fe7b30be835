// The check of question 5 alone: whether a text of any length is UTF-8, and in how many rounds that was found.
ghost use Rattle.ffi.specs.Checks.{Checks};

use crate::NO_ANSWER;
use source::Reason;

// The words of its answer, of 64 bits each, since the text may have any length: place, rounds.
pub const CHECKED: usize = 2;

// Checks a text, as `utf8::utf8_error` does, and writes place and rounds as words of 64 bits. Returns the number, 0 or 5, or `NO_ANSWER` where the answer
// has fewer than two words.
#[unsafe(no_mangle)]
pub extern "C" fn tarbucket_utf8_error(src: &[u8], answer: &mut [u64]) -> u32
    ensures { Checks src.now result answer.old answer.new }
{
    if answer.len() < CHECKED {
        return NO_ANSWER;
    }
    let checked = utf8::utf8_error(src);
    answer[1] = checked.rounds as u64;
    match checked.found {
        None => {
            answer[0] = 0;
            0
        }
        Some(place) => {
            answer[0] = place as u64;
            Reason::NotUtf8.number()
        }
    }
}
