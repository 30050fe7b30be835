// The writer: from a source its standard text.
ghost use Rattle.std.specs.Prelude.{◌≡◌, ◌++◌, ◌≤◌, length, drop};
ghost use Rattle.source.specs.Reasons.{number_of};
ghost use Rattle.reader.specs.Answer as reading;
ghost use Rattle.writer.specs.Answer.{instead, numbers_of, read_of};
ghost use Rattle.ffi.specs.Called.{words, Small};
ghost use Rattle.ffi.specs.Wrote.{seven, Wrote};

use crate::NO_ANSWER;
use source::Reason;
use writer::Answer;

// The words of its answer: those of the reader's, and the length of the text.
pub const WRITTEN: usize = 7;

// The counts of an accepted source, with the writer's number and place 0.
fn refuse(reason: Reason, read: reader::Answer, answer: &mut [u32]) -> u32
    requires in_bounds { 6 ≤ length answer.old }
    requires small { Small (reading.numbers_of read) }
    ensures value { result ≡ number_of reason }
    ensures answer_after { answer.new ≡ words (instead (number_of reason) (reading.numbers_of read)) ++ drop 6 answer.old }
{
    crate::write(read, answer);
    let number = reason.number();
    answer[0] = number;
    answer[1] = 0;
    number
}

// The writer's seven numbers: the length first, which stands behind the others.
fn tell(r: Answer, answer: &mut [u32]) -> u32
    requires in_bounds { 7 ≤ length answer.old }
    requires small { Small (reading.numbers_of (read_of r)) }
    requires r_bound { (numbers_of r).length ≤ 65536 }
    ensures value { result ≡ (numbers_of r).six.number }
    ensures answer_after { answer.new ≡ seven (numbers_of r) ++ drop 7 answer.old }
{
    match r {
        Answer::Text(read, length) => {
            answer[6] = length as u32;
            crate::write(read, answer)
        }
        Answer::Hollow(read) => {
            answer[6] = 0;
            refuse(Reason::EmptyBlock, read, answer)
        }
        Answer::Full(read) => {
            answer[6] = 0;
            refuse(Reason::NoRoom, read, answer)
        }
        Answer::Unread(read) => {
            answer[6] = 0;
            crate::write(read, answer)
        }
    }
}

// Writes a source's standard text, as `writer::write_source` does, and its answer as words. Returns the number, or `NO_ANSWER` where the answer has fewer
// than seven words.
#[unsafe(no_mangle)]
pub extern "C" fn tarbucket_write_source(
    src: &[u8],
    tokens: &mut [u32],
    text: &mut [u8],
    tree: &mut [u32],
    out: &mut [u8],
    answer: &mut [u32],
) -> u32
    ensures { Wrote src.now result tokens.old text.old tree.old out.old answer.old tokens.new text.new tree.new out.new answer.new }
{
    if answer.len() < WRITTEN {
        return NO_ANSWER;
    }
    let r = writer::write_source(src, tokens, text, tree, out);
    tell(r, answer)
}
