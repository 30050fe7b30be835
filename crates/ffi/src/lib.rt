// The reader, its check of UTF-8 and the writer for C and Rust to call. A slice is a pointer and then a length there. Nothing asks such a caller what a contract
// requires, so the exported functions require nothing: they test.
#![tactic(auto)]

ghost use Rattle.std.specs.Prelude.{◌≡◌, ◌++◌, ◌≤◌, length, drop};
ghost use Rattle.reader.specs.Answer.{numbers_of};
ghost use Rattle.ffi.specs.Called.{words, Called, Small};

use reader::Answer;

pub mod check; // check.rt: whether a text is UTF-8, and in how many rounds that was found
pub mod written; // written.rt: the standard text of a source

// The words of an answer: number, place, T, N, text bytes, openings.
pub const ANSWER: usize = 6;

// What is returned where the answer's slice has too few words.
pub const NO_ANSWER: u32 = 4294967295;

// An answer's numbers, 0 for N and the bytes of text in a refusal.
fn numbers(r: Answer) -> [u32; 6]
    requires { Small (numbers_of r) }
    ensures { result ≡ words (numbers_of r) }
{
    match r {
        Ok(tree) => [
            0,
            0,
            tree.tokens as u32,
            tree.nodes as u32,
            tree.text as u32,
            tree.openings as u32,
        ],
        Err(stop) => [
            stop.refusal.reason.number(),
            stop.refusal.place as u32,
            stop.tokens as u32,
            0, // N
            0,
            stop.openings as u32,
        ],
    }
}

// Puts them into the words that are lent, and answers the number.
fn write(r: Answer, answer: &mut [u32]) -> u32
    requires in_bounds { 6 ≤ length answer.old }
    requires small { Small (numbers_of r) }
    ensures value { result ≡ (numbers_of r).number }
    ensures answer_after { answer.new ≡ words (numbers_of r) ++ drop 6 answer.old }
{
    answer[..6].copy_from_slice(&numbers(r));
    answer[0]
}

// Reads a source, as `reader::parse_source` does, and writes its answer as words. Returns the number.
#[unsafe(no_mangle)]
pub extern "C" fn tarbucket_parse_source(
    src: &[u8],
    tokens: &mut [u32],
    text: &mut [u8],
    tree: &mut [u32],
    answer: &mut [u32],
) -> u32
    ensures { Called src.now result tokens.old text.old tree.old answer.old tokens.new text.new tree.new answer.new }
{
    if answer.len() < ANSWER {
        return NO_ANSWER;
    }
    let r = reader::parse_source(src, tokens, text, tree);
    write(r, answer)
}
