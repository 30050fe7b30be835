// A source's printed form, written into a lent buffer: all of the program but its input and output.
#![tactic(auto)]

ghost use Rattle.std.specs.Prelude.{◌+◌, ◌*◌, ◌≤◌, length, take};
ghost use Rattle.reader.specs.Answer.{numbers_of};
ghost use Rattle.reader.specs.Outcome.{outcome};
ghost use Rattle.source.specs.Reasons.{number_of};
ghost use Rattle.printing.specs.Printed.{printed_no};
ghost use Rattle.printing.specs.Wrote.{Shows};
ghost use Rattle.listing.specs.Listing.{printed, printed_outcome, listing};

use reader::Answer;
use source::{Reason, Refusal};

// "up to 1,023 bytes"
pub const MOST: usize = 1023;

// What the buffer must hold: 1,023 bytes have at most 2,047 nodes, a node's line takes at most 99 bytes, and the header's at most 88.
pub const ROOM: usize = 202741;

fn print_refusal(refusal: Refusal, out: &mut [u8]) -> usize
    requires { 35 ≤ length out.old }
    ensures { Shows (printed_no (number_of refusal.reason) refusal.place) out.old out.new result }
{
    printing::print_no(refusal.reason.number(), refusal.place, out)
}

fn print(answer: Answer, tree: &[u32], out: &mut [u8]) -> usize
    requires { (8 * (numbers_of answer).nodes + 8 ≤ length tree.now) × (99 * (numbers_of answer).nodes + 88 ≤ length out.old) }
    ensures { Shows (printed answer tree.now) out.old out.new result }
{
    match answer {
        Ok(found) => printing::print_tree(tree, found.nodes, out),
        Err(stop) => print_refusal(stop.refusal, out),
    }
}

// A source that is short enough. The slices are as large as the areas of the longest.
fn read(src: &[u8], out: &mut [u8]) -> usize
    requires { (length src.now ≤ 1023) × (202741 ≤ length out.old) }
    ensures { Shows (printed_outcome (outcome src.now 3072 1023 16384)) out.old out.new result }
{
    let mut tokens = [0u32; 3072];
    let mut text = [0u8; 1023];
    let mut tree = [0u32; 16384];
    let answer = reader::parse_source(src, &mut tokens, &mut text, &mut tree);
    print(answer, &tree, out)
}

// Writes what the program prints for the script of n bytes at the front, and answers how many bytes that are. The array has one byte more than is
// taken, so that n can say that the script is longer.
pub fn list(script: &[u8; MOST + 1], n: usize, out: &mut [u8; ROOM]) -> usize
    requires { n ≤ 1024 }
    ensures { Shows (listing (take n script.now)) out.old out.new result }
{
    let bytes: &[u8] = script;
    if MOST < n {
        let refusal = Refusal {
            reason: Reason::TooLong,
            place: 0,
        };
        return print_refusal(refusal, out);
    }
    read(&bytes[..n], out)
}
