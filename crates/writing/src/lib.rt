// Bytes put into a lent slice from the back: what a writer of texts stands on. It knows nothing of trees.
//
// `Back` is that slice, and `Wrote` (specs/Wrote.antt) the contract of each of its functions. Whoever writes a text makes one, writes the end of the text first,
// and ends with `to_front`. `Back::at` begins before another place, also one behind the longest text, and `place` says where it stands.
#![tactic(auto)]

mod back;
mod fixed;
mod front;
mod int;
mod string;

pub use back::Back;
pub use front::room;
