// What the programs that replay stored cases share: the lines of files, bytes in hexadecimal, sources in pieces, slices that are lent, their sums, and the output.
#![tactic(auto)]

pub mod hex;
pub mod lent;
pub mod lines;
pub mod output;
pub mod replay;
pub mod sources;
pub mod sums;

// The file descriptor of standard output.
pub const STDOUT_FILENO: i32 = 1;
