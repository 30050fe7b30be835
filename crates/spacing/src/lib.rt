// What stands between tokens (src/lexer/mod.rs): blanks and comments, and the spaces that open a line.
#![tactic(auto)]

mod gap;
mod line;

pub use gap::gap_end;
pub use line::{Indentation, STEP, measure};
