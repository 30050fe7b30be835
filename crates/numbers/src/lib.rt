// The values of number literals: an Int as an i64, a Float as an f64, and the two halves of their 64 bits.
#![tactic(auto)]

pub mod decimal;
mod digits;
pub mod halves;
pub mod integer;
