// What the tree reader asks of the tokens (src/parser/mod.rs): a token's words and symbol, whether the symbol is in a set that a rule asks for, and where a
// run of tokens ends. Nothing here knows of nodes.
#![tactic(auto)]

mod read;
mod sets;
mod skip;

pub use read::{code_at, end_at, start_at, symbol_at};
pub use sets::{
    begins_e, begins_line, begins_postfix, begins_simple, begins_u, is_add, is_comparison,
    is_multiply, is_name, is_symbol,
};
pub use skip::{behind_signs, skip_newlines, skip_signs};

// The code that stands for the name `t` (specs/Symbol.antt of pyhyeon).
pub const TEE: u32 = 50;
