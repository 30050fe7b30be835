// The leaves of the statements' rules (src/parser/mod.rs): the function of each action that writes a statement's node. Their contracts are those of
// specs/Contract.antt of `leaves`. Actions whose nodes differ in the kind alone have a function each, since the contract names the action.
#![tactic(auto)]

mod blocks;
mod one_line;

pub use blocks::{put_class, put_def, put_elif, put_else, put_for, put_if, put_program, put_while};
pub use one_line::{put_alone, put_assign, put_expr, put_return};
