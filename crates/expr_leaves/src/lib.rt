// The leaves of the expressions' rules (src/parser/mod.rs): the function of each action that writes an expression's node. Their contracts are those of
// specs/Contract.antt of `leaves`. Actions whose nodes differ in the kind alone have a function each, since the contract names the action.
#![tactic(auto)]

mod chain;
mod literal_node;
mod signs;
mod write;

pub use chain::{put_and, put_binary};
pub use literal_node::put_literal;
pub use signs::wrap;
pub use write::{
    put_apply, put_attribute, put_empty, put_enclosed, put_index, put_lambda, put_named, put_pair,
    put_tuple,
};
