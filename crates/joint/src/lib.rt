// No code: this crate stands for the laws by which the tree reader's functions are shown to do what the descent of the grammar does.
#![tactic(auto)]
