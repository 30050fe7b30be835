// No code: this crate stands for its definitions and proofs. specs/ has erased trees, what the nodes of a tree come to as such, and the levels of
// expressions; proofs/ shows that the descent of the symbols that a tree is written as comes back to the tree.
#![tactic(auto)]
