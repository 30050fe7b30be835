// No code: this crate stands for its definitions and proofs. specs/ has the trees that the nodes of a script are the layout of, and what stands where in them;
// proofs/ has that the nodes of every accepted script are the layout of such a tree.
#![tactic(auto)]
