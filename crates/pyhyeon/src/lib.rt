// No code: this crate stands for its definitions and proofs. specs/ has the thirteen rules of document 01 as data, the nodes that their
// actions make, what the ordered trial and the descent of a script come to, where 14, 15 and 16 stand and how Floats are spelled; proofs/ has the theorem, the
// limits, these two and the starred scripts.
#![tactic(auto)]
