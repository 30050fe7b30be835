// No code: this crate stands for its definitions and proofs. specs/ has grammars as data, the ordered trial and the descent of one, and the
// tests of its tables; proofs/ has what holds of every grammar that passes them.
#![tactic(auto)]
