// No code: this crate stands for the law that a text made of lines and pieces is scanned to exactly its tokens. specs/ says how fixed texts and literals are
// spelled; proofs/ has what a lexeme is, and what may stand behind it.
#![tactic(auto)]
