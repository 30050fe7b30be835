// No code: this crate stands for the record of a token in specs/, which the scanner's promise and the grammar's definitions share.
#![tactic(auto)]
