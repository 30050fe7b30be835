// No code: this crate stands for laws that hold the scanner's definitions beside document 01's own words: patterns as sets of words, strings by characters,
// levels as the columns of open Indents.
#![tactic(auto)]
