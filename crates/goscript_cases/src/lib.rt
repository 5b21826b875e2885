// Answers of goscript's own files, and that the definitions of crate `goscript` give them. A crate
// needs one function.
#![tactic(auto)]

fn nothing() {}
