// goscript's label.rs and returns.rs as definitions (specs/), and what is proved of them
// (proofs/). A crate needs one function.
#![tactic(auto)]

fn nothing() {}
