// The definitions stand in specs/, what is proved of them in proofs/. A crate needs one function.
#![tactic(auto)]

fn nothing() {}
