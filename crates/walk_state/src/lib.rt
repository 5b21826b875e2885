// The state of the label walk when it stands at a row, in specs/, and what is proved of it. A crate
// needs one function.
#![tactic(auto)]

fn nothing() {}
