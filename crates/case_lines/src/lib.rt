// The lines of a list of bodies (crates/cases/README.md): what a line is, the body that the lines so
// far make, and the answer in the place of an answer line.
#![tactic(auto)]

mod answers;
mod kinds;
pub mod lines;
pub mod scan;
pub mod walks;
