// What the test programs share: rows, pairs and names that loops make, printing, and the numbers of
// a line.
#![tactic(auto)]

pub mod fill;
pub mod show;
pub mod words;
