// Bodies that loops make, and their answers: every limit and one past it, and chains of Ifs. The
// answers in the file stdout were written from document 01. The bodies that are lists of rows are in
// crates/cases.
#![tactic(auto)]

mod chains;
mod limits;

use std::io;

fn main(rt: HostRuntime) -> io::Result<()> {
    let mut words = [0u32; 10005];
    limits::counts(&rt, &mut words)?;
    limits::depths(&rt, &mut words)?;
    chains::bodies(&rt, &mut words)
}
