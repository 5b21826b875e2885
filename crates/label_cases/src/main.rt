// The label call with buffers of every length, and on large bodies that loops make. The answers in the
// file stdout were written from document 01. The bodies that are lists of rows are in crates/cases.
#![tactic(auto)]

mod buffers;
mod large;

use std::io;

fn main(rt: HostRuntime) -> io::Result<()> {
    let mut words = [0u32; 10000];
    buffers::bodies(&rt)?;
    large::bodies(&rt, &mut words)
}
