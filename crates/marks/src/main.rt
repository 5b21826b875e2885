// `marks`: reads the file of a body from standard input and prints its marks, or its refusal.
#![tactic(auto)]

use std::io;

fn main(rt: HostRuntime) -> io::Result<()> {
    filter::marks(&mut rt.stdin(), &mut rt.stdout())
}
