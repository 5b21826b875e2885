// Goes through the list on standard input (README.md) and copies it to standard output, but for the
// answer lines: in the place of each it prints the answer that it works out. So the file stdout is
// the list too, and a line that differs is that of a body which is answered otherwise.
#![tactic(auto)]

use case_lines::lines::Lines;
use std::io;

// Goes through the lines of a list.
fn all_lines(rt: &impl Print, list: &[u8]) -> io::Result<()> {
    let mut lines = Lines::new();
    for line in list.split_inclusive(|byte| *byte == b'\n') {
        lines.take_line(rt, line.strip_suffix(b"\n").unwrap_or(line))?;
    }
    Ok(())
}

fn main(rt: HostRuntime) -> io::Result<()> {
    let mut list = [0u8; 100000];
    let count = input::read_full(&mut rt.stdin(), &mut list)?;
    if count == list.len() {
        println!(rt; "the list is too long")?;
    }
    all_lines(&rt, &list[..count])
}
