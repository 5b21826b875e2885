// Replays a list of answers that were made with goscript's own files (oracle/compare, `sample`).
// Standard input is the list: for each body the length of its file, the file, the length of the
// output that is due, and that output; the length 4,294,967,295 ends it. Printed: the number of each
// body that `report` answers otherwise, then how many bodies there were and how many of them differ.
#![tactic(auto)]

ghost use Rattle.std.specs.Io.{ReadsAtMost};

use report::{LONGEST, ROOM};
use std::io;
use std::io::Read;

// The length that comes next; none where the list ends.
fn next_length(list: &mut impl Read) -> io::Result<Option<u32>> {
    let mut word = [0u8; 4];
    if input::read_full(list, &mut word)? < word.len() {
        return Ok(None);
    }
    let length = bodyfile::word(&word, 0);
    Ok((length != u32::MAX).then_some(length))
}

// Reads `count` bytes and keeps none.
fn pass_over(list: &mut impl Read, count: usize) -> io::Result<()> {
    let mut byte = [0u8];
    for _ in 0..count {
        if input::read_full(list, &mut byte)? == 0 {
            break;
        }
    }
    Ok(())
}

// Reads `count` bytes, keeps as many as `part` has room for, and answers how many it kept.
fn next_part(list: &mut impl Read, count: usize, part: &mut [u8]) -> io::Result<usize>
    ensures { ReadsAtMost result part.new }
{
    let n = count.min(part.len());
    let kept = input::read_full(list, &mut part[..n])?;
    pass_over(list, count - n)?;
    Ok(kept)
}

// Whether the output for the next body, whose file has this length, is the one that is due.
fn as_due(list: &mut impl Read, length: u32) -> io::Result<bool> {
    let mut file = [0u8; LONGEST];
    let mut due = [0u8; ROOM];
    let mut out = [0u8; ROOM];
    let kept = next_part(list, length as usize, &mut file)?;
    // in this place 4,294,967,295 is a length as any other
    let due_length = next_length(list)?.unwrap_or(u32::MAX);
    let due_end = next_part(list, due_length as usize, &mut due)?;
    let out_end = report::report(&file[..kept], u64::from(length), &mut out);
    Ok(out[..out_end] == due[..due_end])
}

fn main(rt: HostRuntime) -> io::Result<()> {
    let mut list = rt.stdin();
    let mut bodies = 0u64;
    let mut differ = 0u64;
    // Of a longer list the first million bodies.
    for body in 0..1000000u64 {
        let Some(length) = next_length(&mut list)? else {
            break;
        };
        if !as_due(&mut list, length)? {
            println!(rt; "differs: body {body}")?;
            differ += 1;
        }
        bodies += 1;
    }
    println!(rt; "bodies {bodies}")?;
    println!(rt; "differ {differ}")
}
