// Names: the bytes of each number, which names are the same, and the numbers sorted, with 500 names
// that share a long prefix. The answers in the file stdout were written by hand from document 01 and
// its order of the bytes.
#![tactic(auto)]

use names::{NameNumber, Names};
use std::io;

// The bytes of a name between two bars.
fn show_name(rt: &impl Print, pairs: &[u32], bytes: &[u8], n: usize) -> io::Result<()> {
    print!(rt; "|")?;
    rt.write_all(names::name_bytes(pairs, bytes, NameNumber(n)))?;
    println!(rt; "|")
}

// The four names ab, a, ab and z by number, with 0, 5 and the largest number.
fn lookups(rt: &impl Print) -> io::Result<()> {
    println!(rt; "bytes")?;
    for n in [0, 1, 2, 3, 4, 5, usize::MAX] {
        show_name(rt, &[0, 2, 2, 1, 3, 2, 5, 1], b"abaabz", n)?;
    }
    Ok(())
}

// Pairs that are refused have no names: odd words; a pair before the previous end; one past the
// bytes.
fn refused(rt: &impl Print) -> io::Result<()> {
    println!(rt; "refused")?;
    show_name(rt, &[0, 1, 1], b"ab", 1)?;
    show_name(rt, &[0, 2, 1, 1], b"ab", 1)?;
    show_name(rt, &[0, 1, 1, 2], b"ab", 1)
}

// ab and ab under two numbers; ab and a; a and ab; 1 and 1; none and none.
fn same(rt: &impl Print) -> io::Result<()> {
    println!(rt; "same name")?;
    if let Some(names) = Names::new(&[0, 2, 2, 1, 3, 2], b"abaab") {
        for (a, b) in [(1, 3), (1, 2), (2, 3), (1, 1), (0, 4)] {
            if names.same(NameNumber(a), NameNumber(b)) {
                println!(rt; "same")?;
            } else {
                println!(rt; "other")?;
            }
        }
    }
    Ok(())
}

// ab, a, ab and z by number: a comes first, then ab twice, in whichever order, then z.
fn few(rt: &impl Print) -> io::Result<()> {
    println!(rt; "sorted")?;
    let pairs = [0, 2, 2, 1, 3, 2, 5, 1];
    let mut numbers = [1, 2, 3, 4];
    if let Some(names) = Names::new(&pairs, b"abaabz") {
        sorting::sort(names, &mut numbers, &mut [0; 4]);
    }
    for n in numbers {
        show_name(rt, &pairs, b"abaabz", usize::from(n))?;
    }
    Ok(())
}

// 500 pairs of 16 bytes each, one after the other.
fn long_pairs() -> [u32; 1000] {
    let mut pairs = [16; 1000];
    for i in 0..500 {
        pairs[i * 2] = i as u32 * 16;
    }
    pairs
}

// 500 names of 16 bytes, the last two of which count down.
fn falling_names() -> [u8; 8000] {
    let mut bytes = [120; 8000];
    for i in 0..500 {
        let left = 500 - i;
        bytes[i * 16 + 14] = (left / 256) as u8;
        bytes[i * 16 + 15] = (left % 256) as u8;
    }
    bytes
}

// The numbers from 1 to 500, sorted by these names of 16 bytes.
fn sorted(bytes: &[u8]) -> [u16; 500] {
    let mut numbers = [0; 500];
    for (i, number) in numbers.iter_mut().enumerate() {
        *number = i as u16 + 1;
    }
    if let Some(names) = Names::new(&long_pairs(), bytes) {
        sorting::sort(names, &mut numbers, &mut [0; 500]);
    }
    numbers
}

// 500 names of 16 bytes that share 14, from the last to the first: the numbers come out turned
// round. It prints the first two, the last, and how many are wrong.
fn many(rt: &impl Print) -> io::Result<()> {
    println!(rt; "500 names")?;
    let numbers = sorted(&falling_names());
    println!(rt; "{}", numbers[0])?;
    println!(rt; "{}", numbers[1])?;
    println!(rt; "{}", numbers[499])?;
    let wrong = numbers
        .iter()
        .zip((1..=500).rev())
        .filter(|(n, due)| **n != *due)
        .count();
    println!(rt; "{wrong}")
}

// 500 equal names come in any order, and none is lost.
fn equal(rt: &impl Print) -> io::Result<()> {
    println!(rt; "500 equal names")?;
    let numbers = sorted(&[120; 8000]);
    let missing = (1..=500).filter(|n| !numbers.contains(n)).count();
    println!(rt; "{missing}")
}

fn main(rt: HostRuntime) -> io::Result<()> {
    lookups(&rt)?;
    refused(&rt)?;
    same(&rt)?;
    few(&rt)?;
    many(&rt)?;
    equal(&rt)
}
