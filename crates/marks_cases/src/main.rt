// `marks` on files at the edges of what it reads (data/): each file's name, and what is printed for
// it. README.md says how the files are made; the answers in the file stdout are document 01's.
#![tactic(auto)]

use std::fs::File;
use std::io;
use std::rt::Files;

// The longest file that isn't refused for its counts, and one byte more or less.
const LONGEST: [&str; 3] = ["longest", "longest_and_one", "longest_less_one"];

// 2,001 rows in a file as long as its header says, and one byte more or less.
const TOO_MANY_ROWS: [&str; 3] = ["rows_2001", "rows_2001_and_one", "rows_2001_less_one"];

// Files of several pieces: 10,000 rows, 8,000 bytes and more, each as long as its header says, and
// the first with one byte more or less.
const PIECES: [&str; 4] = [
    "rows_10000",
    "rows_10000_and_one",
    "rows_10000_less_one",
    "bytes_200000",
];

// No header: nothing, 11 bytes; and a header alone, which says no rows.
const HEADERS: [&str; 3] = ["nothing", "bytes_11", "no_rows"];

fn cases(rt: &(impl Files + Print), names: &[&str]) -> io::Result<()> {
    for name in names {
        println!(rt; "{name}")?;
        match File::open(rt, name) {
            Ok(mut file) => filter::marks(&mut file, &mut io::writer(rt))?,
            Err(_) => println!(rt; "missing")?,
        }
    }
    Ok(())
}

fn main(rt: HostRuntime) -> io::Result<()> {
    cases(&rt, &LONGEST)?;
    cases(&rt, &TOO_MANY_ROWS)?;
    cases(&rt, &PIECES)?;
    cases(&rt, &HEADERS)
}
