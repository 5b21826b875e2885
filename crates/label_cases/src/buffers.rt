// Buffers exactly long enough, one word short, and longer. Each is lent full of 77s; words that the
// call does not write must still be 77.
use rows::details::Branch;
use rows::kinds::Kind;
use std::io;
use testing::fill;
use testing::fill::Row;
use testing::show::Words;

// The call with the name L (1): the answer, then all words of both buffers.
fn lend(rt: &impl Print, rows: &[u32], sheet: &mut [u32], bindings: &mut [u32]) -> io::Result<()> {
    match label::labels(rows, &[0, 1], b"L", sheet, bindings) {
        Ok(faults) => println!(rt; "{faults} faults")?,
        Err(refusal) => println!(rt; "refused {refusal}")?,
    }
    println!(rt; "sheet {}", Words(sheet))?;
    println!(rt; "bindings {}", Words(bindings))
}

// The same with a sheet of s words and bindings of b words.
fn lent(rt: &impl Print, title: &str, rows: &[u32], s: usize, b: usize) -> io::Result<()> {
    let mut sheet = [77u32; 19];
    let mut bindings = [77u32; 5];
    println!(rt; "{title}")?;
    match (sheet.get_mut(..s), bindings.get_mut(..b)) {
        (Some(sheet), Some(bindings)) => lend(rt, rows, sheet, bindings),
        _ => Ok(()),
    }
}

// `switch { default: goto L; default: }`, which has six rows: refused before the buffers are looked at.
fn two_defaults(rt: &impl Print) -> io::Result<()> {
    let mut rows = [0u32; 30];
    fill::one_row(&mut rows, 0, Row::new(Kind::Block, 0, 0, 6));
    fill::one_row(&mut rows, 1, Row::new(Kind::Switch, 0, 0, 5));
    fill::one_row(&mut rows, 2, Row::new(Kind::Block, 0, 0, 4));
    fill::one_row(&mut rows, 3, Row::default_case(2));
    fill::one_row(&mut rows, 4, Row::branch(Branch::Goto, 1));
    fill::one_row(&mut rows, 5, Row::default_case(1));
    lent(rt, "two defaults, both too short", &rows, 16, 2)
}

pub fn bodies(rt: &impl Print) -> io::Result<()> {
    let goto_l = [12u32, 0, 1, 0, 2, 11, 2, 2, 1, 1];
    lent(rt, "goto L, exactly long enough", &goto_l, 16, 2)?;
    lent(rt, "no rows", &[], 16, 2)?;
    lent(rt, "a root that is no Block", &[0, 0, 1, 0, 1], 16, 2)?;
    two_defaults(rt)?;
    lent(rt, "goto L, longer", &goto_l, 19, 5)?;
    lent(rt, "goto L, sheet one short", &goto_l, 15, 2)?;
    lent(rt, "goto L, bindings one short", &goto_l, 16, 1)
}
