// 2,000 rows of labels and gotos of one name, and 500 names. For each body: the sheet's row count,
// its first and last rows, and the sum of the bindings.
use rows::details::Branch;
use rows::kinds::Kind;
use std::io;
use testing::fill;
use testing::fill::{Row, Run};
use testing::show::Words;

fn sum(words: &[u32]) -> u32 {
    words
        .iter()
        .fold(0, |total: u32, word| total.wrapping_add(*word))
}

// One row of the sheet, if there is such a row.
fn sheet_row(rt: &impl Print, sheet: &[u32], row: usize) -> io::Result<()> {
    match sheet.chunks_exact(4).nth(row) {
        Some(words) => println!(rt; "{}", Words(words)),
        None => Ok(()),
    }
}

fn summary(rt: &impl Print, rows: &[u32], pairs: &[u32], bytes: &[u8]) -> io::Result<()> {
    let mut sheet = [0u32; 16000];
    let mut bindings = [0u32; 2000];
    match label::labels(rows, pairs, bytes, &mut sheet, &mut bindings) {
        Ok(faults) => {
            println!(rt; "{faults}")?;
            sheet_row(rt, &sheet, 0)?;
            sheet_row(rt, &sheet, faults.wrapping_sub(1))?;
            println!(rt; "{}", sum(&bindings))
        }
        Err(refusal) => println!(rt; "{refusal}"),
    }
}

// The summary of a Block of the first rows.
fn block(
    rt: &impl Print,
    words: &mut [u32],
    count: u32,
    pairs: &[u32],
    bytes: &[u8],
) -> io::Result<()> {
    fill::one_row(words, 0, Row::new(Kind::Block, 0, 0, count));
    match words.get(..count as usize * 5) {
        Some(rows) => summary(rt, rows, pairs, bytes),
        None => Ok(()),
    }
}

// Labels from row `first` on, `count` of them, each on a statement of one row. Each has a name larger
// by `more` than the one before, the first the name 1.
fn labels(words: &mut [u32], first: usize, count: usize, more: u32, on: Row) {
    let label = Row::new(Kind::Labeled, 0, 1, 2);
    fill::rows(words, Run::new(first, 2, count), label, more, 0);
    fill::rows(words, Run::new(first.wrapping_add(1), 2, count), on, 0, 0);
}

// 999 times `L: goto L`, and an Empty.
fn labels_and_gotos(rt: &impl Print, words: &mut [u32]) -> io::Result<()> {
    println!(rt; "999 L: goto L")?;
    labels(words, 1, 999, 0, Row::branch(Branch::Goto, 1));
    fill::one_row(words, 1999, Row::new(Kind::Empty, 0, 0, 1));
    block(rt, words, 2000, &[0, 1], b"L")
}

// 999 times `goto L`, then 500 times `L:` with an Empty.
fn gotos_then_labels(rt: &impl Print, words: &mut [u32]) -> io::Result<()> {
    println!(rt; "999 goto L, then 500 L:")?;
    let goto_l = Row::branch(Branch::Goto, 1);
    fill::rows(words, Run::new(1, 1, 999), goto_l, 0, 0);
    labels(words, 1000, 500, 0, Row::new(Kind::Empty, 0, 0, 1));
    block(rt, words, 2000, &[0, 1], b"L")
}

// 500 labels with an Empty each, of 500 names; none is used.
fn many_names(rt: &impl Print, words: &mut [u32]) -> io::Result<()> {
    println!(rt; "500 names")?;
    let mut pairs = [0u32; 1000];
    let mut bytes = [0u8; 1000];
    fill::pairs(&mut pairs, 2);
    fill::names(&mut bytes);
    labels(words, 1, 500, 1, Row::new(Kind::Empty, 0, 0, 1));
    block(rt, words, 1001, &pairs, &bytes)
}

pub fn bodies(rt: &impl Print, words: &mut [u32]) -> io::Result<()> {
    labels_and_gotos(rt, words)?;
    gotos_then_labels(rt, words)?;
    many_names(rt, words)
}
