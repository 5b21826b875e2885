// Every limit and one past it: for each body its refusal, the number and the index, or `ok`.
use rows::kinds::Kind;
use std::io;
use testing::fill;
use testing::fill::{Row, Run};

fn refusal(rt: &impl Print, rows: &[u32], pairs: &[u32], bytes: &[u8]) -> io::Result<()> {
    match body::refusal_of(rows, pairs, bytes) {
        Ok(()) => println!(rt; "ok"),
        Err(refusal) => println!(rt; "{refusal}"),
    }
}

// The refusal of a Block of the first rows, with the names M (1) and L (2).
fn block(rt: &impl Print, words: &mut [u32], count: u32) -> io::Result<()> {
    fill::one_row(words, 0, Row::new(Kind::Block, 0, 0, count));
    match words.get(..count as usize * 5) {
        Some(rows) => refusal(rt, rows, &[0, 1, 1, 1], b"ML"),
        None => Ok(()),
    }
}

// Empties.
fn flat(rt: &impl Print, words: &mut [u32], count: u32) -> io::Result<()> {
    let empty = Row::new(Kind::Empty, 0, 0, 1);
    fill::rows(words, Run::new(1, 1, count as usize), empty, 0, 0);
    block(rt, words, count)
}

// The refusal of a Block alone, with names.
fn alone(rt: &impl Print, pairs: &[u32], bytes: &[u8]) -> io::Result<()> {
    refusal(rt, &[12, 0, 1, 0, 1], pairs, bytes)
}

// 500 and 501 pairs of one byte each.
fn pairs(rt: &impl Print) -> io::Result<()> {
    let mut most = [0u32; 1000];
    let mut one_more = [0u32; 1002];
    let bytes = [b'A'; 501];
    fill::pairs(&mut most, 1);
    fill::pairs(&mut one_more, 1);
    alone(rt, &most, &bytes)?;
    alone(rt, &one_more, &bytes)
}

fn bytes(rt: &impl Print) -> io::Result<()> {
    let bytes = [b'A'; 8001];
    alone(rt, &[0, 8000], &bytes[..8000])?;
    alone(rt, &[0, 8000], &bytes)
}

// Blocks, each in the one before.
fn nested(rt: &impl Print, words: &mut [u32], count: u32) -> io::Result<()> {
    let outer = Row::new(Kind::Block, 0, 0, count);
    fill::rows(words, Run::new(0, 1, count as usize), outer, 0, 1);
    block(rt, words, count)
}

// 101 Blocks with a Case for the last, which is a fault of shape and comes before that of depth.
fn case_last(rt: &impl Print, words: &mut [u32]) -> io::Result<()> {
    fill::one_row(words, 100, Row::new(Kind::Case, 0, 0, 1));
    block(rt, words, 101)
}

// Labeled in Labeled down to an Empty, which is row `last`.
fn labelled(rt: &impl Print, words: &mut [u32], last: u32) -> io::Result<()> {
    let outer = Row::new(Kind::Labeled, 0, 1, last);
    fill::rows(words, Run::new(1, 1, last as usize), outer, 0, 1);
    fill::one_row(words, last as usize, Row::new(Kind::Empty, 0, 0, 1));
    block(rt, words, last.wrapping_add(1))
}

// So many Ifs, which end with row `rest`: each has a Block, and each but the last the next If for its
// else.
fn else_chain(rt: &impl Print, words: &mut [u32], ifs: usize, rest: u32) -> io::Result<()> {
    let first = Row::new(Kind::If, 1, 0, rest);
    fill::rows(words, Run::new(1, 2, ifs), first, 0, 2);
    fill::rows(
        words,
        Run::new(2, 2, ifs),
        Row::new(Kind::Block, 0, 0, 1),
        0,
        0,
    );
    let last = (rest as usize).wrapping_sub(1);
    fill::one_row(words, last, Row::new(Kind::If, 0, 0, 2));
    block(rt, words, rest.wrapping_add(1))
}

// How many rows, pairs and bytes there may be.
pub fn counts(rt: &impl Print, words: &mut [u32]) -> io::Result<()> {
    println!(rt; "2,000 and 2,001 rows")?;
    flat(rt, words, 2000)?;
    flat(rt, words, 2001)?;
    println!(rt; "500 and 501 pairs")?;
    pairs(rt)?;
    println!(rt; "8,000 and 8,001 bytes")?;
    bytes(rt)
}

// How deep the rows may lie. 98 Ifs are 100 deep with their last Block, 99 are 101.
pub fn depths(rt: &impl Print, words: &mut [u32]) -> io::Result<()> {
    println!(rt; "100, 101 and 2,000 Blocks deep")?;
    nested(rt, words, 100)?;
    nested(rt, words, 101)?;
    case_last(rt, words)?;
    nested(rt, words, 2000)?;
    println!(rt; "100 and 101 deep by labels")?;
    labelled(rt, words, 99)?;
    labelled(rt, words, 100)?;
    println!(rt; "100 and 101 deep by Ifs in else")?;
    else_chain(rt, words, 98, 196)?;
    else_chain(rt, words, 99, 198)
}
