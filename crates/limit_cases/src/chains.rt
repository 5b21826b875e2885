// If chains 45 deep, `if c { return } else if c { return } ..`: the placing and the verdict.
use rows::kinds::Kind;
use std::io;
use testing::fill;
use testing::fill::{Row, Run};

fn placed(rt: &impl Print, rows: &[u32]) -> io::Result<()> {
    match placing::placing_of(rows, &[], b"") {
        Ok(None) => print!(rt; "placed yes, "),
        Ok(Some(_)) => print!(rt; "placed no, "),
        Err(_) => print!(rt; "refused, "),
    }
}

fn verdict(rt: &impl Print, rows: &[u32]) -> io::Result<()> {
    match returns::verdict_of(rows, &[], b"") {
        Ok(true) => println!(rt; "verdict yes"),
        Ok(false) => println!(rt; "verdict no"),
        Err(_) => println!(rt; "refused"),
    }
}

// The placing and the verdict of the first rows.
fn first(rt: &impl Print, words: &[u32], count: usize) -> io::Result<()> {
    let Some(rows) = words.get(..count.wrapping_mul(5)) else {
        return Ok(());
    };
    placed(rt, rows)?;
    verdict(rt, rows)
}

// A Block of `count` rows: 45 Ifs of three rows each, which go to its end, all with an else.
fn chain(words: &mut [u32], count: u32) {
    fill::one_row(words, 0, Row::new(Kind::Block, 0, 0, count));
    let first = Row::new(Kind::If, 1, 0, count.wrapping_sub(1));
    fill::rows(words, Run::new(1, 3, 45), first, 0, 3);
    fill::rows(
        words,
        Run::new(2, 3, 45),
        Row::new(Kind::Block, 0, 0, 2),
        0,
        0,
    );
    fill::rows(
        words,
        Run::new(3, 3, 45),
        Row::new(Kind::Return, 0, 0, 1),
        0,
        0,
    );
}

pub fn bodies(rt: &impl Print, words: &mut [u32]) -> io::Result<()> {
    println!(rt; "45 Ifs in else, the last with an else")?;
    chain(words, 138);
    fill::one_row(words, 136, Row::new(Kind::Block, 0, 0, 2));
    fill::one_row(words, 137, Row::new(Kind::Return, 0, 0, 1));
    first(rt, words, 138)?;
    println!(rt; "45 Ifs in else, the last without")?;
    chain(words, 136);
    fill::one_row(words, 133, Row::new(Kind::If, 0, 0, 3));
    first(rt, words, 136)
}
