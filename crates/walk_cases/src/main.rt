// Walks of bodies that loops make: over the most rows, the most clauses and the deepest bodies, by the
// most choices and for the most steps. The answers in the file stdout were written from documents 01
// and 02. The bodies that are lists of rows are in crates/cases.
#![tactic(auto)]

use case_lines::walks;
use rows::kinds::Kind;
use std::io;
use testing::fill;
use testing::fill::{Row, Run};

// The walk of a Block of the first rows.
fn walk(
    rt: &impl Print,
    words: &mut [u32],
    count: u32,
    choices: &[u32],
    limit: usize,
) -> io::Result<()> {
    fill::one_row(words, 0, Row::new(Kind::Block, 0, 0, count));
    let Some(rows) = words.get(..count as usize * 5) else {
        return Ok(());
    };
    print!(rt; "walk:")?;
    walks::answer(rt, runner::walk(rows, &[], b"", choices, limit))?;
    println!(rt; "")
}

// 1,999 Empties: a route of 2,000 steps.
fn flat(rt: &impl Print, words: &mut [u32]) -> io::Result<()> {
    println!(rt; "1,999 Empties, to the brace and one step short")?;
    fill::rows(
        words,
        Run::new(1, 1, 1999),
        Row::new(Kind::Empty, 0, 0, 1),
        0,
        0,
    );
    walk(rt, words, 2000, &[], 2000)?;
    walk(rt, words, 2000, &[], 1999)
}

// 999 times `if c {}`, and an Empty.
fn ifs(rt: &impl Print, words: &mut [u32]) -> io::Result<()> {
    let mut choices = [1u32; 1000];
    println!(rt; "999 Ifs by 1,000 choices, by 998, and with choice 500 out of range")?;
    fill::rows(
        words,
        Run::new(1, 2, 999),
        Row::new(Kind::If, 0, 0, 2),
        0,
        0,
    );
    fill::rows(
        words,
        Run::new(2, 2, 999),
        Row::new(Kind::Block, 0, 0, 1),
        0,
        0,
    );
    fill::one_row(words, 1999, Row::new(Kind::Empty, 0, 0, 1));
    walk(rt, words, 2000, &choices, 5000)?;
    walk(rt, words, 2000, &choices[..998], 5000)?;
    choices[500] = 2;
    walk(rt, words, 2000, &choices, 5000)
}

// A switch of 1,997 Cases.
fn cases(rt: &impl Print, words: &mut [u32]) -> io::Result<()> {
    println!(rt; "1,997 Cases, by the last, past it, and out of range")?;
    fill::one_row(words, 1, Row::new(Kind::Switch, 0, 0, 1999));
    fill::one_row(words, 2, Row::new(Kind::Block, 0, 0, 1998));
    fill::rows(
        words,
        Run::new(3, 1, 1997),
        Row::new(Kind::Case, 0, 0, 1),
        0,
        0,
    );
    walk(rt, words, 2000, &[1996], 2)?;
    walk(rt, words, 2000, &[1997], 9)?;
    walk(rt, words, 2000, &[1998], 9)
}

// `for` with 1,997 statements, for more steps than could be made one by one.
fn rounds(rt: &impl Print, words: &mut [u32]) -> io::Result<()> {
    println!(rt; "a For of 1,997 rows, for the most steps")?;
    fill::one_row(words, 1, Row::new(Kind::For, 0, 0, 1999));
    fill::one_row(words, 2, Row::new(Kind::Block, 0, 0, 1998));
    fill::rows(
        words,
        Run::new(3, 1, 1997),
        Row::new(Kind::Expr, 0, 0, 1),
        0,
        0,
    );
    walk(rt, words, 2000, &[], usize::MAX)?;
    walk(rt, words, 2000, &[], usize::MAX - 1)
}

// Blocks, each in the one before.
fn nested(rt: &impl Print, words: &mut [u32], count: u32) -> io::Result<()> {
    let outer = Row::new(Kind::Block, 0, 0, count);
    fill::rows(words, Run::new(0, 1, count as usize), outer, 0, 1);
    walk(rt, words, count, &[], 5000)
}

fn main(rt: HostRuntime) -> io::Result<()> {
    let mut words = [0u32; 10000];
    flat(&rt, &mut words)?;
    ifs(&rt, &mut words)?;
    cases(&rt, &mut words)?;
    rounds(&rt, &mut words)?;
    println!(&rt; "100 and 101 Blocks deep")?;
    nested(&rt, &mut words, 100)?;
    nested(&rt, &mut words, 101)
}
