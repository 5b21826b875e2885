// The walks: a line names a limit and choices before its colon, and the answer stands after it.
use refusals::Refusal;
use runner::{Place, WalkEnd};
use std::io;
use testing::words;

fn end(rt: &impl Print, end: WalkEnd) -> io::Result<()> {
    match end.place {
        Place::Stopped => print!(rt; " stopped")?,
        Place::Brace => print!(rt; " brace")?,
        Place::Row(row) => print!(rt; " row {}", row.0)?,
    }
    print!(rt; ", {} steps, {} used", end.steps, end.used)
}

// The answer, after a blank.
pub fn answer(rt: &impl Print, answer: Result<WalkEnd, Refusal>) -> io::Result<()> {
    match answer {
        Ok(reached) => end(rt, reached),
        Err(refusal) => print!(rt; " refused {refusal}"),
    }
}

// The walk by the numbers asked: the limit, then the choices.
fn walk_by(
    rt: &impl Print,
    asked: &[u32],
    rows: &[u32],
    pairs: &[u32],
    bytes: &[u8],
) -> io::Result<()> {
    let Some((limit, choices)) = asked.split_first() else {
        return Ok(());
    };
    let walked = runner::walk(rows, pairs, bytes, choices, *limit as usize);
    answer(rt, walked)
}

// The walk that the numbers of a line ask for.
pub fn walk(
    rt: &impl Print,
    numbers: &[u8],
    rows: &[u32],
    pairs: &[u32],
    bytes: &[u8],
) -> io::Result<()> {
    let mut asked = [0u32; 32];
    let count = words::append(&mut asked, 0, numbers);
    match count.and_then(|n| asked.get(..n)) {
        Some(asked) => walk_by(rt, asked, rows, pairs, bytes),
        None => print!(rt; " not taken"),
    }
}
