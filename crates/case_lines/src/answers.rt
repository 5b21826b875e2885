// The answers: what stands on each answer line.
use crate::kinds::Question;
use std::io;
use testing::show::Words;

// The answer to a question about a body.
pub fn answer(
    rt: &impl Print,
    question: Question,
    rows: &[u32],
    pairs: &[u32],
    bytes: &[u8],
) -> io::Result<()> {
    match question {
        Question::Refusal => refusal(rt, rows, pairs, bytes),
        Question::Placed => placed(rt, rows, pairs, bytes),
        Question::Verdict => verdict(rt, rows, pairs, bytes),
        Question::Sheet => sheet(rt, rows, pairs, bytes),
        Question::Bindings => bindings(rt, rows, pairs, bytes),
    }
}

fn refusal(rt: &impl Print, rows: &[u32], pairs: &[u32], bytes: &[u8]) -> io::Result<()> {
    match body::refusal_of(rows, pairs, bytes) {
        Ok(()) => print!(rt; "refusal ok"),
        Err(refusal) => print!(rt; "refusal {refusal}"),
    }
}

fn placed(rt: &impl Print, rows: &[u32], pairs: &[u32], bytes: &[u8]) -> io::Result<()> {
    match placing::placing_of(rows, pairs, bytes) {
        Ok(None) => print!(rt; "placed yes"),
        Ok(Some(row)) => print!(rt; "placed no {}", row.0),
        Err(refusal) => print!(rt; "placed refused {refusal}"),
    }
}

fn verdict(rt: &impl Print, rows: &[u32], pairs: &[u32], bytes: &[u8]) -> io::Result<()> {
    match returns::verdict_of(rows, pairs, bytes) {
        Ok(true) => print!(rt; "verdict yes"),
        Ok(false) => print!(rt; "verdict no"),
        Err(refusal) => print!(rt; "verdict refused {refusal}"),
    }
}

// The rows of the sheet, with a comma between them.
fn sheet_rows(rt: &impl Print, sheet: &[u32], count: usize) -> io::Result<()> {
    if count == 0 {
        return print!(rt; " none");
    }
    for (i, row) in sheet.chunks_exact(4).take(count).enumerate() {
        if 0 < i {
            print!(rt; ",")?;
        }
        print!(rt; " {}", Words(row))?;
    }
    Ok(())
}

fn sheet(rt: &impl Print, rows: &[u32], pairs: &[u32], bytes: &[u8]) -> io::Result<()> {
    let mut sheet = [0u32; 1024];
    let mut bindings = [0u32; 128];
    print!(rt; "sheet")?;
    match label::labels(rows, pairs, bytes, &mut sheet, &mut bindings) {
        Ok(faults) => sheet_rows(rt, &sheet, faults),
        Err(refusal) => print!(rt; " refused {refusal}"),
    }
}

fn bindings(rt: &impl Print, rows: &[u32], pairs: &[u32], bytes: &[u8]) -> io::Result<()> {
    let mut sheet = [0u32; 1024];
    let mut bindings = [0u32; 128];
    print!(rt; "bindings")?;
    match label::labels(rows, pairs, bytes, &mut sheet, &mut bindings) {
        Ok(_) => match bindings.get(..rows.len() / 5) {
            Some(words) => print!(rt; " {}", Words(words)),
            None => Ok(()),
        },
        Err(refusal) => print!(rt; " refused {refusal}"),
    }
}
