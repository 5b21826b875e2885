// The body that the lines so far make, and what one more line does with it.
use crate::kinds::Kind;
use crate::{answers, kinds, scan, walks};
use std::io;
use testing::words;

// The words and bytes of one body, and how many of each are in use: none where a line couldn't be
// taken.
#[derive(Clone, Copy)]
pub struct Lines {
    rows: [u32; 640],
    pairs: [u32; 64],
    bytes: [u8; 64],
    row_words: Option<usize>,
    pair_words: Option<usize>,
    byte_count: Option<usize>,
}

impl Lines {
    pub fn new() -> Lines {
        Lines {
            rows: [0; 640],
            pairs: [0; 64],
            bytes: [0; 64],
            row_words: Some(0),
            pair_words: Some(0),
            byte_count: Some(0),
        }
    }

    // Takes one line, and prints it or the answer in its place.
    pub fn take_line(&mut self, rt: &impl Print, line: &[u8]) -> io::Result<()> {
        let kind = kinds::kind_of(line);
        self.take(kind);
        match self.body() {
            Some((rows, pairs, bytes)) => print(rt, line, kind, rows, pairs, bytes)?,
            None => {
                print!(rt; "not taken: no numbers, no room, or a remark before the empty line")?;
            }
        }
        println!(rt; "")
    }

    // An empty line ends the body. No other remark comes among rows and answers: it would be one of
    // these with a slip in it.
    fn take(&mut self, kind: Kind<'_>) {
        match kind {
            Kind::Rows(numbers) => {
                if let Some(count) = self.row_words {
                    self.row_words = words::append(&mut self.rows, count, numbers);
                }
            }
            Kind::Pairs(numbers) => self.pair_words = words::append(&mut self.pairs, 0, numbers),
            Kind::Bytes(rest) => self.byte_count = put(&mut self.bytes, rest),
            Kind::Empty => self.row_words = Some(0),
            Kind::Remark => {
                if self.row_words != Some(0) {
                    self.row_words = None;
                }
            }
            Kind::Asks(_) | Kind::Walk(_) => (),
        }
    }

    // The row words, pair words and name bytes of the body, if each line could be taken.
    fn body(&self) -> Option<(&[u32], &[u32], &[u8])> {
        let rows = self.rows.get(..self.row_words?)?;
        let pairs = self.pairs.get(..self.pair_words?)?;
        let bytes = self.bytes.get(..self.byte_count?)?;
        Some((rows, pairs, bytes))
    }
}

// Puts the name bytes of a line, those after `bytes` and a blank, and answers how many they are.
fn put(bytes: &mut [u8], rest: &[u8]) -> Option<usize> {
    let names = rest.get(1..).unwrap_or(&[]);
    bytes.get_mut(..names.len())?.copy_from_slice(names);
    Some(names.len())
}

// A line, or the answer in its place.
fn print(
    rt: &impl Print,
    line: &[u8],
    kind: Kind<'_>,
    rows: &[u32],
    pairs: &[u32],
    bytes: &[u8],
) -> io::Result<()> {
    match kind {
        Kind::Asks(question) => answers::answer(rt, question, rows, pairs, bytes),
        Kind::Walk(rest) => {
            let numbers = &rest[..scan::find(rest, 0, b':')];
            print!(rt; "walk")?;
            rt.write_all(numbers)?;
            print!(rt; ":")?;
            walks::walk(rt, numbers, rows, pairs, bytes)
        }
        _ => rt.write_all(line),
    }
}
