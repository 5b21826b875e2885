// Why a call has no answer: one enum for every call, with the number and index of documents 01 and 02.
#![tactic(auto)]

ghost use Rattle.std.specs.Prelude.{◌≡◌};
ghost use Rattle.refusals.specs.Returned.{returned};

use rows::RowNumber;
use std::error::Error;
use std::fmt;

// In the order in which the causes are tried.
#[derive(Clone, Copy, Debug, PartialEq, Eq)]
pub enum Refusal {
    // 1: row words empty, not a multiple of 5, or over 2,000 rows
    RowWords,
    // 2: odd pair words, over 500 pairs, or over 8,000 name bytes
    NameWords,
    // 3: the first pair, from 0, with length 0, starting before the previous end or ending past the bytes
    Pair(usize),
    // 4: the first row whose kind, detail, position or name isn't allowed
    Row(RowNumber),
    // 5: the lowest row that breaks the rule for its own kind, parent or size
    Shape(RowNumber),
    // 10: the first clause that is a second default of its switch or Select
    SecondDefault(RowNumber),
    // 6: the first row over 100 deep
    Depth(RowNumber),
    // 7: a lent buffer is too short: sheet under 8 words a row, or bindings under 1 word a row
    TooShort,
    // 8: the sheet isn't empty, or a row is badly placed
    Faulty,
    // 9: the choice, from 0, that is out of range when it is met
    Choice(usize),
}

impl Refusal {
    // The refusal's number in the documents' tables.
    pub fn number(self) -> u32
        ensures { result ≡ (returned self).0 }
    {
        match self {
            Refusal::RowWords => 1,
            Refusal::NameWords => 2,
            Refusal::Pair(_) => 3,
            Refusal::Row(_) => 4,
            Refusal::Shape(_) => 5,
            Refusal::SecondDefault(_) => 10,
            Refusal::Depth(_) => 6,
            Refusal::TooShort => 7,
            Refusal::Faulty => 8,
            Refusal::Choice(_) => 9,
        }
    }

    // The row, pair or choice that it is returned with; 0 where there is none.
    pub fn index(self) -> usize
        ensures { result ≡ (returned self).1 }
    {
        match self {
            Refusal::RowWords => 0,
            Refusal::NameWords => 0,
            Refusal::Pair(i) => i,
            Refusal::Row(r) => r.0,
            Refusal::Shape(r) => r.0,
            Refusal::SecondDefault(r) => r.0,
            Refusal::Depth(r) => r.0,
            Refusal::TooShort => 0,
            Refusal::Faulty => 0,
            Refusal::Choice(i) => i,
        }
    }
}

// The number and the index, as the documents' tables have them.
impl fmt::Display for Refusal {
    fn fmt<W: fmt::Write>(&self, f: &mut fmt::Formatter<W>) -> fmt::Result {
        write!(f, "{} {}", self.number(), self.index())
    }
}

impl Error for Refusal {}
