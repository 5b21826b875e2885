// Refusals 1 to 6 and 10 of the lent records, and with them whether a body is well-formed.
#![tactic(auto)]

pub mod defaults;
pub mod depth;

ghost use Rattle.std.specs.Prelude.{◌≡◌, IfOk};
ghost use Rattle.rules.specs.Scan.{lowest};
ghost use Rattle.rules.specs.Rows.{row_count};
ghost use Rattle.rules.specs.Refusals.{bad_row_words, bad_row, bad_size, refusal, WellFormed};
ghost use Rattle.rows.specs.Found.{row_found};
ghost use Rattle.body.specs.Given.{given};

use names::Names;
use refusals::Refusal;
use row_checks::row_allowed;
use rows::RowNumber;
use rows_fit::well_formed_rows;

// A well-formed body: row words, pair words and name bytes that no cause refuses.
#[derive(Clone, Copy)]
pub struct Body<'a> {
    pub rows: &'a [u32],
    pub pairs: &'a [u32],
    pub bytes: &'a [u8],
    ghost well_formed: { WellFormed rows.now pairs.now bytes.now },
}

impl<'a> Body<'a> {
    // The body of these words, or the first cause that applies to them.
    pub fn new(rows: &'a [u32], pairs: &'a [u32], bytes: &'a [u8]) -> Result<Body<'a>, Refusal>
        ensures answer { given result ≡ refusal rows.now pairs.now bytes.now }
        ensures lent { IfOk result (λ body. (body.rows ≡ rows.entry) × (body.pairs ≡ pairs.entry) × (body.bytes ≡ bytes.entry)) }
    {
        refusal_of(rows, pairs, bytes)?;
        Ok(Body { rows, pairs, bytes })
    }

    // The body's names.
    pub fn names(self) -> Names<'a, 'a>
        ensures { (result.pairs ≡ self.entry.pairs) × (result.bytes ≡ self.entry.bytes) }
    {
        Names {
            pairs: self.pairs,
            bytes: self.bytes,
        }
    }
}

// Cause 1.
fn bad_row_words(rows: &[u32]) -> bool
    ensures { result ≡ bad_row_words rows.now }
{
    if rows.len() == 0 {
        return true;
    }
    if rows.len() % 5 != 0 {
        return true;
    }
    2000 < rows.len() / 5
}

// Cause 4.
fn first_bad_row(rows: &[u32], pairs: &[u32]) -> Option<RowNumber>
    ensures { row_found result ≡ lowest (bad_row rows.now pairs.now) (row_count rows.now) }
{
    for r in 0..rows.len() / 5 {
        if !row_allowed(rows, pairs.len() / 2, RowNumber(r)) {
            return Some(RowNumber(r));
        }
    }
    None
}

// Cause 5, first part: a size of 0 or past the last row.
fn first_bad_size(rows: &[u32]) -> Option<RowNumber>
    ensures { row_found result ≡ lowest (bad_size rows.now) (row_count rows.now) }
{
    let count = rows.len() / 5;
    for r in 0..count {
        let size = rows::size(rows, RowNumber(r));
        if size == 0 {
            return Some(RowNumber(r));
        }
        if count < r + size {
            return Some(RowNumber(r));
        }
    }
    None
}

// The first cause that applies to the body, if one does. Each cause is tried over all rows before
// the next; but most bodies are well-formed, so one walk first tries whether none of 4, 5, 10 and 6
// applies.
pub fn refusal_of(rows: &[u32], pairs: &[u32], bytes: &[u8]) -> Result<(), Refusal>
    ensures { given result ≡ refusal rows.now pairs.now bytes.now }
{
    if bad_row_words(rows) {
        return Err(Refusal::RowWords);
    }
    if names::bad_name_words(pairs, bytes) {
        return Err(Refusal::NameWords);
    }
    if let Some(pair) = names::first_bad_pair(pairs, bytes) {
        return Err(Refusal::Pair(pair));
    }
    if well_formed_rows(rows, pairs) {
        return Ok(());
    }
    if let Some(row) = first_bad_row(rows, pairs) {
        return Err(Refusal::Row(row));
    }
    if let Some(row) = first_bad_size(rows) {
        return Err(Refusal::Shape(row));
    }
    if let Some(row) = shape::first_bad_shape(rows) {
        return Err(Refusal::Shape(row));
    }
    if let Some(row) = defaults::first_second_default(rows) {
        return Err(Refusal::SecondDefault(row));
    }
    if let Some(row) = depth::first_too_deep(rows) {
        return Err(Refusal::Depth(row));
    }
    Ok(())
}
