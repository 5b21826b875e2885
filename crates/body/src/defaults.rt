// Cause 10: the first clause that is a second default of its switch or Select. The children of each
// row are stepped through for their second default; of those found the lowest counts.
ghost use Rattle.std.specs.Prelude.{◌≡◌, ◌≤◌, ◌<◌};
ghost use Rattle.rules.specs.Rows.{row_count};
ghost use Rattle.rules.specs.Class.{is_default, base};
ghost use Rattle.rules.specs.Refusals.{cause10};
ghost use Rattle.rules.specs.Body.{Sized, Detailed};
ghost use Rattle.rows.specs.Found.{row_found};
ghost use Rattle.body.specs.Defaults.{Inside, NextDefault, SecondOf};

use rows::RowNumber;
use rows::kinds::Kind;

// Whether the row is a default clause.
fn is_default(rows: &[u32], row: RowNumber) -> bool
    requires { (row.0 < row_count rows.now) × Detailed rows.now }
    ensures { result ≡ is_default (base rows.now row.0) }
{
    rows::is_marked(rows, row) && matches!(rows::kind_at(rows, row), Kind::Case | Kind::Comm)
}

// The first default clause of the rows from `from` on, stepped through by size, before `end`.
fn next_default(rows: &[u32], from: usize, end: usize) -> Option<RowNumber>
    requires { (end ≤ row_count rows.now) × (row_count rows.now ≤ 2000) × Sized rows.now × Detailed rows.now }
    ensures { NextDefault rows.now end from (row_found result) }
{
    let mut c = from;
    while c < end {
        if is_default(rows, RowNumber(c)) {
            return Some(RowNumber(c));
        }
        c += rows::size(rows, RowNumber(c));
    }
    None
}

// The second default among the children of the row.
fn second_default(rows: &[u32], row: RowNumber) -> Option<RowNumber>
    requires { (row.0 < row_count rows.now) × (row_count rows.now ≤ 2000) × Sized rows.now × Detailed rows.now }
    ensures { SecondOf rows.now row.0 (row_found result) }
{
    let end = row.0 + rows::size(rows, row);
    let first = next_default(rows, row.0 + 1, end)?;
    next_default(rows, first.0 + rows::size(rows, first), end)
}

// The lowest clause that is a second default, once sizes, details and shapes are right.
pub fn first_second_default(rows: &[u32]) -> Option<RowNumber>
    requires { (row_count rows.now ≤ 2000) × Sized rows.now × Detailed rows.now × Inside rows.now }
    ensures { row_found result ≡ cause10 rows.now }
{
    let count = rows.len() / 5;
    let mut lowest = count;
    let mut r = 0;
    while r < lowest {
        if let Some(clause) = second_default(rows, RowNumber(r)) {
            if clause.0 < lowest {
                lowest = clause.0;
            }
        }
        r += 1;
    }
    if lowest == count {
        return None;
    }
    Some(RowNumber(lowest))
}
