// Row numbers, the five words of a row (kind, detail, position, name, size), and the table of the
// allowed details.
#![tactic(auto)]

pub mod details;
pub mod kinds;

ghost use Rattle.std.specs.Prelude.{◌≡◌, true, ◌+◌, ◌*◌, ◌<◌, eqb, get_or};
ghost use Rattle.rules.specs.Rows.{row_count, kind, detail, position, name, size};
ghost use Rattle.rules.specs.Class.{detail_allowed};
ghost use Rattle.rules.specs.Labels.{word};
ghost use Rattle.rows.specs.Kinds.{number};
ghost use Rattle.rows.specs.Branches.{number as branch_number};
ghost use Rattle.rows.specs.Found.{row_found};

use crate::details::Branch;
use crate::kinds::Kind;
use names::NameNumber;

// A row's number, from 0. Never a name number.
#[derive(Clone, Copy, Debug, PartialEq, Eq)]
pub struct RowNumber(pub usize);

// Word AT of the row.
fn word<const AT: usize>(rows: &[u32], row: RowNumber) -> u32
    requires { (row.0 < row_count rows.now) × (AT < 5) }
    ensures { result ≡ get_or rows.now (row.0 * 5 + AT) 0 }
{
    rows[row.0 * 5 + AT]
}

pub fn kind(rows: &[u32], row: RowNumber) -> u32
    requires { row.0 < row_count rows.now }
    ensures { result ≡ kind rows.now row.0 }
{
    word::<0>(rows, row)
}

pub fn detail(rows: &[u32], row: RowNumber) -> u32
    requires { row.0 < row_count rows.now }
    ensures { result ≡ detail rows.now row.0 }
{
    word::<1>(rows, row)
}

pub fn position(rows: &[u32], row: RowNumber) -> u32
    requires { row.0 < row_count rows.now }
    ensures { result ≡ position rows.now row.0 }
{
    word::<2>(rows, row)
}

// The name's number as the row's own word.
pub fn name_word(rows: &[u32], row: RowNumber) -> u32
    requires { row.0 < row_count rows.now }
    ensures { result ≡ name rows.now row.0 }
{
    word::<3>(rows, row)
}

pub fn name(rows: &[u32], row: RowNumber) -> NameNumber
    requires { row.0 < row_count rows.now }
    ensures { result.0 ≡ name rows.now row.0 }
{
    NameNumber(name_word(rows, row) as usize)
}

pub fn size(rows: &[u32], row: RowNumber) -> usize
    requires { row.0 < row_count rows.now }
    ensures { result ≡ size rows.now row.0 }
{
    word::<4>(rows, row) as usize
}

// The kind of a row whose kind and detail are allowed.
pub fn kind_at(rows: &[u32], row: RowNumber) -> Kind
    requires row_bound { row.0 < row_count rows.now }
    requires allowed { detail_allowed (kind rows.now row.0) (detail rows.now row.0) ≡ true }
    ensures { number result ≡ kind rows.now row.0 }
{
    Kind::numbered(kind(rows, row))
}

// What a Branch row does whose detail is allowed.
pub fn branch_at(rows: &[u32], row: RowNumber) -> Branch
    requires row_bound { (row.0 < row_count rows.now) × (kind rows.now row.0 ≡ 11) }
    requires allowed { detail_allowed (kind rows.now row.0) (detail rows.now row.0) ≡ true }
    ensures { branch_number result ≡ detail rows.now row.0 }
{
    match detail(rows, row) {
        0 => Branch::Break,
        1 => Branch::Continue,
        2 => Branch::Goto,
        _ => Branch::Fallthrough,
    }
}

// Whether the row has detail 1: a Decl for VAR, an Expr for a panic, an Assign for `:=`, an If with
// else, a Case or Comm for default, a For with a condition.
pub fn is_marked(rows: &[u32], row: RowNumber) -> bool
    requires { row.0 < row_count rows.now }
    ensures { result ≡ eqb (detail rows.now row.0) 1 }
{
    detail(rows, row) == 1
}

// The row of a word in a table: 1 + its number, or 0 for none.
pub fn row_of(entry: u16) -> Option<RowNumber>
    ensures { word (row_found result) ≡ entry }
{
    match entry {
        0 => None,
        _ => Some(RowNumber(usize::from(entry) - 1)),
    }
}

// The word of a row in a table: 1 + its number, or 0 for none.
pub fn word_of(row: Option<RowNumber>) -> u16
    requires { word (row_found row) < 65536 }
    ensures { result ≡ word (row_found row) }
{
    match row {
        Some(row) => (row.0 + 1) as u16,
        None => 0,
    }
}
