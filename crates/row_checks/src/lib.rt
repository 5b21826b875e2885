// What is looked at of one row: its own words (cause 4), its children, and runs of plain items.
#![tactic(auto)]

pub mod parts;
pub mod plain;

ghost use Rattle.std.specs.Prelude.{◌≡◌, true, not, ◌&&◌, List, ℕ, ◌<◌, eqb, leb};
ghost use Rattle.rules.specs.Rows.{row_count, kind as kind_of};
ghost use Rattle.rules.specs.Class.{class_of, detail_allowed};
ghost use Rattle.rules.specs.Names.{count_of_pairs};
ghost use Rattle.rules.specs.Refusals.{name_allowed, bad_row};
ghost use Rattle.rows.specs.Kinds.{number};

use rows::RowNumber;
use rows::details::{Branch, detail_allowed};
use rows::kinds::Kind;

// Whether there is a name of this number.
fn is_name(pair_count: usize, name: usize) -> bool
    ensures { result ≡ (leb name pair_count && not (eqb name 0)) }
{
    name <= pair_count && name != 0
}

// Whether a row of this kind and detail may have this name: Labeled and goto must have one, other
// Branches may, the rest have none.
fn name_allowed(kind: Kind, detail: u32, pair_count: usize, name: usize) -> bool
    requires { detail_allowed (number kind) detail ≡ true }
    ensures { result ≡ name_allowed (class_of (number kind) detail) pair_count name }
{
    match kind {
        Kind::Labeled => is_name(pair_count, name),
        Kind::Branch => {
            if detail == u32::from(Branch::Goto) {
                is_name(pair_count, name)
            } else {
                name <= pair_count
            }
        }
        _ => name == 0,
    }
}

// Whether the detail, position and name of a row of this kind are allowed, where there are so many
// pairs.
fn words_allowed(rows: &[u32], pair_count: usize, row: RowNumber, kind: Kind) -> bool
    requires { (row.0 < row_count rows.now) × (number kind ≡ kind_of rows.now row.0) }
    ensures { (p : List ℕ) → count_of_pairs p ≡ pair_count → result ≡ not (bad_row rows.now p row.0) }
{
    let detail = rows::detail(rows, row);
    if !detail_allowed(u32::from(kind), detail) {
        return false;
    }
    if rows::position(rows, row) == 0 {
        return false;
    }
    let name = rows::name(rows, row);
    name_allowed(kind, detail, pair_count, name.0)
}

// Whether the row's kind, detail, position and name are allowed, where there are so many pairs.
pub fn row_allowed(rows: &[u32], pair_count: usize, row: RowNumber) -> bool
    requires { row.0 < row_count rows.now }
    ensures { (p : List ℕ) → count_of_pairs p ≡ pair_count → result ≡ not (bad_row rows.now p row.0) }
{
    match Kind::try_from(rows::kind(rows, row)) {
        Ok(kind) => words_allowed(rows, pair_count, row, kind),
        Err(_) => false,
    }
}
