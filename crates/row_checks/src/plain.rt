// Runs of plain items in a list: rows of a kind with nothing below it. Most rows of most bodies are
// such, and take fewer tests than the others.
ghost use Rattle.std.specs.Prelude.{◌≡◌, true, List, ℕ, ◌≤◌, ◌<◌};
ghost use Rattle.rules.specs.Rows.{row_count};
ghost use Rattle.rules.specs.Names.{count_of_pairs};
ghost use Rattle.rows.specs.Kinds.{number};
ghost use Rattle.row_checks.specs.Plain.{Nameless, PlainItem, PlainItems};

use crate::words_allowed;
use rows::RowNumber;
use rows::details::detail_allowed;
use rows::kinds::Kind;

// Whether nothing stands below a row of this kind, and it has no name.
fn is_nameless(kind: Kind) -> bool
    ensures { result ≡ true → (number kind < 11) × (number kind ≡ 3 → ⊥) }
{
    matches!(
        kind,
        Kind::Bad
            | Kind::Decl
            | Kind::Empty
            | Kind::Expr
            | Kind::Send
            | Kind::IncDec
            | Kind::Assign
            | Kind::Go
            | Kind::Defer
            | Kind::Return
    )
}

// Whether the words of a row are as they have to be of a kind that has no name; this takes fewer tests
// than `row_allowed`.
fn nameless_allowed(rows: &[u32], row: RowNumber) -> bool
    requires { row.0 < row_count rows.now }
    ensures { result ≡ true → Nameless rows.now row.0 }
{
    if !detail_allowed(rows::kind(rows, row), rows::detail(rows, row)) {
        return false;
    }
    if rows::position(rows, row) == 0 {
        return false;
    }
    rows::name_word(rows, row) == 0
}

// Whether the row is such an item, and its words are as they have to be.
fn plain_item(rows: &[u32], pair_count: usize, row: RowNumber) -> bool
    requires { row.0 < row_count rows.now }
    ensures { result ≡ true → (p : List ℕ) → count_of_pairs p ≡ pair_count → PlainItem rows.now p row.0 }
{
    if rows::size(rows, row) != 1 {
        return false;
    }
    match Kind::try_from(rows::kind(rows, row)) {
        Ok(Kind::Branch) => words_allowed(rows, pair_count, row, Kind::Branch),
        Ok(kind) => is_nameless(kind) && nameless_allowed(rows, row),
        Err(_) => false,
    }
}

// The first row from `from` on, before `end`, that is no such item.
pub fn end_of_items(rows: &[u32], pair_count: usize, from: usize, end: usize) -> usize
    requires { (from ≤ end) × (end ≤ row_count rows.now) }
    ensures { (p : List ℕ) → count_of_pairs p ≡ pair_count → PlainItems rows.now p from result end }
{
    for r in from..end {
        if !plain_item(rows, pair_count, RowNumber(r)) {
            return r;
        }
    }
    end
}
