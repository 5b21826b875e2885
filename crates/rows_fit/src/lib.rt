// One walk down the rows, which finds out whether none of the causes 4, 5, 10 and 6 applies. It
// doesn't say which applies, or to which row.
#![tactic(auto)]

ghost use Rattle.std.specs.Prelude.{◌≡◌, true, List, ℕ, ◌≤◌, ◌<◌};
ghost use Rattle.rules.specs.Rows.{row_count};
ghost use Rattle.rules.specs.Class.{class};
ghost use Rattle.rules.specs.Names.{count_of_pairs};
ghost use Rattle.rules.specs.Refusals.{holding as holding_of};
ghost use Rattle.shape.specs.DetailedTo.{DetailedTo};
ghost use Rattle.row_checks.specs.Right.{Right, RightBelow, Met};
ghost use Rattle.row_checks.specs.Parts.{is_list, Items};

use row_checks::parts::{count_default, holds_list, item_kind, may_be_item, parts_fit};
use row_checks::plain::end_of_items;
use row_checks::row_allowed;
use rows::RowNumber;
use rows::kinds::Kind;

// Whether none of the causes 4, 5, 10 and 6 applies to the statement, which is so deep, and to the
// rows below it. A row whose only child fills it is followed by that child; only lists take a call.
#[cycle(list_fits_statement_fits)]
fn statement_fits(rows: &[u32], pair_count: usize, row: RowNumber, depth: usize) -> bool
    requires { Met rows.now row.0 depth × (0 < row.0) }
    ensures { result ≡ true → (p : List ℕ) → count_of_pairs p ≡ pair_count → Right rows.now p row.0
        × RightBelow rows.now p row.0 }
{
    let end = row.0 + rows::size(rows, row);
    let mut c = row.0;
    let mut d = depth;
    while c < end {
        let r = RowNumber(c);
        if 100 < d {
            return false;
        }
        if !row_allowed(rows, pair_count, r) {
            return false;
        }
        let holding = shape::holding_at(rows, r);
        if holds_list(holding) {
            if !list_fits(rows, pair_count, r, d, item_kind(holding)) {
                return false;
            }
            c += rows::size(rows, r);
        } else {
            if !parts_fit(rows, r, holding) {
                return false;
            }
            c += 1;
            d += 1;
        }
    }
    true
}

// The same of the rows below a list, which is so deep and whose items have this kind. Plain items are
// passed in runs, and of clauses at most one is the default.
#[cycle(list_fits_statement_fits)]
fn list_fits(
    rows: &[u32],
    pair_count: usize,
    row: RowNumber,
    depth: usize,
    items: Option<Kind>,
) -> bool
    requires { Met rows.now row.0 depth × DetailedTo rows.now row.0 × (is_list (holding_of (class rows.now row.0)) ≡ true)
        × Items items (holding_of (class rows.now row.0)) }
    ensures { result ≡ true → (p : List ℕ) → count_of_pairs p ≡ pair_count → RightBelow rows.now p row.0 }
{
    let end = row.0 + rows::size(rows, row);
    if 99 < depth {
        return end == row.0 + 1;
    }
    let mut c = row.0 + 1;
    let mut defaults = 0;
    while c < end {
        if items.is_none() {
            c = end_of_items(rows, pair_count, c, end);
        } else {
            defaults += count_default(rows, RowNumber(c));
        }
        if c < end {
            let item = RowNumber(c);
            let Ok(kind) = Kind::try_from(rows::kind(rows, item)) else {
                return false;
            };
            if !may_be_item(items, kind) {
                return false;
            }
            let size = rows::size(rows, item);
            if size == 0 {
                return false;
            }
            if end < c + size {
                return false;
            }
            if !statement_fits(rows, pair_count, item, depth + 1) {
                return false;
            }
            c += size;
        }
    }
    defaults <= 1
}

// Whether none of the causes 4, 5, 10 and 6 applies to the rows.
pub fn well_formed_rows(rows: &[u32], pairs: &[u32]) -> bool
    requires { (0 < row_count rows.now) × (row_count rows.now ≤ 2000) }
    ensures { result ≡ true → (k : ℕ) → k < row_count rows.now → Right rows.now pairs.now k }
{
    let root = RowNumber(0);
    let pair_count = pairs.len() / 2;
    if !row_allowed(rows, pair_count, root) {
        return false;
    }
    if !shape::is_body(rows) {
        return false;
    }
    list_fits(rows, pair_count, root, 1, None)
}
