// What a row's size and its children's kinds say of it, before the walk comes to them.
ghost use Rattle.std.specs.Prelude.{◌≡◌, true, ℕ, ◌≤◌, ◌<◌};
ghost use Rattle.rules.specs.Rows.{row_count, end as end_of};
ghost use Rattle.rules.specs.Class.{detail_allowed, class_of};
ghost use Rattle.rules.specs.Refusals.{Holding as Holds, may_hold};
ghost use Rattle.rows.specs.Kinds.{number};
ghost use Rattle.shape.specs.Held.{held};
ghost use Rattle.row_checks.specs.Parts.{is_list, Items, default_count, MayBe, OneChild, TwoParts, Parts};

use rows::RowNumber;
use rows::kinds::Kind;
use shape::Holding;

// Whether the row may be child number i of a row that holds this.
fn may_be_child(rows: &[u32], child: RowNumber, holding: Holding, i: usize) -> bool
    requires { child.0 < row_count rows.now }
    ensures { result ≡ true → MayBe rows.now (held holding) i child.0 }
{
    shape::may_hold(holding, i, rows::kind(rows, child))
}

// Whether the only child of the row fills it and may stand there.
fn child_fits(rows: &[u32], row: RowNumber, holding: Holding) -> bool
    requires { (row.0 < row_count rows.now) × (end_of rows.now row.0 ≤ row_count rows.now) × (row_count rows.now ≤ 2000) }
    ensures { result ≡ true → OneChild rows.now (held holding) row.0 }
{
    let size = rows::size(rows, row);
    if size < 2 {
        return false;
    }
    let child = RowNumber(row.0 + 1);
    if rows::size(rows, child) != size - 1 {
        return false;
    }
    may_be_child(rows, child, holding, 0)
}

// The same of the two parts of an If with else.
fn branches_fit(rows: &[u32], row: RowNumber) -> bool
    requires { (row.0 < row_count rows.now) × (end_of rows.now row.0 ≤ row_count rows.now) × (row_count rows.now ≤ 2000) }
    ensures { result ≡ true → TwoParts rows.now row.0 }
{
    let size = rows::size(rows, row);
    if size < 3 {
        return false;
    }
    let body = RowNumber(row.0 + 1);
    if !may_be_child(rows, body, Holding::Branches, 0) {
        return false;
    }
    let first = rows::size(rows, body);
    if first == 0 {
        return false;
    }
    if size - 1 <= first {
        return false;
    }
    let other = RowNumber(row.0 + 1 + first);
    if rows::size(rows, other) != size - 1 - first {
        return false;
    }
    may_be_child(rows, other, Holding::Branches, 1)
}

// The same of the children of a row that holds no list.
pub fn parts_fit(rows: &[u32], row: RowNumber, holding: Holding) -> bool
    requires { (row.0 < row_count rows.now) × (end_of rows.now row.0 ≤ row_count rows.now) × (row_count rows.now ≤ 2000) }
    ensures { result ≡ true → Parts rows.now (held holding) row.0 }
{
    match holding {
        // two arms: as one the child's kind is told by a test more
        Holding::Statement => child_fits(rows, row, Holding::Statement),
        Holding::Body => child_fits(rows, row, Holding::Body),
        Holding::Branches => branches_fit(rows, row),
        _ => rows::size(rows, row) == 1,
    }
}

pub fn holds_list(holding: Holding) -> bool
    ensures { result ≡ is_list (held holding) }
{
    matches!(
        holding,
        Holding::Statements | Holding::Cases | Holding::Comms
    )
}

// The kind that each item of the list has, Case or Comm; none where any statement may stand.
pub fn item_kind(holding: Holding) -> Option<Kind>
    ensures { Items result (held holding) }
{
    match holding {
        Holding::Cases => Some(Kind::Case),
        Holding::Comms => Some(Kind::Comm),
        _ => None,
    }
}

// Whether a row of this kind may be an item of a list whose items have the kind `items`.
pub fn may_be_item(items: Option<Kind>, kind: Kind) -> bool
    ensures { (h : Holds) (d : ℕ) → is_list h ≡ true → Items items h → detail_allowed (number kind) d ≡ true → result ≡ may_hold h 0 (class_of (number kind) d) }
{
    match items {
        Some(clause) => kind == clause,
        None => kind.is_statement(),
    }
}

// 1 for a clause that is the default, 0 for another.
pub fn count_default(rows: &[u32], clause: RowNumber) -> usize
    requires { clause.0 < row_count rows.now }
    ensures { result ≡ default_count rows.now clause.0 }
{
    usize::from(rows::is_marked(rows, clause))
}
