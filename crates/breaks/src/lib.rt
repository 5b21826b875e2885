// From goscript's returns.rs: whether a break refers to a statement. The search in a statement and
// the search in a list call each other, downward.
#![tactic(auto)]

ghost use Rattle.std.specs.Prelude.{◌≡◌, ◌<◌};
ghost use Rattle.rules.specs.Rows.{row_count, kind, end};
ghost use Rattle.breaks.specs.Leaves.{Closed, leaves, any_leaves};

use body::Body;
use names::NameNumber;
use rows::RowNumber;
use rows::details::Branch;
use rows::kinds::Kind;

// Whether the Branch row is a break that goes to the labelled statement or, where `implicit`, to the
// closest outer one.
fn is_break(body: Body<'_>, row: RowNumber, label: NameNumber, implicit: bool) -> bool
    requires { (row.0 < row_count body.rows.now) × (kind body.rows.now row.0 ≡ 11) }
    ensures { result ≡ leaves body.entry.rows.now body.entry.pairs.now body.entry.bytes.now row.0 label.0 implicit row.0 }
{
    if rows::branch_at(body.rows, row) != Branch::Break {
        return false;
    }
    let name = rows::name(body.rows, row);
    if name.0 == 0 {
        return implicit;
    }
    if label.0 == 0 {
        return false;
    }
    body.names().same(name, label)
}

// Whether the statement is or contains a break that refers to the labelled statement around it or,
// where `implicit`, to the closest outer one that a break can leave.
#[cycle(has_break_has_break_items)]
#[tactic(auto, using(body::proofs::Facts::allowed, body::proofs::Facts::end_fits))]
fn has_break(body: &Body<'_>, row: RowNumber, label: NameNumber, implicit: bool) -> bool
    requires { row.0 < row_count body.now.rows.now }
    ensures { result ≡ any_leaves body.now.rows.now body.now.pairs.now body.now.bytes.now row.0
        (end body.now.rows.now row.0) label.0 implicit }
{
    let kind = rows::kind_at(body.rows, row);
    if kind == Kind::Branch {
        return is_break(*body, row, label, implicit);
    }
    let first = RowNumber(row.0 + 1);
    let end = row.0 + rows::size(body.rows, row);
    if kind.is_breakable() {
        if label.0 == 0 {
            return false;
        }
        return has_break_items(body, first, end, label, false);
    }
    has_break_items(body, first, end, label, implicit)
}

// The same of the items from `from` on, before `end`. The searches hand the body on by reference, so
// that a level of nesting takes less stack.
#[cycle(has_break_has_break_items)]
#[tactic(auto, using(body::proofs::Facts::end_fits, body::proofs::Facts::some_rows))]
pub fn has_break_items(
    body: &Body<'_>,
    from: RowNumber,
    end: usize,
    label: NameNumber,
    implicit: bool,
) -> bool
    requires { Closed body.now.rows.now from.0 end }
    ensures { result ≡ any_leaves body.now.rows.now body.now.pairs.now body.now.bytes.now from.0 end label.0 implicit }
{
    let mut c = from.0;
    while c < end {
        let item = RowNumber(c);
        if has_break(body, item, label, implicit) {
            return true;
        }
        c += rows::size(body.rows, item);
    }
    false
}

// The same of a body by value.
pub fn has_break_list(
    body: Body<'_>,
    from: RowNumber,
    end: usize,
    label: NameNumber,
    implicit: bool,
) -> bool
    requires { Closed body.rows.now from.0 end }
    ensures { result ≡ any_leaves body.entry.rows.now body.entry.pairs.now body.entry.bytes.now from.0 end label.0 implicit }
{
    has_break_items(&body, from, end, label, implicit)
}
