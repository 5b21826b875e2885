// Port of goscript's returns.rs: whether a body is terminating. The statement rule and the list rule
// call each other, downward. Its searches for a break are in crate breaks.
#![tactic(auto)]

ghost use Rattle.std.specs.Prelude.{◌≡◌, true, ◌||◌, ◌<◌};
ghost use Rattle.rules.specs.Rows.{row_count};
ghost use Rattle.rules.specs.Class.{select, is_switch, is_statement, class};
ghost use Rattle.rules.specs.Labels.{is_class};
ghost use Rattle.rules.specs.Body.{Sized, Detailed};
ghost use Rattle.rules.specs.Calls.{verdict_call};
ghost use Rattle.refusals.specs.Returned.{given};
ghost use Rattle.breaks.specs.Leaves.{label_number, Closed, Statements};
ghost use Rattle.returns.specs.Search.{OneRowEmpties, UnlessEmpty, Lasts, is_terminating_body, is_terminating_list};

use body::Body;
use names::NameNumber;
use refusals::Refusal;
use rows::RowNumber;
use rows::details::Branch;
use rows::kinds::Kind;

// Whether the statement is terminating. If it is labelled, `label` is the name of the label directly
// on it.
pub fn is_terminating(body: Body<'_>, row: RowNumber, label: NameNumber) -> bool
    requires { (row.0 < row_count body.rows.now) × (is_statement (class body.rows.now row.0) ≡ true)
        × (label.0 ≡ label_number body.rows.now row.0) }
    ensures { result ≡ is_terminating_body body.entry.rows.now body.entry.pairs.now body.entry.bytes.now row.0 }
{
    is_terminating_stmt(&body, row, label)
}

// The same. The rules hand the body on by reference: so a statement below a label, or the last item of
// a Block, takes no more stack than one that stands in no other.
#[cycle(is_terminating_stmt_is_terminating_list_is_terminating_switch)]
#[tactic(auto, using(body::proofs::Facts::allowed, body::proofs::Facts::end_fits))]
fn is_terminating_stmt(body: &Body<'_>, row: RowNumber, label: NameNumber) -> bool
    requires { (row.0 < row_count body.now.rows.now) × (is_statement (class body.now.rows.now row.0) ≡ true)
        × (label.0 ≡ label_number body.now.rows.now row.0) }
    ensures { result ≡ is_terminating_body body.now.rows.now body.now.pairs.now body.now.bytes.now row.0 }
{
    let rows = body.rows;
    let first = RowNumber(row.0 + 1);
    let end = row.0 + rows::size(rows, row);
    match rows::kind_at(rows, row) {
        Kind::Labeled => is_terminating_stmt(body, first, rows::name(rows, row)),
        // a panic
        Kind::Expr => rows::is_marked(rows, row),
        Kind::Return => true,
        Kind::Branch => matches!(
            rows::branch_at(rows, row),
            Branch::Goto | Branch::Fallthrough
        ),
        Kind::Block => is_terminating_list(body, first, end),
        Kind::If => {
            let with_else = rows::is_marked(rows, row);
            if !with_else {
                return false;
            }
            if !is_terminating_stmt(body, first, NameNumber(0)) {
                return false;
            }
            let els = RowNumber(first.0 + rows::size(rows, first));
            is_terminating_stmt(body, els, NameNumber(0))
        }
        Kind::Switch | Kind::TypeSwitch => is_terminating_switch(body, row, label, false),
        Kind::Select => is_terminating_switch(body, row, label, true),
        Kind::For => {
            let with_condition = rows::is_marked(rows, row);
            if with_condition {
                return false;
            }
            !breaks::has_break_items(body, first, end, label, true)
        }
        _ => false,
    }
}

// Whether the items from `from` on, before `end`, are terminating: the last that is no Empty is.
// Trailing empty statements are permitted.
#[cycle(is_terminating_stmt_is_terminating_list_is_terminating_switch)]
fn is_terminating_list(body: &Body<'_>, from: RowNumber, end: usize) -> bool
    requires { Closed body.now.rows.now from.0 end × Statements body.now.rows.now from.0 end
        × (label_number body.now.rows.now from.0 ≡ 0) }
    ensures { result ≡ is_terminating_list body.now.rows.now body.now.pairs.now body.now.bytes.now end from.0 }
{
    match last_item(body.rows, from, end) {
        Some(last) => is_terminating_stmt(body, last, NameNumber(0)),
        None => false,
    }
}

// The item unless it is an Empty; else the one found before it.
fn unless_empty(rows: &[u32], item: RowNumber, found: Option<RowNumber>) -> Option<RowNumber>
    requires { (item.0 < row_count rows.now) × Detailed rows.now }
    ensures { UnlessEmpty rows.now item.0 found result }
{
    if rows::kind_at(rows, item) != Kind::Empty {
        return Some(item);
    }
    found
}

// The last item from `from` on, before `end`, that is no Empty. Items of one row each are stepped
// through in a loop of their own, which waits for no size.
fn last_item(rows: &[u32], from: RowNumber, end: usize) -> Option<RowNumber>
    requires { Sized rows.now × Detailed rows.now × OneRowEmpties rows.now × Closed rows.now from.0 end }
    ensures { Lasts rows.now from.0 end result }
{
    let mut last = None;
    let mut c = from.0;
    while c < end {
        last = unless_empty(rows, RowNumber(c), last);
        let mut size = rows::size(rows, RowNumber(c));
        while size == 1 {
            c += 1;
            if end <= c {
                return last;
            }
            last = unless_empty(rows, RowNumber(c), last);
            size = rows::size(rows, RowNumber(c));
        }
        c += size;
    }
    last
}

// Whether every clause of the switch or Select is terminating and no break refers to it. A switch
// needs a default, so it begins with none found; a Select needs none, so it begins with one.
#[cycle(is_terminating_stmt_is_terminating_list_is_terminating_switch)]
#[tactic(auto, using(body::proofs::Facts::end_fits, body::proofs::Facts::some_rows))]
fn is_terminating_switch(body: &Body<'_>, row: RowNumber, label: NameNumber, found: bool) -> bool
    requires { (row.0 < row_count body.now.rows.now)
        × ((is_switch (class body.now.rows.now row.0) || is_class body.now.rows.now select row.0) ≡ true)
        × (found ≡ is_class body.now.rows.now select row.0) × (label.0 ≡ label_number body.now.rows.now row.0) }
    ensures { result ≡ is_terminating_body body.now.rows.now body.now.pairs.now body.now.bytes.now row.0 }
{
    let rows = body.rows;
    let mut has_default = found;
    let end = row.0 + rows::size(rows, row);
    let mut c = row.0 + 2;
    while c < end {
        let clause = RowNumber(c);
        let first = RowNumber(c + 1);
        let next = c + rows::size(rows, clause);
        let default = rows::is_marked(rows, clause);
        if default {
            has_default = true;
        }
        if !is_terminating_list(body, first, next) {
            return false;
        }
        if breaks::has_break_items(body, first, next, label, true) {
            return false;
        }
        c = next;
    }
    has_default
}

// The verdict on a well-formed body; else the refusal.
pub fn verdict_of(rows: &[u32], pairs: &[u32], bytes: &[u8]) -> Result<bool, Refusal>
    ensures { given result ≡ verdict_call rows.now pairs.now bytes.now }
{
    let body = Body::new(rows, pairs, bytes)?;
    Ok(is_terminating(body, RowNumber(0), NameNumber(0)))
}
