// The placing call: the first unlabelled break, continue or fallthrough that is badly placed.
#![tactic(auto)]

mod counts;

ghost use Rattle.std.specs.Prelude.{◌≡◌, true, false, ◌≤◌, ◌<◌, length};
ghost use Rattle.std.proofs.Math.Option.{none};
ghost use Rattle.rules.specs.Rows.{row_count, kind, name};
ghost use Rattle.rules.specs.Class.{is_breakable, is_loop, is_statement, class};
ghost use Rattle.rules.specs.Body.{Detailed, Formed};
ghost use Rattle.rules.specs.Scope.{only_empty};
ghost use Rattle.rules.specs.Placing.{ends_case, well_placed, badly_placed, placing};
ghost use Rattle.rules.specs.Calls.{placing_call};
ghost use Rattle.rows.specs.Found.{row_found};
ghost use Rattle.placing.specs.Given.{given};
ghost use Rattle.placing.specs.Reach.{FormedLists, Falls, Reach, Later};
ghost use Rattle.placing.specs.Searched.{Searched};

use crate::counts::next_that_counts;
use refusals::Refusal;
use rows::RowNumber;
use rows::details::Branch;
use rows::kinds::Kind;

// The search came to an unlabelled fallthrough, for which it needs each row's list.
#[derive(Clone, Copy, Debug, PartialEq, Eq)]
struct NeedsLists;

// Nothing but Empty from `from` on, before `end`.
fn only_empty(rows: &[u32], from: usize, end: usize) -> bool
    requires { Detailed rows.now × (end ≤ row_count rows.now) }
    ensures { result ≡ only_empty rows.now from end }
{
    for r in from..end {
        if rows::kind_at(rows, RowNumber(r)) != Kind::Empty {
            return false;
        }
    }
    true
}

// Whether the fallthrough, its labels included, is the last non-Empty item of a Case that isn't the
// last of its switch, which is of kind 15. The switch is the row before its Block.
fn ends_case(rows: &[u32], lists: &[u16], row: RowNumber) -> bool
    requires formed_lists { FormedLists rows.now lists.now }
    requires row_bound { (row.0 < row_count rows.now) × (is_statement (class rows.now row.0) ≡ true) }
    ensures { result ≡ ends_case rows.now row.0 }
{
    let r = row.0;
    let Some(case) = rows::row_of(lists[r]) else {
        return false;
    };
    if rows::kind_at(rows, case) != Kind::Case {
        return false;
    }
    let case_end = case.0 + rows::size(rows, case);
    let Some(block) = rows::row_of(lists[case.0]) else {
        return false;
    };
    let block_end = block.0 + rows::size(rows, block);
    if block_end <= case_end {
        return false;
    }
    if rows::kind_at(rows, RowNumber(block.0 - 1)) != Kind::Switch {
        return false;
    }
    only_empty(rows, r + 1, case_end)
}

// Whether the unlabelled branch is well placed. The rows before it whose kind a break needs end at
// `break_end` at the latest, those whose kind a continue needs at `loop_end`.
fn well_placed(
    rows: &[u32],
    lists: &[u16],
    row: RowNumber,
    break_end: usize,
    loop_end: usize,
) -> bool
    requires formed { Formed rows.now × (Falls rows.now row.0 → FormedLists rows.now lists.now) }
    requires row_bound { (row.0 < row_count rows.now) × (kind rows.now row.0 ≡ 11) × (name rows.now row.0 ≡ 0) }
    requires reach { Reach rows.now is_breakable row.0 break_end × Reach rows.now is_loop row.0 loop_end }
    ensures { result ≡ well_placed rows.now row.0 }
{
    match rows::branch_at(rows, row) {
        Branch::Break => row.0 < break_end,
        Branch::Continue => row.0 < loop_end,
        Branch::Goto => true,
        Branch::Fallthrough => ends_case(rows, lists, row),
    }
}

// Whether the row is an unlabelled branch that is badly placed.
fn badly_placed(
    rows: &[u32],
    lists: &[u16],
    row: RowNumber,
    break_end: usize,
    loop_end: usize,
) -> bool
    requires formed { Formed rows.now × (Falls rows.now row.0 → FormedLists rows.now lists.now) }
    requires row_bound { row.0 < row_count rows.now }
    requires reach { Reach rows.now is_breakable row.0 break_end × Reach rows.now is_loop row.0 loop_end }
    ensures { result ≡ badly_placed rows.now row.0 }
{
    rows::kind_at(rows, row) == Kind::Branch
        && rows::name_word(rows, row) == 0
        && !well_placed(rows, lists, row, break_end, loop_end)
}

// The larger of the end so far and the row's end, where the row counts.
fn later_end(so_far: usize, counts: bool, end: usize) -> usize
    ensures { Later so_far counts end result }
{
    if counts { so_far.max(end) } else { so_far }
}

// Whether the row is an unlabelled fallthrough.
fn is_fallthrough(rows: &[u32], row: RowNumber) -> bool
    requires { (row.0 < row_count rows.now) × Detailed rows.now }
    ensures { result ≡ false → Falls rows.now row.0 → ⊥ }
{
    rows::kind_at(rows, row) == Kind::Branch
        && rows::branch_at(rows, row) == Branch::Fallthrough
        && rows::name_word(rows, row) == 0
}

// Whether the row can't be judged without lists, and there are none.
fn needs_lists(rows: &[u32], lists: &[u16], row: RowNumber) -> bool
    requires { (row.0 < row_count rows.now) × Detailed rows.now }
    ensures { (result ≡ true → length lists.now ≡ 0) × (result ≡ false → Falls rows.now row.0 → 0 < length lists.now) }
{
    lists.is_empty() && is_fallthrough(rows, row)
}

// The first row badly placed. The lists are each row's, or none are lent.
fn first_badly_placed(rows: &[u32], lists: &[u16]) -> Result<Option<RowNumber>, NeedsLists>
    requires { Formed rows.now × (0 < length lists.now → FormedLists rows.now lists.now) }
    ensures { Searched rows.now lists.now result }
{
    let count = rows.len() / 5;
    let mut break_end = 0;
    let mut loop_end = 0;
    let mut r = next_that_counts(rows, 0, count);
    while r < count {
        let row = RowNumber(r);
        if needs_lists(rows, lists, row) {
            return Err(NeedsLists);
        }
        if badly_placed(rows, lists, row, break_end, loop_end) {
            return Ok(Some(row));
        }
        let kind = rows::kind_at(rows, row);
        let end = r + rows::size(rows, row);
        break_end = later_end(break_end, kind.is_breakable(), end);
        loop_end = later_end(loop_end, kind.is_loop(), end);
        r = next_that_counts(rows, r + 1, count);
    }
    Ok(None)
}

// The first row badly placed of a well-formed body, with each row's list.
fn placed_by_lists(rows: &[u32]) -> Option<RowNumber>
    requires { Formed rows.now }
    ensures { row_found result ≡ placing rows.now }
{
    let mut lists = [0u16; 2000];
    lists::lists_of(rows, &mut lists);
    match first_badly_placed(rows, &lists) {
        Ok(row) => row,
        Err(NeedsLists) => None,
    }
}

// Whether each Branch has a label, so that none is badly placed.
fn all_labelled(rows: &[u32]) -> bool
    requires { Formed rows.now }
    ensures { result ≡ true → placing rows.now ≡ none }
{
    for r in 0..rows.len() / 5 {
        let row = RowNumber(r);
        if rows::kind_at(rows, row) == Kind::Branch && rows::name_word(rows, row) == 0 {
            return false;
        }
    }
    true
}

// The first row badly placed of a well-formed body. Few bodies have a fallthrough, and the others
// need no lists.
pub fn placed(rows: &[u32]) -> Option<RowNumber>
    requires { Formed rows.now }
    ensures { row_found result ≡ placing rows.now }
{
    if all_labelled(rows) {
        return None;
    }
    match first_badly_placed(rows, &[]) {
        Ok(row) => row,
        Err(NeedsLists) => placed_by_lists(rows),
    }
}

// The first row badly placed of a well-formed body, or none; of another body the refusal.
pub fn placing_of(rows: &[u32], pairs: &[u32], bytes: &[u8]) -> Result<Option<RowNumber>, Refusal>
    ensures { given result ≡ placing_call rows.now pairs.now bytes.now }
{
    body::refusal_of(rows, pairs, bytes)?;
    Ok(placed(rows))
}
