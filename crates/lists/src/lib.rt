// The list of each row: the innermost Block, Case or Comm around it, in one pass.
#![tactic(auto)]

ghost use Rattle.std.specs.Prelude.{◌≡◌, ◌+◌, ◌≤◌, ◌<◌, length};
ghost use Rattle.rules.specs.Rows.{row_count};
ghost use Rattle.rules.specs.Scope.{holds_items, innermost};
ghost use Rattle.rules.specs.Labels.{word};
ghost use Rattle.rules.specs.Body.{Sized, Detailed};
ghost use Rattle.rows.specs.Found.{row_found};
ghost use Rattle.lists.specs.Listed.{Open, EndsAt, InHand, ListAround, ListedBelow, Listed};

use rows::RowNumber;

// The list around a row, given by its own row, and where it ends.
#[derive(Clone, Copy, Debug, PartialEq, Eq)]
pub struct Around {
    pub list: Option<RowNumber>,
    pub end: usize,
}

// The first of `list` and the rows around it that hold items that reaches past row r.
fn still_open(rows: &[u32], lists: &[u16], list: Option<RowNumber>, r: usize) -> Option<RowNumber>
    requires sized { Sized rows.now × Open rows.now (word (row_found list)) r × ListedBelow rows.now lists.now r }
    requires r_bound { (r < row_count rows.now) × (row_count rows.now ≤ length lists.now) }
    ensures { row_found result ≡ innermost rows.now holds_items r }
{
    let mut open = list;
    while let Some(row) = open {
        if r < row.0 + rows::size(rows, row) {
            return open;
        }
        open = rows::row_of(lists[row.0]);
    }
    None
}

// Where the row of the list ends, or where the body does if there is none.
fn end_of(rows: &[u32], list: Option<RowNumber>) -> usize
    requires { Sized rows.now × (word (row_found list) ≤ row_count rows.now) }
    ensures { EndsAt rows.now (word (row_found list)) result }
{
    match list {
        Some(row) => row.0 + rows::size(rows, row),
        None => rows.len() / 5,
    }
}

// The list around row r, where `before` was the one in hand after the row before it.
pub fn list_at(rows: &[u32], lists: &[u16], before: Around, r: usize) -> Around
    requires sized { Sized rows.now × InHand rows.now (word (row_found before.list)) before.end r × ListedBelow rows.now lists.now r }
    requires r_bound { (r < row_count rows.now) × (row_count rows.now ≤ length lists.now) }
    ensures { ListAround rows.now (word (row_found result.list)) result.end r }
{
    if r < before.end {
        return before;
    }
    let list = still_open(rows, lists, before.list, r);
    let end = end_of(rows, list);
    Around { list, end }
}

// The list in hand after row r: the row itself if it holds items, else the one around it.
pub fn list_after(rows: &[u32], here: Around, r: usize) -> Around
    requires sized { Sized rows.now × Detailed rows.now × (r < row_count rows.now) × (row_count rows.now ≤ 2000) }
    requires list_around { ListAround rows.now (word (row_found here.list)) here.end r }
    ensures { InHand rows.now (word (row_found result.list)) result.end (r + 1) }
{
    let row = RowNumber(r);
    if !rows::kind_at(rows, row).holds_items() {
        return here;
    }
    let end = r + rows::size(rows, row);
    Around {
        list: Some(row),
        end,
    }
}

// Writes 1 + the innermost Block, Case or Comm around each row, or 0 where there is none. A list is
// looked for only where the one in hand has ended.
pub fn lists_of(rows: &[u32], lists: &mut [u16])
    requires sized { Sized rows.now × Detailed rows.now }
    requires rows_bound { (row_count rows.now ≤ 2000) × (row_count rows.now ≤ length lists.old) }
    ensures { Listed rows.now lists.new }
{
    let count = rows.len() / 5;
    let mut around = Around {
        list: None,
        end: count,
    };
    for r in 0..count {
        around = list_at(rows, lists, around, r);
        lists[r] = rows::word_of(around.list);
        around = list_after(rows, around, r);
    }
}
