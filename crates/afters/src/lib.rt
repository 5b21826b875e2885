// Where the runner goes on after each row, in one pass: after row 0 the closing brace, after any other
// row what its parent gives.
#![tactic(auto)]

ghost use Rattle.std.specs.Prelude.{◌≡◌, ◌≤◌, ◌<◌, length};
ghost use Rattle.rules.specs.Rows.{row_count};
ghost use Rattle.rules.specs.Class.{class};
ghost use Rattle.rules.specs.Scope.{is_list};
ghost use Rattle.rules.specs.Body.{Detailed, Formed};
ghost use Rattle.rules.specs.Runner.{after};
ghost use Rattle.rules.specs.Walking.{place_of};
ghost use Rattle.parents.specs.Parents.{Parents};
ghost use Rattle.afters.specs.Afters.{AftersBelow, Afters};

use rows::RowNumber;
use shape::Holding;

// Whether the row is a Block, Case or Comm that holds a list.
pub fn is_list(rows: &[u32], row: RowNumber) -> bool
    requires { (row.0 < row_count rows.now) × Detailed rows.now }
    ensures { result ≡ is_list (class rows.now row.0) }
{
    matches!(shape::holding_at(rows, row), Holding::Statements)
}

// The place after row r, where those after the rows before it are there: its parent again if that is
// a loop, the next item of a list, else the place after its parent.
fn after_at(rows: &[u32], parents: &[u16], afters: &[u16], r: usize) -> usize
    requires formed { Formed rows.now × Parents rows.now parents.now × AftersBelow rows.now afters.now r }
    requires r_nonzero { (0 < r) × (r < row_count rows.now) × (row_count rows.now ≤ length parents.now) × (row_count rows.now ≤ length afters.now) }
    ensures { (place_of result ≡ after rows.now r) × (result < 65536) }
{
    let p = usize::from(parents[r]) - 1;
    let parent = RowNumber(p);
    if rows::kind_at(rows, parent).is_loop() {
        return p + 2;
    }
    let next = r + rows::size(rows, RowNumber(r));
    if next < p + rows::size(rows, parent) && is_list(rows, parent) {
        return next + 2;
    }
    usize::from(afters[p])
}

// Writes the place after each row.
pub fn afters_of(rows: &[u32], parents: &[u16], afters: &mut [u16])
    requires formed { Formed rows.now × Parents rows.now parents.now }
    requires rows_in_bounds { (row_count rows.now ≤ length parents.now) × (row_count rows.now ≤ length afters.old) }
    ensures { Afters rows.now afters.new }
{
    afters[0] = 1;
    for r in 1..rows.len() / 5 {
        afters[r] = after_at(rows, parents, afters, r) as u16;
    }
}
