// The parent of each row, in one pass: each row in order writes its number to its children.
#![tactic(auto)]

ghost use Rattle.std.specs.Prelude.{◌+◌, ◌≤◌, ◌<◌, length};
ghost use Rattle.rules.specs.Rows.{row_count};
ghost use Rattle.rules.specs.Body.{Formed};
ghost use Rattle.parents.specs.Parents.{Parents, ParentsTo};

use rows::RowNumber;

// Writes 1 + r to each child of row r.
fn write_children(rows: &[u32], r: usize, parents: &mut [u16])
    requires formed { Formed rows.now × (r < row_count rows.now) × (row_count rows.now ≤ length parents.old) }
    requires parents_to { ParentsTo rows.now parents.old r }
    ensures { ParentsTo rows.now parents.new (r + 1) }
{
    let end = r + rows::size(rows, RowNumber(r));
    let mut c = r + 1;
    while c < end {
        parents[c] = (r + 1) as u16;
        c += rows::size(rows, RowNumber(c));
    }
}

// Writes 1 + its parent for each row, 0 for row 0.
pub fn parents_of(rows: &[u32], parents: &mut [u16])
    requires { Formed rows.now × (row_count rows.now ≤ length parents.old) }
    ensures { Parents rows.now parents.new }
{
    parents[0] = 0;
    for r in 0..rows.len() / 5 {
        write_children(rows, r, parents);
    }
}
