// Which rows count for placing: a Branch, and what a break or a continue needs around it. The search
// passes over the others.
ghost use Rattle.std.specs.Prelude.{◌≡◌, ◌≤◌, ◌<◌};
ghost use Rattle.rules.specs.Rows.{row_count};
ghost use Rattle.rules.specs.Class.{class};
ghost use Rattle.rules.specs.Body.{Detailed};
ghost use Rattle.placing.specs.Counted.{counted, PassedOver};

use rows::RowNumber;

// Whether a row of each kind counts; what a continue needs a break needs too. The search passes over
// most rows: by a match on the kinds, which is compiled to two jumps a row, it takes twice as long.
const COUNTED: [bool; 21] = [
    false, // Bad
    false, // Decl
    false, // Empty
    false, // Labeled
    false, // Expr
    false, // Send
    false, // IncDec
    false, // Assign
    false, // Go
    false, // Defer
    false, // Return
    true, // Branch
    false, // Block
    false, // If
    false, // Case
    true, // Switch
    true, // TypeSwitch
    false, // Comm
    true, // Select
    true, // For
    true, // Range
];

// Whether the row counts.
fn counts(rows: &[u32], row: RowNumber) -> bool
    requires { (row.0 < row_count rows.now) × Detailed rows.now }
    ensures { result ≡ counted (class rows.now row.0) }
{
    let kind = rows::kind(rows, row) as usize;
    COUNTED[kind]
}

// The first row from `from` on, before `end`, that counts.
pub fn next_that_counts(rows: &[u32], from: usize, end: usize) -> usize
    requires { Detailed rows.now × (from ≤ end) × (end ≤ row_count rows.now) }
    ensures { PassedOver rows.now from result end }
{
    for r in from..end {
        if counts(rows, RowNumber(r)) {
            return r;
        }
    }
    end
}
