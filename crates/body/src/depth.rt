// Cause 6: the first row over 100 deep. A row's depth is the rows begun up to it less those ended:
// one pass that counts the rows by where they end.
ghost use Rattle.std.specs.Prelude.{◌≡◌, ◌≤◌};
ghost use Rattle.rules.specs.Rows.{row_count};
ghost use Rattle.rules.specs.Refusals.{cause6};
ghost use Rattle.rules.specs.Body.{Sized};
ghost use Rattle.rows.specs.Found.{row_found};

use rows::RowNumber;

// The first row over 100 deep, once sizes are right.
pub fn first_too_deep(rows: &[u32]) -> Option<RowNumber>
    requires { Sized rows.now × (row_count rows.now ≤ 2000) }
    ensures { row_found result ≡ cause6 rows.now }
{
    let mut ends = [0u16; 2001];
    let mut ended = 0;
    for r in 0..rows.len() / 5 {
        ended += usize::from(ends[r]);
        if 100 < r + 1 - ended {
            return Some(RowNumber(r));
        }
        let end = r + rows::size(rows, RowNumber(r));
        ends[end] += 1;
    }
    None
}
