// The statement around each row that an unlabelled break leaves, the loop that an unlabelled continue
// goes to and the Case that a fallthrough leaves, in one pass: a row's own are its parent, if that is
// one, or its parent's.
#![tactic(auto)]

ghost use Rattle.std.specs.Prelude.{◌≡◌, true, false, suc, ◌≤◌, ◌<◌, length};
ghost use Rattle.rules.specs.Rows.{row_count};
ghost use Rattle.rules.specs.Class.{is_breakable, is_loop, is_case, class};
ghost use Rattle.rules.specs.Body.{Detailed, Formed};
ghost use Rattle.parents.specs.Parents.{Parents};
ghost use Rattle.enclosing.specs.Enclosing.{breakable_word, loop_word, case_word, Enclosing as IsEnclosing};

use rows::RowNumber;
use rows::kinds::Kind;

// The rows around a row, each 1 + its number, or 0 for none.
#[derive(Clone, Copy, Debug, PartialEq, Eq)]
pub struct Enclosing {
    // the innermost statement that a break leaves
    pub breakable: u16,
    // the innermost loop
    pub repeated: u16,
    // the innermost Case
    pub case: u16,
}

// 1 + the parent p, if it is such a row, else the parent's own word.
fn from_parent(is_one: bool, p: usize, above: u16) -> u16
    requires { p < 2000 }
    ensures { result ≡ elim is_one [ true ↦ suc p | false ↦ above ] }
{
    if is_one { (p + 1) as u16 } else { above }
}

// The rows around a child of row p, where those around p are `above`.
fn around_child(rows: &[u32], p: usize, above: Enclosing) -> Enclosing
    requires { (p < row_count rows.now) × (row_count rows.now ≤ 2000) × Detailed rows.now }
    ensures breakable { result.breakable ≡ elim (is_breakable (class rows.now p)) [ true ↦ suc p | false ↦ above.breakable ] }
    ensures repeated { result.repeated ≡ elim (is_loop (class rows.now p)) [ true ↦ suc p | false ↦ above.repeated ] }
    ensures case { result.case ≡ elim (is_case (class rows.now p)) [ true ↦ suc p | false ↦ above.case ] }
{
    let kind = rows::kind_at(rows, RowNumber(p));
    Enclosing {
        breakable: from_parent(kind.is_breakable(), p, above.breakable),
        repeated: from_parent(kind.is_loop(), p, above.repeated),
        case: from_parent(kind == Kind::Case, p, above.case),
    }
}

// Writes the rows around each row.
pub fn enclosing_of(rows: &[u32], parents: &[u16], enclosing: &mut [Enclosing])
    requires formed { Formed rows.now × Parents rows.now parents.now × (row_count rows.now ≤ length parents.now) }
    requires rows_in_bounds { row_count rows.now ≤ length enclosing.old }
    ensures breakables { IsEnclosing rows.now is_breakable breakable_word enclosing.new }
    ensures loops { IsEnclosing rows.now is_loop loop_word enclosing.new }
    ensures cases { IsEnclosing rows.now is_case case_word enclosing.new }
{
    enclosing[0] = Enclosing {
        breakable: 0,
        repeated: 0,
        case: 0,
    };
    for r in 1..rows.len() / 5 {
        let p = usize::from(parents[r]) - 1;
        enclosing[r] = around_child(rows, p, enclosing[p]);
    }
}
