// Writing the sheet: four words a row.
#![tactic(auto)]

ghost use Rattle.std.specs.Prelude.{◌≡◌, [], ◌∷◌, ◌+◌, ◌*◌, ◌≤◌, ◌<◌, length};
ghost use Rattle.std.proofs.lemmas.List.Edits.{sets};
ghost use Rattle.rules.specs.Rows.{row_count, position, name};
ghost use Rattle.sheet.specs.Codes.{number};

use rows::RowNumber;

// What a row of the sheet reports.
#[derive(Clone, Copy, Debug, PartialEq, Eq)]
pub enum Code {
    AlreadyDeclared,
    // where the label is declared, after each AlreadyDeclared
    OtherDeclaration,
    JumpsOverDeclaration,
    InvalidBreak,
    InvalidContinue,
    LabelledFallthrough,
    GotoIntoBlock,
    NotDeclared,
    NotUsed,
}

impl From<Code> for u32 {
    ghost from_gives = { λ code word. word ≡ number code };

    fn from(code: Code) -> u32 {
        match code {
            Code::AlreadyDeclared => 1,
            Code::OtherDeclaration => 2,
            Code::JumpsOverDeclaration => 3,
            Code::InvalidBreak => 4,
            Code::InvalidContinue => 5,
            Code::LabelledFallthrough => 6,
            Code::GotoIntoBlock => 7,
            Code::NotDeclared => 8,
            Code::NotUsed => 9,
        }
    }
}

// Sheet row `at`: code, position and name number of the row reported, other.
pub fn put(rows: &[u32], sheet: &mut [u32], at: usize, code: u32, row: RowNumber, other: u32)
    requires { (row.0 < row_count rows.now) × (at * 4 + 4 ≤ length sheet.old) }
    ensures { sheet.new ≡ sets sheet.old (at * 4)
        (code ∷ position rows.now row.0 ∷ name rows.now row.0 ∷ other ∷ []) }
{
    let i = at * 4;
    sheet[i] = code;
    sheet[i + 1] = rows::position(rows, row);
    sheet[i + 2] = rows::name_word(rows, row);
    sheet[i + 3] = other;
}

// Sheet row `at` for what the code says.
pub fn report(rows: &[u32], sheet: &mut [u32], at: usize, code: Code, row: RowNumber, other: u32)
    requires { (row.0 < row_count rows.now) × (at * 4 + 4 ≤ length sheet.old) }
    ensures { sheet.new ≡ sets sheet.old (at * 4)
        (number code ∷ position rows.now row.0 ∷ name rows.now row.0 ∷ other ∷ []) }
{
    put(rows, sheet, at, u32::from(code), row, other);
}
