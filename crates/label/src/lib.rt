// Port of goscript's label.rs: the label call. It writes the sheet of label faults and the bindings.
//
// The walk is goscript's, over the rows in order; what goscript hands down as context stands in a
// table by the list's row. A name is its canonical number, 0 for none and for `_`. In the tables a row
// is written as 1 + its number, and 0 stands for none.
#![tactic(auto)]

ghost use Rattle.std.specs.Prelude.{◌≡◌, true, ◌*◌, ◌≤◌, length};
ghost use Rattle.rules.specs.Rows.{row_count};
ghost use Rattle.rules.specs.Calls.{label_call};
ghost use Rattle.refusals.specs.Returned.{given};
ghost use Rattle.label_body.specs.Answered.{Answered};
ghost use Rattle.label.specs.Cleared.{NoName, Cleared};

use body::Body;
use refusals::Refusal;
use rows::RowNumber;

// Whether no row has a name: then there are no labels and no labelled branches.
fn no_names(rows: &[u32]) -> bool
    ensures { result ≡ true → NoName rows.now }
{
    for r in 0..rows.len() / 5 {
        if rows::name_word(rows, RowNumber(r)) != 0 {
            return false;
        }
    }
    true
}

// Writes 0 for each row.
fn clear(bindings: &mut [u32], count: usize)
    requires { count ≤ length bindings.old }
    ensures { Cleared count bindings.old bindings.new }
{
    bindings[..count].fill(0);
}

// The sheet and the bindings of a well-formed body, with room for both. Most bodies have few names
// and rows.
fn faults(body: Body<'_>, sheet: &mut [u32], bindings: &mut [u32]) -> usize
    requires rows_in_bounds { (row_count body.rows.now * 8 ≤ length sheet.old) × (row_count body.rows.now ≤ length bindings.old) }
    ensures { Answered body.entry.rows.now body.entry.pairs.now body.entry.bytes.now result sheet.old bindings.old sheet.new
        bindings.new }
{
    let count = body.rows.len() / 5;
    clear(bindings, count);
    let names = body.names().count();
    if names == 0 || no_names(body.rows) {
        return 0;
    }
    if names < 32 && count <= 128 {
        label_body::walk::<32, 128>(body, sheet, bindings)
    } else {
        label_body::walk::<501, 2000>(body, sheet, bindings)
    }
}

// The sheet and the bindings of a well-formed body, unless one of the two is too short, with both as
// they were lent. Words past them stay.
pub fn labels_of(body: Body<'_>, sheet: &mut [u32], bindings: &mut [u32]) -> Result<usize, Refusal>
    ensures answer { given result
        ≡ (label_call body.entry.rows.now body.entry.pairs.now body.entry.bytes.now sheet.old bindings.old).answer }
    ensures sheet { sheet.new ≡ (label_call body.entry.rows.now body.entry.pairs.now body.entry.bytes.now sheet.old
        bindings.old).sheet_words }
    ensures bindings { bindings.new ≡ (label_call body.entry.rows.now body.entry.pairs.now body.entry.bytes.now sheet.old
        bindings.old).binding_words }
{
    let count = body.rows.len() / 5;
    if sheet.len() < count * 8 {
        return Err(Refusal::TooShort);
    }
    if bindings.len() < count {
        return Err(Refusal::TooShort);
    }
    Ok(faults(body, sheet, bindings))
}

// The sheet and the bindings of a well-formed body; else the refusal, with both as they were lent.
// Words past them stay.
pub fn labels(
    rows: &[u32],
    pairs: &[u32],
    bytes: &[u8],
    sheet: &mut [u32],
    bindings: &mut [u32],
) -> Result<usize, Refusal>
    ensures answer { given result
        ≡ (label_call rows.now pairs.now bytes.now sheet.old bindings.old).answer }
    ensures sheet { sheet.new
        ≡ (label_call rows.now pairs.now bytes.now sheet.old bindings.old).sheet_words }
    ensures bindings { bindings.new
        ≡ (label_call rows.now pairs.now bytes.now sheet.old bindings.old).binding_words }
{
    labels_of(Body::new(rows, pairs, bytes)?, sheet, bindings)
}
