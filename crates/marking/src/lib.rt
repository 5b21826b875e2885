// The marks of a body in one call: its sheet and bindings, its placing and its verdict, after one
// look for refusals.
#![tactic(auto)]

ghost use Rattle.std.specs.Prelude.{◌≡◌};
ghost use Rattle.rules.specs.Calls.{label_call};
ghost use Rattle.marking.specs.Marks.{marks_call, given};

use body::Body;
use names::NameNumber;
use refusals::Refusal;
use rows::RowNumber;

// The marks beside the sheet and the bindings.
#[derive(Clone, Copy, Debug, PartialEq, Eq)]
pub struct Marks {
    // the sheet's row count
    pub faults: usize,
    // the first row badly placed
    pub placed: Option<RowNumber>,
    // the verdict
    pub terminating: bool,
}

// The marks of a body, with its sheet and bindings written; else the refusal, with both as they were
// lent. Words past them stay.
pub fn mark(
    rows: &[u32],
    pairs: &[u32],
    bytes: &[u8],
    sheet: &mut [u32],
    bindings: &mut [u32],
) -> Result<Marks, Refusal>
    ensures answer { given result ≡ marks_call rows.now pairs.now bytes.now sheet.old bindings.old }
    ensures sheet { sheet.new ≡ (label_call rows.now pairs.now bytes.now sheet.old
        bindings.old).sheet_words }
    ensures bindings { bindings.new ≡ (label_call rows.now pairs.now bytes.now sheet.old
        bindings.old).binding_words }
{
    marks_of(Body::new(rows, pairs, bytes)?, sheet, bindings)
}

// The marks of a well-formed body; 7 where there is no room for its sheet or bindings.
fn marks_of(body: Body<'_>, sheet: &mut [u32], bindings: &mut [u32]) -> Result<Marks, Refusal>
    ensures answer { given result ≡ marks_call body.entry.rows.now body.entry.pairs.now body.entry.bytes.now sheet.old bindings.old }
    ensures sheet { sheet.new ≡ (label_call body.entry.rows.now body.entry.pairs.now body.entry.bytes.now sheet.old
        bindings.old).sheet_words }
    ensures bindings { bindings.new ≡ (label_call body.entry.rows.now body.entry.pairs.now body.entry.bytes.now sheet.old
        bindings.old).binding_words }
{
    let faults = label::labels_of(body, sheet, bindings)?;
    Ok(Marks {
        faults,
        placed: placing::placed(body.rows),
        terminating: returns::is_terminating(body, RowNumber(0), NameNumber(0)),
    })
}
