// Refusal 8: whether a well-formed body has a label fault or a row badly placed. Its sheet is worked out
// in a buffer of its own.
#![tactic(auto)]

ghost use Rattle.std.specs.Prelude.{◌*◌, ◌≤◌, length};
ghost use Rattle.rules.specs.Rows.{row_count};
ghost use Rattle.faultless.specs.Judged.{Judged};

use body::Body;

// Whether the sheet is empty and no row is badly placed. Writes the sheet and the bindings.
fn judged(body: Body<'_>, sheet: &mut [u32], bindings: &mut [u32]) -> bool
    requires rows_in_bounds { (row_count body.rows.now * 8 ≤ length sheet.old)
        × (row_count body.rows.now ≤ length bindings.old) }
    ensures { Judged body.entry.rows.now body.entry.pairs.now body.entry.bytes.now bindings.new
        result }
{
    match label::labels_of(body, sheet, bindings) {
        Ok(faults) => faults == 0 && placing::placed(body.rows).is_none(),
        Err(_) => false,
    }
}

// With a sheet of so many words, which has to hold the body's. No body needs more than 16,000, and a
// large buffer costs time to make.
fn judged_with<const WORDS: usize>(body: Body<'_>, bindings: &mut [u32]) -> bool
    requires rows_in_bounds { (row_count body.rows.now * 8 ≤ WORDS)
        × (row_count body.rows.now ≤ length bindings.old) }
    requires size { WORDS ≤ 16000 }
    ensures { Judged body.entry.rows.now body.entry.pairs.now body.entry.bytes.now bindings.new
        result }
{
    let mut sheet = [0u32; WORDS];
    judged(body, &mut sheet, bindings)
}

// Whether the sheet is empty and no row is badly placed. Writes the bindings. Most bodies are small.
pub fn is_faultless(body: Body<'_>, bindings: &mut [u32]) -> bool
    requires { row_count body.rows.now ≤ length bindings.old }
    ensures { Judged body.entry.rows.now body.entry.pairs.now body.entry.bytes.now bindings.new
        result }
{
    if 128 < body.rows.len() / 5 {
        return judged_with::<16000>(body, bindings);
    }
    judged_with::<1024>(body, bindings)
}
