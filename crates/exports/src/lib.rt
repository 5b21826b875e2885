// The calls for programs in C and Rust: bindings/c/zesthull.h declares them. A slice is a pointer and
// a count. Each call returns the number of the refusal, 0 for none, and writes the refusal's index or
// the answer through `value`. A refusal changes nothing else.
#![tactic(auto)]

ghost use Rattle.std.specs.Prelude.{◌≡◌, ◌≤◌};
ghost use Rattle.rules.specs.Refusals.{refusal};
ghost use Rattle.rules.specs.Calls.{placing_call, verdict_call, label_call};
ghost use Rattle.rules.specs.Walking.{place_word, walk_call};
ghost use Rattle.rows.specs.Found.{row_found};
ghost use Rattle.refusals.specs.Returned.{returned};
ghost use Rattle.marking.specs.Marks.{marks_call};
ghost use Rattle.runner.specs.Given.{state_of};
ghost use Rattle.exports.specs.Told.{told_refusal, told_count, placed_word, told_placing, verdict_word, told_verdict, told_marks, told_walk, told_name};

use refusals::Refusal;
use rows::RowNumber;
use runner::Place;

// A refusal as a call returns it: its index through `value`, and its number.
fn refused(refusal: Refusal, value: &mut usize) -> u32
    ensures number { result ≡ (returned refusal).0 }
    ensures value { value.new ≡ (returned refusal).1 }
{
    *value = refusal.index();
    refusal.number()
}

// An answer as a call returns it: the answer through `value`, and 0 for no refusal.
fn answered(answer: usize, value: &mut usize) -> u32
    ensures number { result ≡ 0 }
    ensures value { value.new ≡ answer }
{
    *value = answer;
    0
}

// The refusal of the body.
#[unsafe(no_mangle)]
pub extern "C" fn zesthull_refusal(
    rows: &[u32],
    pairs: &[u32],
    bytes: &[u8],
    value: &mut usize,
) -> u32
    ensures number { result ≡ (told_refusal (refusal rows.now pairs.now bytes.now)).0 }
    ensures value { value.new ≡ (told_refusal (refusal rows.now pairs.now bytes.now)).1 }
{
    match body::refusal_of(rows, pairs, bytes) {
        Ok(()) => answered(0, value),
        Err(refusal) => refused(refusal, value),
    }
}

// The label call. The value is the sheet's row count.
#[unsafe(no_mangle)]
pub extern "C" fn zesthull_labels(
    rows: &[u32],
    pairs: &[u32],
    bytes: &[u8],
    sheet: &mut [u32],
    bindings: &mut [u32],
    value: &mut usize,
) -> u32
    ensures number { result ≡ (told_count
        (label_call rows.now pairs.now bytes.now sheet.old bindings.old).answer).0 }
    ensures value { value.new ≡ (told_count
        (label_call rows.now pairs.now bytes.now sheet.old bindings.old).answer).1 }
    ensures sheet { sheet.new ≡ (label_call rows.now pairs.now bytes.now sheet.old
        bindings.old).sheet_words }
    ensures bindings { bindings.new ≡ (label_call rows.now pairs.now bytes.now sheet.old
        bindings.old).binding_words }
{
    match label::labels(rows, pairs, bytes, sheet, bindings) {
        Ok(faults) => answered(faults, value),
        Err(refusal) => refused(refusal, value),
    }
}

// The placing call. The value is 1 + the first row badly placed, or 0.
#[unsafe(no_mangle)]
pub extern "C" fn zesthull_placing(
    rows: &[u32],
    pairs: &[u32],
    bytes: &[u8],
    value: &mut usize,
) -> u32
    ensures number { result ≡ (told_placing (placing_call rows.now pairs.now bytes.now)).0 }
    ensures value { value.new ≡ (told_placing (placing_call rows.now pairs.now bytes.now)).1 }
{
    match reader::ask_placing(rows, pairs, bytes) {
        Ok(placed) => answered(placed_word(placed), value),
        Err(refusal) => refused(refusal, value),
    }
}

// The verdict call. The value is 1 for yes and 0 for no.
#[unsafe(no_mangle)]
pub extern "C" fn zesthull_verdict(
    rows: &[u32],
    pairs: &[u32],
    bytes: &[u8],
    value: &mut usize,
) -> u32
    ensures number { result ≡ (told_verdict (verdict_call rows.now pairs.now bytes.now)).0 }
    ensures value { value.new ≡ (told_verdict (verdict_call rows.now pairs.now bytes.now)).1 }
{
    match reader::ask_verdict(rows, pairs, bytes) {
        Ok(terminating) => answered(usize::from(terminating), value),
        Err(refusal) => refused(refusal, value),
    }
}

fn placed_word(placed: Option<RowNumber>) -> usize
    requires { placed_word (row_found placed) ≤ 2000 }
    ensures { result ≡ placed_word (row_found placed) }
{
    match placed {
        Some(row) => row.0 + 1,
        None => 0,
    }
}

// The label, placing and verdict calls in one, after one look for refusals. The value is the sheet's
// row count.
#[unsafe(no_mangle)]
pub extern "C" fn zesthull_marks(
    rows: &[u32],
    pairs: &[u32],
    bytes: &[u8],
    sheet: &mut [u32],
    bindings: &mut [u32],
    value: &mut usize,
    placing: &mut usize,
    verdict: &mut usize,
) -> u32
    ensures number { result ≡ (told_marks placing.old verdict.old
        (marks_call rows.now pairs.now bytes.now sheet.old bindings.old)).0 }
    ensures value { value.new ≡ (told_marks placing.old verdict.old
        (marks_call rows.now pairs.now bytes.now sheet.old bindings.old)).1 }
    ensures placing { placing.new ≡ (told_marks placing.old verdict.old
        (marks_call rows.now pairs.now bytes.now sheet.old bindings.old)).2 }
    ensures verdict { verdict.new ≡ (told_marks placing.old verdict.old
        (marks_call rows.now pairs.now bytes.now sheet.old bindings.old)).3 }
    ensures sheet { sheet.new ≡ (label_call rows.now pairs.now bytes.now sheet.old
        bindings.old).sheet_words }
    ensures bindings { bindings.new ≡ (label_call rows.now pairs.now bytes.now sheet.old
        bindings.old).binding_words }
{
    match marking::mark(rows, pairs, bytes, sheet, bindings) {
        Ok(marks) => {
            *placing = placed_word(marks.placed);
            *verdict = usize::from(marks.terminating);
            answered(marks.faults, value)
        }
        Err(refusal) => refused(refusal, value),
    }
}

fn place_word(place: Place) -> usize
    requires { place_word (state_of place) ≤ 2001 }
    ensures { result ≡ place_word (state_of place) }
{
    match place {
        Place::Stopped => 0,
        Place::Brace => 1,
        Place::Row(row) => row.0 + 2,
    }
}

// The walk call. The value is the place: 0 stopped, 1 the closing brace, 2 + the row.
#[unsafe(no_mangle)]
pub extern "C" fn zesthull_walk(
    rows: &[u32],
    pairs: &[u32],
    bytes: &[u8],
    choices: &[u32],
    limit: usize,
    value: &mut usize,
    steps: &mut usize,
    used: &mut usize,
) -> u32
    ensures number { result ≡ (told_walk steps.old used.old
        (walk_call rows.now pairs.now bytes.now choices.now limit)).0 }
    ensures value { value.new ≡ (told_walk steps.old used.old
        (walk_call rows.now pairs.now bytes.now choices.now limit)).1 }
    ensures steps { steps.new ≡ (told_walk steps.old used.old
        (walk_call rows.now pairs.now bytes.now choices.now limit)).2 }
    ensures used { used.new ≡ (told_walk steps.old used.old
        (walk_call rows.now pairs.now bytes.now choices.now limit)).3 }
{
    match runner::walk(rows, pairs, bytes, choices, limit) {
        Ok(end) => {
            *steps = end.steps;
            *used = end.used;
            answered(place_word(end.place), value)
        }
        Err(refusal) => refused(refusal, value),
    }
}

// The bytes of a name, as a part of the caller's own: its length, and where it starts through
// `offset`; 0 and 0 where there is no such name.
#[unsafe(no_mangle)]
pub extern "C" fn zesthull_name(
    pairs: &[u32],
    bytes: &[u8],
    number: usize,
    offset: &mut usize,
) -> usize
    ensures length { result ≡ (told_name pairs.now bytes.now number).1 }
    ensures offset { offset.new ≡ (told_name pairs.now bytes.now number).0 }
{
    *offset = 0;
    if !names::names_ok(pairs, bytes) {
        return 0;
    }
    if number == 0 {
        return 0;
    }
    if pairs.len() / 2 < number {
        return 0;
    }
    let at = (number - 1) * 2;
    *offset = pairs[at] as usize;
    pairs[at + 1] as usize
}

// The version of the calls: this is its one place. CHANGELOG.md says what each version changed.
const MAJOR: u32 = 0;

const MINOR: u32 = 12;

const PATCH: u32 = 0;

// The version as one number: three digits each for minor and patch.
#[unsafe(no_mangle)]
pub extern "C" fn zesthull_version() -> u32 {
    MAJOR * 1000000 + MINOR * 1000 + PATCH
}
