// The parts of the output: the sheet, the bindings, the placing, the verdict and the refusal. Each
// function puts its part at `at` and answers where it ends.
#![tactic(auto)]

pub mod text;

ghost use Rattle.std.specs.Prelude.{◌≡◌, ◌+◌, ◌*◌, ◌≤◌, ◌<◌, length, take};
ghost use Rattle.io.specs.Counts.{IsPrefixLen};
ghost use Rattle.rows.specs.Found.{row_found};
ghost use Rattle.report_lines.specs.Text.{bind_line, binds_text, placed_text, verdict_text, refused_text};
ghost use Rattle.report_lines.specs.Wrote.{Wrote};
ghost use Rattle.report_lines.specs.Lines.{sheet_line, sheet_lines, bound_below};

use rows::RowNumber;

// Row `row` of the sheet, as a line: at most 44 bytes.
fn fault_line(sheet: &[u32], row: usize, out: &mut [u8], at: usize) -> usize
    requires { (row * 4 + 4 ≤ length sheet.now) × (at + 54 ≤ length out.old) }
    ensures text { Wrote out.old out.new at (sheet_line sheet.now row) result }
    ensures most { result ≤ at + 44 }
{
    let i = row * 4;
    let code = text::word_and(sheet[i], b' ', out, at);
    let position = text::word_and(sheet[i + 1], b' ', out, code);
    let name = text::word_and(sheet[i + 2], b' ', out, position);
    text::word_and(sheet[i + 3], b'\n', out, name)
}

// The sheet: its count, and a line a row.
#[tactic(auto, using(crate::proofs::Parts::one_line), unfolding(crate::specs::Lines::sheet_lines, rules::specs::Labels::each))]
pub fn sheet_text(sheet: &[u32], count: usize, out: &mut [u8], at: usize) -> usize
    requires { (count * 4 ≤ length sheet.now) × (at + 37 + count * 44 ≤ length out.old) }
    ensures text { Wrote out.old out.new at (sheet_lines sheet.now count) result }
    ensures most { result ≤ at + 27 + count * 44 }
{
    let mut end = text::title(b"sheet ", count, out, at);
    for i in 0..count {
        end = fault_line(sheet, i, out, end);
    }
    end
}

// How many rows are bound.
fn bound_count(bindings: &[u32]) -> usize
    ensures { result ≡ bound_below bindings.now (length bindings.now) }
{
    bindings.iter().filter(|word| **word != 0).count()
}

// The row and the row of its label, as a line, where the row is bound: at most 16 bytes.
#[tactic(auto, using(crate::proofs::Decimals::row_length))]
fn bind_line(bindings: &[u32], row: usize, out: &mut [u8], at: usize) -> usize
    requires { (row < length bindings.now) × ((length bindings.now ≤ 2000) × (at + 26 ≤ length out.old)) }
    ensures text { Wrote out.old out.new at (bind_line bindings.now row) result }
    ensures most { result ≤ at + 16 }
{
    let word = bindings[row];
    if word == 0 {
        return at;
    }
    let end = text::number_and(row as u64, b' ', out, at);
    text::word_and(word - 1, b'\n', out, end)
}

// The bindings: how many rows are bound, and a line for each.
#[tactic(auto, using(crate::proofs::Parts::one_line), unfolding(crate::specs::Text::binds_text, crate::specs::Lines::bound_below, rules::specs::Labels::each))]
pub fn binds_text(bindings: &[u32], out: &mut [u8], at: usize) -> usize
    requires { (length bindings.now ≤ 2000) × (at + 37 + length bindings.now * 16 ≤ length out.old) }
    ensures text { Wrote out.old out.new at (binds_text bindings.now) result }
    ensures most { result ≤ at + 27 + length bindings.now * 16 }
{
    let mut end = text::title(b"binds ", bound_count(bindings), out, at);
    for row in 0..bindings.len() {
        end = bind_line(bindings, row, out, end);
    }
    end
}

// Whether all rows are well placed, and the first that isn't.
pub fn placed_text(placed: Option<RowNumber>, out: &mut [u8], at: usize) -> usize
    requires { at + 31 ≤ length out.old }
    ensures text { Wrote out.old out.new at (placed_text (row_found placed)) result }
    ensures most { result ≤ at + 31 }
{
    match placed {
        Some(row) => text::title(b"placed no ", row.0, out, at),
        None => text::bytes(b"placed yes\n", out, at),
    }
}

// The verdict.
pub fn verdict_text(terminating: bool, out: &mut [u8], at: usize) -> usize
    requires { at + 12 ≤ length out.old }
    ensures text { Wrote out.old out.new at (verdict_text terminating) result }
    ensures most { result ≤ at + 12 }
{
    if terminating {
        text::bytes(b"verdict yes\n", out, at)
    } else {
        text::bytes(b"verdict no\n", out, at)
    }
}

// A refusal: its number and its index. This is the whole output.
pub fn refused_text(number: u32, index: usize, out: &mut [u8]) -> usize
    requires { 40 ≤ length out.old }
    ensures text { take result out.new ≡ refused_text number index }
    ensures counts { IsPrefixLen result out.new }
{
    let named = text::bytes(b"refused ", out, 0);
    let end = text::word_and(number, b' ', out, named);
    text::number_and(index as u64, b'\n', out, end)
}
