// What the program `marks` prints for the file of a body, as bytes.
#![tactic(auto)]

ghost use Rattle.std.specs.Prelude.{◌≡◌, ◌++◌, ◌*◌, ◌≤◌, length as length_of, take};
ghost use Rattle.io.specs.Counts.{IsPrefixLen};
ghost use Rattle.bodyfile.specs.File.{row_words_of, pair_words_of, name_bytes};
ghost use Rattle.rows.specs.Found.{row_found};
ghost use Rattle.report_lines.specs.Text.{binds_text, placed_text, verdict_text};
ghost use Rattle.report.specs.Text.{body_text};
ghost use Rattle.report_lines.specs.Lines.{sheet_lines};
ghost use Rattle.bodyfile.specs.Limits.{said, Within};
ghost use Rattle.report.specs.Start.{start_text};

use marking::Marks;

// The longest file of a body that isn't refused for its counts: 2,000 rows, 500 names, 8,000 bytes.
pub const LONGEST: usize = 52012;

// Room for the longest output: for each of 2,000 rows two sheet lines of at most 44 bytes and a bind
// line of at most 16, and some short lines.
pub const ROOM: usize = 210000;

// The output for a body that isn't refused, from its sheet, its bindings, a word a row, and its marks.
fn marked_text(sheet: &[u32], bindings: &[u32], marks: Marks, out: &mut [u8]) -> usize
    requires faults { marks.faults * 4 ≤ length_of sheet.now }
    requires rows { (length_of sheet.now ≤ 16000) × (length_of bindings.now ≤ 2000) }
    requires room { 210000 ≤ length_of out.old }
    ensures text { take result out.new ≡ sheet_lines sheet.now marks.faults ++ binds_text bindings.now ++ placed_text
        (row_found marks.placed) ++ verdict_text marks.terminating }
    ensures counts { IsPrefixLen result out.new }
{
    let sheet_end = report_lines::sheet_text(sheet, marks.faults, out, 0);
    let binds_end = report_lines::binds_text(bindings, out, sheet_end);
    let placed_end = report_lines::placed_text(marks.placed, out, binds_end);
    report_lines::verdict_text(marks.terminating, out, placed_end)
}

// The output for a body whose words are lent.
fn body_text(rows: &[u32], pairs: &[u32], bytes: &[u8], out: &mut [u8]) -> usize
    requires rows { length_of rows.now ≤ 10000 }
    requires room { 210000 ≤ length_of out.old }
    ensures text { take result out.new ≡ body_text rows.now pairs.now bytes.now }
    ensures counts { IsPrefixLen result out.new }
{
    let mut sheet = [0u32; 16000];
    let mut bindings = [0u32; 2000];
    let count = rows.len() / 5;
    match marking::mark(rows, pairs, bytes, &mut sheet, &mut bindings) {
        Ok(marks) => marked_text(&sheet, &bindings[..count], marks, out),
        Err(refusal) => report_lines::refused_text(refusal.number(), refusal.index(), out),
    }
}

// The output for a file whose counts are within their limits and that has the length it says; its
// words go into the two slices.
fn decoded_text(file: &[u8], row_words: &mut [u32], pair_words: &mut [u32], out: &mut [u8]) -> usize
    requires counts { Within file.now }
    requires said { length_of file.now ≡ said file.now }
    requires words { (10000 ≤ length_of row_words.old) × (1000 ≤ length_of pair_words.old) }
    requires room { 210000 ≤ length_of out.old }
    ensures text { take result out.new ≡ body_text (row_words_of file.now) (pair_words_of file.now) (name_bytes file.now) }
    ensures counts { IsPrefixLen result out.new }
{
    let rows = bodyfile::word(file, 0) as usize * 5;
    let pairs = bodyfile::word(file, 4) as usize * 2;
    let pairs_from = 12 + rows * 4;
    let bytes_from = pairs_from + pairs * 4;
    bodyfile::words(file, 12, &mut row_words[..rows]);
    bodyfile::words(file, pairs_from, &mut pair_words[..pairs]);
    body_text(
        &row_words[..rows],
        &pair_words[..pairs],
        &file[bytes_from..],
        out,
    )
}

// The same, with room for the words of the longest file.
fn file_text(file: &[u8], out: &mut [u8]) -> usize
    requires counts { Within file.now }
    requires said { length_of file.now ≡ said file.now }
    requires room { 210000 ≤ length_of out.old }
    ensures text { take result out.new ≡ body_text (row_words_of file.now) (pair_words_of file.now) (name_bytes file.now) }
    ensures counts { IsPrefixLen result out.new }
{
    let mut row_words = [0u32; 10000];
    let mut pair_words = [0u32; 1000];
    decoded_text(file, &mut row_words, &mut pair_words, out)
}

// The output for the file of a body, of which `file` is the whole, or the first 52,012 bytes where
// it is longer; `length` is the length of the whole.
pub fn report(file: &[u8], length: u64, out: &mut [u8; ROOM]) -> usize
    ensures text { take result out.new ≡ start_text file.now length }
    ensures counts { IsPrefixLen result out.new }
{
    if bodyfile::bad_start(file, length) {
        return report_lines::refused_text(0, 0, out);
    }
    if let Some(refusal) = bodyfile::count_refusal(file) {
        return report_lines::refused_text(refusal.number(), refusal.index(), out);
    }
    // Never so of a file's first 52,012 bytes: a file within the limits is no longer.
    if file.len() as u64 != length {
        return report_lines::refused_text(0, 0, out);
    }
    file_text(file, out)
}
