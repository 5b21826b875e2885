// The file of a body, as `marks` reads it: three counts (rows, names, name bytes), then the row
// words, the pair words and the name bytes. Words have 32 bits and are little-endian.
#![tactic(auto)]

ghost use Rattle.std.specs.Prelude.{◌≡◌, ◌+◌, ◌*◌, ◌≤◌, length};
ghost use Rattle.bodyfile.specs.Limits.{bad_start, count_refusal, number};
ghost use Rattle.bodyfile.specs.File.{word as word_at, words as words_at, rows, names, bytes};

use refusals::Refusal;

// The word whose first byte is at `at`.
pub fn word(file: &[u8], at: usize) -> u32
    requires { at + 4 ≤ length file.now }
    ensures { result ≡ word_at file.now at }
{
    u32::from_le_bytes([file[at], file[at + 1], file[at + 2], file[at + 3]])
}

// Writes the words from `from` on, as many as `out` has room for.
#[tactic(auto, using(crate::proofs::Read::no_words, crate::proofs::Read::one_word))]
pub fn words(file: &[u8], from: usize, out: &mut [u32])
    requires { from + length out.old * 4 ≤ length file.now }
    ensures { out.new ≡ words_at file.now from (length out.old) }
{
    for (k, place) in out.iter_mut().enumerate() {
        *place = word(file, from + k * 4);
    }
}

// The length of the file that its header says.
pub fn said_length(file: &[u8]) -> u64
    requires { 12 ≤ length file.now }
    ensures { result ≡ 12 + rows file.now * 20 + names file.now * 8 + bytes file.now }
{
    12 + u64::from(word(file, 0)) * 20 + u64::from(word(file, 4)) * 8 + u64::from(word(file, 8))
}

// Refusal 0: no header, or another length than it says.
#[tactic(auto, using(std::proofs::lemmas::Bool::Decides::nat_tests), unfolding(crate::specs::Limits::bad_start))]
pub fn bad_start(file: &[u8], total: u64) -> bool
    ensures { result ≡ bad_start file.now total }
{
    file.len() < 12 || said_length(file) != total
}

// The refusal that the counts decide, of the rows or of the names and their bytes; none where they are
// within their limits.
#[tactic(auto, using(std::proofs::lemmas::Bool::Decides::nat_tests), unfolding(crate::specs::Limits::count_refusal))]
pub fn count_refusal(file: &[u8]) -> Option<Refusal>
    requires { 12 ≤ length file.now }
    ensures { number result ≡ count_refusal file.now }
{
    let rows = word(file, 0);
    if rows == 0 || 2000 < rows {
        return Some(Refusal::RowWords);
    }
    if 500 < word(file, 4) || 8000 < word(file, 8) {
        return Some(Refusal::NameWords);
    }
    None
}
