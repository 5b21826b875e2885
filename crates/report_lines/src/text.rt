// Putting bytes and numbers one behind the other. Each function answers where its bytes end.
ghost use Rattle.std.specs.Prelude.{[], ◌∷◌, ◌++◌, ◌+◌, ◌≤◌, length};
ghost use Rattle.report_lines.specs.Text.{decimal, line};
ghost use Rattle.report_lines.specs.Wrote.{Wrote};

// Puts the bytes at `at`.
pub fn bytes(text: &[u8], out: &mut [u8], at: usize) -> usize
    requires { at + length text.now ≤ length out.old }
    ensures { Wrote out.old out.new at text.now result }
{
    let end = at + text.len();
    out[at..end].copy_from_slice(text);
    end
}

// Puts the number in decimal. No number takes more than 20 digits.
pub fn number(n: u64, out: &mut [u8], at: usize) -> usize
    requires { at + 20 ≤ length out.old }
    ensures { Wrote out.old out.new at (decimal n) result }
{
    let mut text = [0u8; 20];
    let k = io::decimal(n, &mut text);
    bytes(&text[..k], out, at)
}

// Puts the number and the byte that follows it, a blank or the line's end.
#[tactic(auto, using(crate::proofs::Decimals::decimal_twenty))]
pub fn number_and(n: u64, after: u8, out: &mut [u8], at: usize) -> usize
    requires { at + 21 ≤ length out.old }
    ensures { Wrote out.old out.new at (decimal n ++ after ∷ []) result }
{
    let end = number(n, out, at);
    bytes(&[after], out, end)
}

// Puts a word of 32 bits and the byte that follows it: at most 11 bytes.
#[tactic(auto, using(crate::proofs::Decimals::word_length))]
pub fn word_and(word: u32, after: u8, out: &mut [u8], at: usize) -> usize
    requires { at + 21 ≤ length out.old }
    ensures text { Wrote out.old out.new at (decimal word ++ after ∷ []) result }
    ensures most { result ≤ at + 11 }
{
    number_and(u64::from(word), after, out, at)
}

// Puts a line that is some bytes and a number.
#[tactic(auto, using(crate::proofs::Decimals::any_length))]
pub fn title(heading: &[u8], n: usize, out: &mut [u8], at: usize) -> usize
    requires { at + length heading.now + 21 ≤ length out.old }
    ensures text { Wrote out.old out.new at (heading.now ++ line (n ∷ [])) result }
    ensures most { result ≤ at + length heading.now + 21 }
{
    let end = bytes(heading, out, at);
    number_and(n as u64, b'\n', out, end)
}
