// Where a byte is found.
ghost use Rattle.std.specs.Prelude.{◌≡◌, ◌≢◌, ℕ, ◌<◌, ◌≤◌, length, slice_index};

// The index of the first such byte from `from` on, or the length of the text where there is none.
pub fn find(text: &[u8], from: usize, byte: u8) -> usize
    requires { from ≤ length text.now }
    ensures start { from ≤ result }
    ensures end { result ≤ length text.now }
    ensures before { (k : ℕ) → from ≤ k → k < result → slice_index text.now k ≢ byte }
    ensures found { result < length text.now → slice_index text.now result ≡ byte }
{
    for i in from..text.len() {
        if text[i] == byte {
            return i;
        }
    }
    text.len()
}
