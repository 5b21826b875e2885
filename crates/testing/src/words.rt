// The numbers of a line.

// The number that these digits are; none where a byte is no digit, or where it is larger than
// 4,294,967,295.
fn number(digits: &[u8]) -> Option<u32> {
    let mut value = 0u32;
    for byte in digits {
        let digit = char::from(*byte).to_digit(10)?;
        value = value.checked_mul(10)?.checked_add(digit)?;
    }
    Some(value)
}

// Puts the numbers of a line after the first `count` words, and answers how many words there are
// then. It answers none if there is no room for a number, or if the line has something other than
// numbers and blanks.
pub fn append(words: &mut [u32], count: usize, line: &[u8]) -> Option<usize> {
    let mut n = count;
    for digits in line.split(|byte| *byte == b' ') {
        if !digits.is_empty() {
            *words.get_mut(n)? = number(digits)?;
            n += 1;
        }
    }
    Some(n)
}
