// What a line of the list is.

// What an answer line asks for.
#[derive(Clone, Copy, Debug, PartialEq, Eq)]
pub enum Question {
    Refusal,
    Placed,
    Verdict,
    Sheet,
    Bindings,
}

// A line, with what stands after its first word.
#[derive(Clone, Copy, Debug, PartialEq, Eq)]
pub enum Kind<'l> {
    Rows(&'l [u8]),
    Pairs(&'l [u8]),
    Bytes(&'l [u8]),
    Asks(Question),
    Walk(&'l [u8]),
    Empty,
    Remark,
}

// What stands after the first word of the line, if that is this one: nothing, or a blank and more.
fn after<'l>(line: &'l [u8], word: &[u8]) -> Option<&'l [u8]> {
    let rest = line.strip_prefix(word)?;
    match rest.first() {
        None | Some(b' ') => Some(rest),
        Some(_) => None,
    }
}

// The answer that a line asks for.
fn question_of(line: &[u8]) -> Option<Question> {
    if after(line, b"refusal").is_some() {
        return Some(Question::Refusal);
    }
    if after(line, b"placed").is_some() {
        return Some(Question::Placed);
    }
    if after(line, b"verdict").is_some() {
        return Some(Question::Verdict);
    }
    if after(line, b"sheet").is_some() {
        return Some(Question::Sheet);
    }
    if after(line, b"bindings").is_some() {
        return Some(Question::Bindings);
    }
    None
}

pub fn kind_of(line: &[u8]) -> Kind<'_> {
    match line.first() {
        None => return Kind::Empty,
        Some(b'0'..=b'9') => return Kind::Rows(line),
        Some(_) => (),
    }
    if let Some(rest) = after(line, b"pairs") {
        return Kind::Pairs(rest);
    }
    if let Some(rest) = after(line, b"bytes") {
        return Kind::Bytes(rest);
    }
    if let Some(rest) = after(line, b"walk") {
        return Kind::Walk(rest);
    }
    match question_of(line) {
        Some(question) => Kind::Asks(question),
        None => Kind::Remark,
    }
}
