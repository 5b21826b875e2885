// Rows, pairs and names, made by loops.
use rows::details::Branch;
use rows::kinds::Kind;

// A row; its position is 1.
#[derive(Clone, Copy, Debug, PartialEq, Eq)]
pub struct Row {
    pub kind: u32,
    pub detail: u32,
    pub name: u32,
    pub size: u32,
}

impl Row {
    pub fn new(kind: Kind, detail: u32, name: u32, size: u32) -> Row {
        Row {
            kind: u32::from(kind),
            detail,
            name,
            size,
        }
    }

    pub fn branch(branch: Branch, name: u32) -> Row {
        Row::new(Kind::Branch, u32::from(branch), name, 1)
    }

    // The default clause of a switch.
    pub fn default_case(size: u32) -> Row {
        Row::new(Kind::Case, 1, 0, size)
    }

    fn words(self) -> [u32; 5] {
        [self.kind, self.detail, 1, self.name, self.size]
    }
}

// Row numbers: the first, the step from each to the next, and how many there are.
#[derive(Clone, Copy, Debug, PartialEq, Eq)]
pub struct Run {
    pub first: usize,
    pub step: usize,
    pub count: usize,
}

impl Run {
    pub fn new(first: usize, step: usize, count: usize) -> Run {
        Run { first, step, count }
    }
}

// Rows that are alike, where there is room, but that each has a name larger by `more` and a size
// smaller by `less` than the one before.
pub fn rows(words: &mut [u32], run: Run, row: Row, more: u32, less: u32) {
    let mut next = row;
    let mut at = run.first;
    for _ in 0..run.count {
        if let Some(place) = words.chunks_exact_mut(5).nth(at) {
            place.copy_from_slice(&next.words());
        }
        next.name = next.name.wrapping_add(more);
        next.size = next.size.wrapping_sub(less);
        at = at.wrapping_add(run.step);
    }
}

pub fn one_row(words: &mut [u32], number: usize, row: Row) {
    rows(words, Run::new(number, 1, 1), row, 0, 0);
}

// Pairs of names of one length, one after the other, as many as there is room for.
pub fn pairs(pairs: &mut [u32], length: u32) {
    let mut offset = 0u32;
    for pair in pairs.chunks_exact_mut(2) {
        pair.copy_from_slice(&[offset, length]);
        offset = offset.wrapping_add(length);
    }
}

// The names zz, zy .. zb, yz, yy .. : each comes before the last in the order of bytes.
pub fn names(bytes: &mut [u8]) {
    for (i, byte) in bytes.iter_mut().enumerate() {
        let back = if i % 2 == 0 { i / 50 % 25 } else { i / 2 % 25 };
        *byte = b'z' - back as u8;
    }
}
