// Names: pairs of offset and length into the name bytes. Their causes of refusal, the bytes of a
// name as a part of the caller's own, and equality and order by bytes.
#![tactic(auto)]

pub mod order;

ghost use Rattle.std.specs.Prelude.{◌≡◌, true, ◌↔◌, IfSome, IsSome};
ghost use Rattle.rules.specs.Scan.{lowest};
ghost use Rattle.rules.specs.Names.{count_of_pairs, bad_name_words, bad_pair, names_ok, name_bytes, same_name};
ghost use Rattle.names.specs.Place.{place};

// A name number: 0 for none, n from 1 for the n-th pair. Never a row number.
#[derive(Clone, Copy, Debug, PartialEq, Eq)]
pub struct NameNumber(pub usize);

// The names of a body: pairs and bytes that neither cause 2 nor cause 3 refuses.
#[derive(Clone, Copy)]
pub struct Names<'p, 'b> {
    pub pairs: &'p [u32],
    pub bytes: &'b [u8],
    ghost ok: { names_ok pairs.now bytes.now ≡ true },
}

// Cause 2: odd pair words, over 500 pairs, or over 8,000 name bytes.
pub fn bad_name_words(pairs: &[u32], bytes: &[u8]) -> bool
    ensures { result ≡ bad_name_words pairs.now bytes.now }
{
    if pairs.len() % 2 != 0 {
        return true;
    }
    if 500 < pairs.len() / 2 {
        return true;
    }
    8000 < bytes.len()
}

// Cause 3: the first pair with length 0, starting before the previous end, or ending past the bytes.
pub fn first_bad_pair(pairs: &[u32], bytes: &[u8]) -> Option<usize>
    ensures { place result ≡ lowest (bad_pair pairs.now bytes.now) (count_of_pairs pairs.now) }
{
    let mut previous_end = 0;
    for i in 0..pairs.len() / 2 {
        let offset = pairs[i * 2] as usize;
        let len = pairs[i * 2 + 1] as usize;
        if len == 0 {
            return Some(i);
        }
        if offset < previous_end {
            return Some(i);
        }
        let end = offset + len;
        if bytes.len() < end {
            return Some(i);
        }
        previous_end = end;
    }
    None
}

// Neither cause 2 nor cause 3.
pub fn names_ok(pairs: &[u32], bytes: &[u8]) -> bool
    ensures { result ≡ names_ok pairs.now bytes.now }
{
    if bad_name_words(pairs, bytes) {
        return false;
    }
    first_bad_pair(pairs, bytes).is_none()
}

impl<'p, 'b> Names<'p, 'b> {
    // The names of these pairs and bytes, unless cause 2 or 3 refuses them.
    pub fn new(pairs: &'p [u32], bytes: &'b [u8]) -> Option<Names<'p, 'b>>
        ensures some { IsSome result ↔ (names_ok pairs.now bytes.now ≡ true) }
        ensures lent { IfSome result (λ names. (names.pairs ≡ pairs.entry) × (names.bytes ≡ bytes.entry)) }
    {
        if names_ok(pairs, bytes) {
            Some(Names { pairs, bytes })
        } else {
            None
        }
    }

    // How many names there are.
    pub fn count(self) -> usize
        ensures { result ≡ count_of_pairs self.entry.pairs.now }
    {
        self.pairs.len() / 2
    }

    // The bytes of a name; an empty part for number 0 and for a number past the last pair.
    pub fn bytes_of(self, name: NameNumber) -> &'b [u8]
        ensures { result.now ≡ name_bytes self.entry.pairs.now self.entry.bytes.now name.0 }
    {
        let n = name.0;
        if n == 0 {
            return &self.bytes[0..0];
        }
        if self.pairs.len() / 2 < n {
            return &self.bytes[0..0];
        }
        let at = (n - 1) * 2;
        let offset = self.pairs[at] as usize;
        let end = offset + self.pairs[at + 1] as usize;
        &self.bytes[offset..end]
    }

    // Whether two numbers have the same name: the same bytes, whatever the numbers.
    pub fn same(self, a: NameNumber, b: NameNumber) -> bool
        ensures { result ≡ same_name self.entry.pairs.now self.entry.bytes.now a.0 b.0 }
    {
        order::same_bytes(self.bytes_of(a), self.bytes_of(b))
    }
}

// The bytes of a name, as a part of the caller's own; an empty part for number 0, for a number past
// the last pair, and for pairs or bytes that cause 2 or 3 refuses.
pub fn name_bytes<'p, 'b>(pairs: &'p [u32], bytes: &'b [u8], name: NameNumber) -> &'b [u8]
    ensures { result.now ≡ name_bytes pairs.now bytes.now name.0 }
{
    match Names::new(pairs, bytes) {
        Some(names) => names.bytes_of(name),
        None => &bytes[0..0],
    }
}
