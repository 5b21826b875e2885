// The canonical number of each name: the first name number with the same bytes. Two names have the
// same canonical number exactly when their bytes are the same. Each name belongs to a slot by its
// hash, and the names of a slot are linked, so that a name is compared with those of its slot only.
#![tactic(auto)]

ghost use Rattle.std.specs.Prelude.{◌≡◌, true, ℕ, suc, ◌≤◌, ◌<◌, length, get_or, set, replicate};
ghost use Rattle.rules.specs.Names.{count_of_pairs};
ghost use Rattle.canonical.specs.First.{first, Numbered};
ghost use Rattle.canonical.specs.Hash.{hash as hash_of, slot_of};
ghost use Rattle.canonical.specs.Linked.{hash_at, Linked};

use names::{NameNumber, Names};

// The hash of a name, from its last byte to its first.
fn hash(name: &[u8]) -> u32
    ensures { result ≡ hash_of name.now }
{
    name.iter().rev().fold(
        0,
        |h: u32, byte| h.wrapping_mul(37).wrapping_add(u32::from(*byte)),
    )
}

// The tables of the names by slot: `heads` leads from a slot to the latest of its names,
// `next_in_slot` from a name to the one before it in its slot, and `keys` has the hash of a name.
#[derive(Drop)]
struct Slots<const SLOTS: usize, const NAMES: usize> {
    heads: [u16; SLOTS],
    next_in_slot: [u16; NAMES],
    keys: [u32; NAMES],
}

impl<const SLOTS: usize, const NAMES: usize> Slots<SLOTS, NAMES> {
    // Slots without names.
    fn new() -> Slots<SLOTS, NAMES>
        ensures { (result.heads ≡ replicate SLOTS 0) × (result.next_in_slot ≡ replicate NAMES 0) × (result.keys ≡ replicate NAMES 0) }
    {
        Slots {
            heads: [0; SLOTS],
            next_in_slot: [0; NAMES],
            keys: [0; NAMES],
        }
    }

    // The canonical number of the name after the first `n`, which has this hash.
    fn first_same(&self, names: Names<'_, '_>, numbers: &[u32], n: usize, key: u32) -> u32
        requires some_slots { 0 < SLOTS }
        requires room { (n < count_of_pairs names.pairs.now) × (count_of_pairs names.pairs.now < NAMES) × (count_of_pairs names.pairs.now < length numbers.now) }
        requires linked { Linked names.pairs.now names.bytes.now SLOTS n self.now.heads self.now.next_in_slot self.now.keys numbers.now }
        requires hashed { key ≡ hash_at names.pairs.now names.bytes.now n }
        ensures { result ≡ first names.entry.pairs.now names.entry.bytes.now (suc n) }
    {
        let mut m = usize::from(self.heads[key as usize % SLOTS]);
        while 0 < m {
            if self.keys[m] == key && names.same(NameNumber(m), NameNumber(n + 1)) {
                return numbers[m];
            }
            m = usize::from(self.next_in_slot[m]);
        }
        n as u32 + 1
    }

    // Makes a name with this hash the latest of its slot.
    fn link(&mut self, name: usize, key: u32)
        requires some_slots { 0 < SLOTS }
        requires name_fits { (name < NAMES) × (name < 65536) }
        ensures heads { self.new.heads ≡ set self.old.heads (slot_of SLOTS key) name }
        ensures next_in_slot { self.new.next_in_slot ≡ set self.old.next_in_slot name (get_or self.old.heads (slot_of SLOTS key) 0) }
        ensures keys { self.new.keys ≡ set self.old.keys name key }
    {
        let slot = key as usize % SLOTS;
        self.keys[name] = key;
        self.next_in_slot[name] = self.heads[slot];
        self.heads[slot] = name as u16;
    }
}

// Writes the canonical number of each name at its number, with so many slots and room for the names
// below `NAMES`.
fn numbers_with<const SLOTS: usize, const NAMES: usize>(names: Names<'_, '_>, numbers: &mut [u32])
    requires sizes { (0 < SLOTS) × (SLOTS ≤ 512) × (NAMES ≤ 512) }
    requires room { (count_of_pairs names.pairs.now < NAMES) × (count_of_pairs names.pairs.now < length numbers.old) }
    ensures { Numbered names.entry.pairs.now names.entry.bytes.now numbers.old numbers.new }
{
    let mut slots = Slots::<SLOTS, NAMES>::new();
    for n in 0..names.count() {
        let name = n + 1;
        let key = hash(names.bytes_of(NameNumber(name)));
        numbers[name] = slots.first_same(names, numbers, n, key);
        slots.link(name, key);
    }
}

// The canonical number of each name of the body at the name's number; the other words stay. Most
// bodies have few names, and large tables cost time to make.
pub fn canonical_numbers(names: Names<'_, '_>, numbers: &mut [u32])
    requires { count_of_pairs names.pairs.now < length numbers.old }
    ensures { Numbered names.entry.pairs.now names.entry.bytes.now numbers.old numbers.new }
{
    if names.count() < 32 {
        numbers_with::<32, 32>(names, numbers);
    } else {
        numbers_with::<512, 501>(names, numbers);
    }
}
