// The tables that the label walk reads: canonical numbers by name number, declared labels by
// canonical number, and the list of each row.
#![tactic(auto)]

ghost use Rattle.std.specs.Prelude.{◌≡◌, ℕ, ◌<◌, length, get_or};
ghost use Rattle.rules.specs.Rows.{row_count, name};
ghost use Rattle.rules.specs.Names.{count_of_pairs, is_blank};
ghost use Rattle.tables.specs.Canon.{CanonTable, DeclaredTable};

use body::Body;
use names::{NameNumber, Names};
use rows::RowNumber;
use rows::kinds::Kind;

// What the walk looks up: the canonical number of each name number, the declared label of each
// canonical number and the list of each row, both as 1 + a row, or 0.
#[derive(Clone, Copy)]
pub struct Tables<'t> {
    pub canonical: &'t [u32],
    pub label_rows: &'t [u16],
    pub lists: &'t [u16],
}

// Whether the name is `_`.
fn is_blank(names: Names<'_, '_>, name: NameNumber) -> bool
    ensures { result ≡ is_blank names.entry.pairs.now names.entry.bytes.now name.0 }
{
    names::order::same_bytes(names.bytes_of(name), b"_")
}

// The canonical number of each name, 0 for none and for `_`.
pub fn canon_table(names: Names<'_, '_>, canonical: &mut [u32])
    requires { count_of_pairs names.pairs.now < length canonical.old }
    ensures { CanonTable names.entry.pairs.now names.entry.bytes.now canonical.new }
{
    canonical::canonical_numbers(names, canonical);
    canonical[0] = 0;
    for n in 1..=names.count() {
        if is_blank(names, NameNumber(n)) {
            canonical[n] = 0;
        }
    }
}

// The canonical number of the row's name.
pub fn canon_of(rows: &[u32], canonical: &[u32], row: RowNumber) -> usize
    requires { (row.0 < row_count rows.now) × (name rows.now row.0 < length canonical.now) }
    ensures { result ≡ get_or canonical.now (name rows.now row.0) 0 }
{
    let name = rows::name(rows, row);
    canonical[name.0] as usize
}

// The declared label of each canonical number: the first Labeled row, 1 + its number. The table
// comes in with 0 for each.
pub fn declared_table(body: Body<'_>, canonical: &[u32], label_rows: &mut [u16])
    requires body { CanonTable body.pairs.now body.bytes.now canonical.now }
    requires pairs_in_bounds { (count_of_pairs body.pairs.now < length label_rows.old) × ((c : ℕ) → get_or label_rows.old c 0 ≡ 0) }
    ensures { DeclaredTable body.entry.rows.now body.entry.pairs.now body.entry.bytes.now label_rows.new }
{
    for r in 0..body.rows.len() / 5 {
        let row = RowNumber(r);
        if rows::kind_at(body.rows, row) == Kind::Labeled {
            let c = canon_of(body.rows, canonical, row);
            if c != 0 && label_rows[c] == 0 {
                label_rows[c] = (r + 1) as u16;
            }
        }
    }
}
