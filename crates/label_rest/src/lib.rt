// What is left at the end of the walk: gotos without a label, and labels that nothing used.
#![tactic(auto)]

ghost use Rattle.std.specs.Prelude.{◌≡◌, ℕ, suc, ◌*◌, ◌≤◌, ◌<◌, length, get_or, take};
ghost use Rattle.rules.specs.Rows.{row_count, kind};
ghost use Rattle.rules.specs.Names.{count_of_pairs};
ghost use Rattle.rules.specs.Labels.{sheet as sheet_of};
ghost use Rattle.sorting.specs.Sorted.{Sorted};
ghost use Rattle.tables.specs.Canon.{CanonTable, DeclaredTable};
ghost use Rattle.walk_state.specs.Walk.{binding_at};
ghost use Rattle.label_rest.specs.Left.{Left, LeftOver};
ghost use Rattle.label_rest.specs.Rest.{Reported, AtEnd, UsedTable, UnusedTo, faults_left};

use body::Body;
use rows::RowNumber;
use rows::details::Branch;
use rows::kinds::Kind;
use sheet::Code;

// Marks the declared label of the branch as used, or reports a goto that is still pending: 7 if its
// name is declared, which counts as use, else 8.
fn unresolved_at(
    body: Body<'_>,
    canonical: &[u32],
    label_rows: &[u16],
    sheet: &mut [u32],
    bound: u32,
    used: &mut [u8],
    row: RowNumber,
    faults: usize,
) -> usize
    requires body { CanonTable body.pairs.now body.bytes.now canonical.now
        × DeclaredTable body.rows.now body.pairs.now body.bytes.now label_rows.now }
    requires row_bound { (row.0 < row_count body.rows.now) × (kind body.rows.now row.0 ≡ 11)
        × (bound ≡ binding_at body.rows.now body.pairs.now body.bytes.now (row_count body.rows.now) row.0) }
    requires left { Left body.rows.now body.pairs.now body.bytes.now row.0 faults sheet.old used.old }
    ensures { LeftOver body.entry.rows.now body.entry.pairs.now body.entry.bytes.now (suc row.0) result sheet.old sheet.new
        used.new }
{
    let c = tables::canon_of(body.rows, canonical, row);
    if bound != 0 {
        if bound == u32::from(label_rows[c]) {
            used[c] = 1;
        }
        return faults;
    }
    if rows::branch_at(body.rows, row) != Branch::Goto {
        return faults;
    }
    if c != 0 && label_rows[c] != 0 {
        used[c] = 1;
        sheet::report(body.rows, sheet, faults, Code::GotoIntoBlock, row, 0);
        return faults + 1;
    }
    sheet::report(body.rows, sheet, faults, Code::NotDeclared, row, 0);
    faults + 1
}

// 7 and 8 in row order, and which declared labels are used, by canonical number.
pub fn unresolved(
    body: Body<'_>,
    canonical: &[u32],
    label_rows: &[u16],
    sheet: &mut [u32],
    bindings: &[u32],
    used: &mut [u8],
    faults: usize,
) -> usize
    requires body { CanonTable body.pairs.now body.bytes.now canonical.now
        × DeclaredTable body.rows.now body.pairs.now body.bytes.now label_rows.now }
    requires at_end { AtEnd body.rows.now body.pairs.now body.bytes.now faults sheet.old bindings.now × (count_of_pairs body.pairs.now < length used.old)
        × ((c : ℕ) → get_or used.old c 0 ≡ 0) }
    ensures sheet { Reported result (faults_left body.entry.rows.now body.entry.pairs.now body.entry.bytes.now) sheet.old sheet.new }
    ensures used { UsedTable body.entry.rows.now body.entry.pairs.now body.entry.bytes.now used.new }
{
    let mut at = faults;
    for r in 0..body.rows.len() / 5 {
        let row = RowNumber(r);
        if rows::kind_at(body.rows, row) == Kind::Branch {
            at = unresolved_at(
                body,
                canonical,
                label_rows,
                sheet,
                bindings[r],
                used,
                row,
                at,
            );
        }
    }
    at
}

// Writes the canonical numbers of the labels that nothing used to the start of `names`. It answers
// how many they are.
fn unused_names(body: Body<'_>, label_rows: &[u16], used: &[u8], names: &mut [u16]) -> usize
    requires body { DeclaredTable body.rows.now body.pairs.now body.bytes.now label_rows.now
        × UsedTable body.rows.now body.pairs.now body.bytes.now used.now }
    requires pairs_in_bounds { count_of_pairs body.pairs.now < length names.old }
    ensures { (result ≤ count_of_pairs body.entry.pairs.now) × (result ≤ row_count body.entry.rows.now)
        × UnusedTo body.entry.rows.now body.entry.pairs.now body.entry.bytes.now (count_of_pairs body.entry.pairs.now) (take result names.new) }
{
    let mut n = 0;
    for c in 1..body.names().count() + 1 {
        if label_rows[c] != 0 && used[c] == 0 {
            names[n] = c as u16;
            n += 1;
        }
    }
    n
}

// 9 for the label of each of the names, in their order.
fn put_unused(
    body: Body<'_>,
    label_rows: &[u16],
    names: &[u16],
    sheet: &mut [u32],
    faults: usize,
) -> usize
    requires body { DeclaredTable body.rows.now body.pairs.now body.bytes.now label_rows.now }
    requires sorted { Sorted body.pairs.now body.bytes.now names.now × UnusedTo body.rows.now body.pairs.now body.bytes.now (count_of_pairs body.pairs.now) names.now }
    requires reported { Reported faults (faults_left body.rows.now body.pairs.now body.bytes.now) sheet.old sheet.old × (row_count body.rows.now * 8 ≤ length sheet.old) }
    ensures { Reported result (sheet_of body.entry.rows.now body.entry.pairs.now body.entry.bytes.now) sheet.old sheet.new }
{
    let mut at = faults;
    for name in names {
        let declared = usize::from(label_rows[usize::from(*name)]);
        sheet::report(
            body.rows,
            sheet,
            at,
            Code::NotUsed,
            RowNumber(declared - 1),
            0,
        );
        at += 1;
    }
    at
}

// 9 for each declared label that nothing used, by name bytes. `names` and `spare` serve to sort.
pub fn unused(
    body: Body<'_>,
    label_rows: &[u16],
    used: &[u8],
    names: &mut [u16],
    spare: &mut [u16],
    sheet: &mut [u32],
    faults: usize,
) -> usize
    requires body { DeclaredTable body.rows.now body.pairs.now body.bytes.now label_rows.now
        × UsedTable body.rows.now body.pairs.now body.bytes.now used.now }
    requires pairs_in_bounds { (count_of_pairs body.pairs.now < length names.old) × (row_count body.rows.now ≤ length spare.old) }
    requires reported { Reported faults (faults_left body.rows.now body.pairs.now body.bytes.now) sheet.old sheet.old × (row_count body.rows.now * 8 ≤ length sheet.old) }
    ensures { Reported result (sheet_of body.entry.rows.now body.entry.pairs.now body.entry.bytes.now) sheet.old sheet.new }
{
    let n = unused_names(body, label_rows, used, names);
    sorting::sort(body.names(), &mut names[..n], &mut spare[..n]);
    put_unused(body, label_rows, &names[..n], sheet, faults)
}
