// A label: whether it repeats a name, and the pending gotos of its list that it resolves. The
// pending gotos of a name are linked, each to the one before it.
#![tactic(auto)]

ghost use Rattle.std.specs.Prelude.{◌≡◌, true, List, ℕ, suc, ◌+◌, ◌*◌, ◌≤◌, ◌<◌, length};
ghost use Rattle.rules.specs.Rows.{row_count};
ghost use Rattle.rules.specs.Labels.{is_label, latest_declaration, word};
ghost use Rattle.tables.specs.Canon.{Tables as HasTables};
ghost use Rattle.pending.specs.Chain.{Chain, count_over, Counting, Resolving, Resolved, Declaring};
ghost use Rattle.walk_state.specs.Walk.{Walking, Walked};

use body::Body;
use rows::RowNumber;
use sheet::Code;
use tables::Tables;

// How many of the pending gotos from `head` on that stand after row `list` jump over the latest
// declaration.
fn count_jumps_over(goto_or_label: &[u16], head: usize, list: usize, latest: usize) -> usize
    requires { Counting goto_or_label.now head list }
    ensures { (gs : List ℕ) (last : ℕ) → Chain goto_or_label.now list head gs last → result ≡ count_over latest gs }
{
    let mut over = 0;
    let mut g = head;
    while list < g {
        if g < latest {
            over += 1;
        }
        g = usize::from(goto_or_label[g - 1]);
    }
    over
}

// Binds the pending gotos from `head` on that stand after row `list` to the label, and reports those
// that jump over the latest declaration, the last of them as sheet row `end` - 1. It answers what
// is left pending of the name.
fn resolve(
    rows: &[u32],
    sheet: &mut [u32],
    bindings: &mut [u32],
    goto_or_label: &[u16],
    head: usize,
    row: RowNumber,
    list: usize,
    latest: usize,
    end: usize,
) -> usize
    requires { Resolving rows.now sheet.old bindings.old goto_or_label.now head row.0 list latest end }
    ensures { (gs : List ℕ) (last : ℕ) → Chain goto_or_label.now list head gs last
        → Resolved rows.now sheet.old bindings.old sheet.new bindings.new row.0 latest end last result gs }
{
    let mut at = end;
    let mut g = head;
    while list < g {
        bindings[g - 1] = (row.0 + 1) as u32;
        if g < latest {
            at -= 1;
            let other = rows::position(rows, RowNumber(latest - 1));
            sheet::report(
                rows,
                sheet,
                at,
                Code::JumpsOverDeclaration,
                RowNumber(g - 1),
                other,
            );
        }
        g = usize::from(goto_or_label[g - 1]);
    }
    g
}

// The label's own binding, or 1 and 2 where it repeats a name.
fn declare(
    rows: &[u32],
    sheet: &mut [u32],
    bindings: &mut [u32],
    declared: usize,
    row: RowNumber,
    faults: usize,
) -> usize
    requires row_bound { (row.0 < row_count rows.now) × (row.0 < length bindings.old) }
    requires declared_nonzero { (0 < declared) × (declared ≤ row_count rows.now) × (row_count rows.now ≤ 2000) }
    requires faults_in_bounds { (declared ≡ suc row.0 → ⊥) → faults * 4 + 8 ≤ length sheet.old }
    ensures { Declaring rows.now sheet.old bindings.old sheet.new bindings.new declared row.0
        faults result }
{
    let r = row.0;
    if declared == r + 1 {
        bindings[r] = declared as u32;
        return faults;
    }
    sheet::report(rows, sheet, faults, Code::AlreadyDeclared, row, 0);
    sheet::report(
        rows,
        sheet,
        faults + 1,
        Code::OtherDeclaration,
        RowNumber(declared - 1),
        0,
    );
    faults + 2
}

// A Labeled row, not `_`, with the latest declaration before it in its list. It answers the sheet's
// row count.
pub fn label_branches(
    body: Body<'_>,
    tables: Tables<'_>,
    sheet: &mut [u32],
    bindings: &mut [u32],
    heads: &mut [u16],
    goto_or_label: &[u16],
    row: RowNumber,
    latest: usize,
    faults: usize,
) -> usize
    requires tables { HasTables body.rows.now body.pairs.now body.bytes.now tables.canonical.now tables.label_rows.now tables.lists.now (suc row.0) }
    requires walking { Walking body.rows.now body.pairs.now body.bytes.now row.0 faults sheet.old bindings.old heads.old goto_or_label.now }
    requires row_bound { (row.0 < row_count body.rows.now) × (is_label body.rows.now body.pairs.now body.bytes.now row.0 ≡ true) }
    requires latest_value { latest ≡ word (latest_declaration body.rows.now body.pairs.now body.bytes.now row.0) }
    ensures { Walked body.entry.rows.now body.entry.pairs.now body.entry.bytes.now (suc row.0) result sheet.old bindings.old
        sheet.new bindings.new heads.new goto_or_label.now }
{
    let c = tables::canon_of(body.rows, tables.canonical, row);
    let r = row.0;
    let more = declare(
        body.rows,
        sheet,
        bindings,
        usize::from(tables.label_rows[c]),
        row,
        faults,
    );
    let list = usize::from(tables.lists[r]);
    let head = usize::from(heads[c]);
    let end = more + count_jumps_over(goto_or_label, head, list, latest);
    let left = resolve(
        body.rows,
        sheet,
        bindings,
        goto_or_label,
        head,
        row,
        list,
        latest,
        end,
    );
    heads[c] = left as u16;
    end
}
