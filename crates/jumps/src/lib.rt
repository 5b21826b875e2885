// Labelled branches: where a break, continue or goto goes.
#![tactic(auto)]

ghost use Rattle.std.specs.Prelude.{◌≡◌, true, [], ◌∷◌, suc, ◌<◌};
ghost use Rattle.rules.specs.Rows.{row_count, name};
ghost use Rattle.rules.specs.Class.{break, continue, goto, one_of, is_branch, class};
ghost use Rattle.rules.specs.Labels.{earlier, target, valid_target};
ghost use Rattle.tables.specs.Canon.{Tables as HasTables};
ghost use Rattle.rows.specs.Found.{row_found};
ghost use Rattle.walk_state.specs.Walk.{BlockLabels, Walking, Walked};

use body::Body;
use rows::RowNumber;
use rows::details::Branch;
use rows::kinds::Kind;
use sheet::Code;
use tables::Tables;

// The declared label, where it stands before the goto in a list around it.
fn goto_target(body: Body<'_>, tables: Tables<'_>, row: RowNumber) -> Option<RowNumber>
    requires tables { HasTables body.rows.now body.pairs.now body.bytes.now tables.canonical.now tables.label_rows.now tables.lists.now (suc row.0) }
    requires row_bound { (row.0 < row_count body.rows.now) × (class body.rows.now row.0 ≡ goto) }
    ensures { row_found result ≡ earlier body.entry.rows.now body.entry.pairs.now body.entry.bytes.now row.0 }
{
    let c = tables::canon_of(body.rows, tables.canonical, row);
    if c == 0 {
        return None;
    }
    let label = rows::row_of(tables.label_rows[c])?;
    if row.0 <= label.0 {
        return None;
    }
    let list = rows::row_of(tables.lists[label.0])?;
    if list.0 + rows::size(body.rows, list) <= row.0 {
        return None;
    }
    Some(label)
}

// The label of the innermost Block around the branch that belongs to a statement with the branch's
// label.
fn enclosing_target(
    body: Body<'_>,
    tables: Tables<'_>,
    goto_or_label: &[u16],
    row: RowNumber,
) -> Option<RowNumber>
    requires tables { HasTables body.rows.now body.pairs.now body.bytes.now tables.canonical.now tables.label_rows.now tables.lists.now (suc row.0) }
    requires block_labels { BlockLabels body.rows.now body.pairs.now body.bytes.now row.0 goto_or_label.now }
    requires row_bound { (row.0 < row_count body.rows.now) × (is_branch (class body.rows.now row.0) ≡ true) }
    ensures { row_found result ≡ target body.entry.rows.now body.entry.pairs.now body.entry.bytes.now row.0 }
{
    let c = tables::canon_of(body.rows, tables.canonical, row);
    if c == 0 {
        return None;
    }
    let mut open = rows::row_of(tables.lists[row.0]);
    while let Some(list) = open {
        if rows::kind_at(body.rows, list) == Kind::Block {
            let found = rows::row_of(goto_or_label[list.0]);
            if let Some(label) = found {
                if tables::canon_of(body.rows, tables.canonical, label) == c {
                    return found;
                }
            }
        }
        open = rows::row_of(tables.lists[list.0]);
    }
    None
}

// Whether the labelled break or continue has a target of the kind it needs.
fn valid_target(body: Body<'_>, tables: Tables<'_>, goto_or_label: &[u16], row: RowNumber) -> bool
    requires tables { HasTables body.rows.now body.pairs.now body.bytes.now tables.canonical.now tables.label_rows.now tables.lists.now (suc row.0) }
    requires block_labels { BlockLabels body.rows.now body.pairs.now body.bytes.now row.0 goto_or_label.now }
    requires row_bound { (row.0 < row_count body.rows.now) × (one_of (break ∷ continue ∷ []) (class body.rows.now row.0) ≡ true) }
    ensures { result ≡ valid_target body.entry.rows.now body.entry.pairs.now body.entry.bytes.now row.0 }
{
    let Some(label) = enclosing_target(body, tables, goto_or_label, row) else {
        return false;
    };
    let kind = rows::kind_at(body.rows, RowNumber(label.0 + 1));
    if rows::branch_at(body.rows, row) == Branch::Break {
        kind.is_breakable()
    } else {
        kind.is_loop()
    }
}

// A labelled break or continue: bound to the declared label, or a fault. It answers the sheet's row
// count.
fn break_branches(
    body: Body<'_>,
    tables: Tables<'_>,
    sheet: &mut [u32],
    bindings: &mut [u32],
    heads: &[u16],
    goto_or_label: &[u16],
    row: RowNumber,
    faults: usize,
) -> usize
    requires tables { HasTables body.rows.now body.pairs.now body.bytes.now tables.canonical.now tables.label_rows.now tables.lists.now (suc row.0) }
    requires walking { Walking body.rows.now body.pairs.now body.bytes.now row.0 faults sheet.old bindings.old heads.now goto_or_label.now }
    requires row_bound { (row.0 < row_count body.rows.now) × (one_of (break ∷ continue ∷ []) (class body.rows.now row.0) ≡ true) × (0 < name body.rows.now row.0) }
    ensures { Walked body.entry.rows.now body.entry.pairs.now body.entry.bytes.now (suc row.0) result sheet.old bindings.old
        sheet.new bindings.new heads.now goto_or_label.now }
{
    if valid_target(body, tables, goto_or_label, row) {
        let c = tables::canon_of(body.rows, tables.canonical, row);
        let r = row.0;
        bindings[r] = u32::from(tables.label_rows[c]);
        return faults;
    }
    let code = match rows::branch_at(body.rows, row) {
        Branch::Break => Code::InvalidBreak,
        _ => Code::InvalidContinue,
    };
    sheet::report(body.rows, sheet, faults, code, row, 0);
    faults + 1
}

// A goto: bound to a declared label before it, or pending.
fn goto_branches(
    body: Body<'_>,
    tables: Tables<'_>,
    sheet: &[u32],
    bindings: &mut [u32],
    heads: &mut [u16],
    goto_or_label: &mut [u16],
    row: RowNumber,
    faults: usize,
)
    requires tables { HasTables body.rows.now body.pairs.now body.bytes.now tables.canonical.now tables.label_rows.now tables.lists.now (suc row.0) }
    requires walking { Walking body.rows.now body.pairs.now body.bytes.now row.0 faults sheet.now bindings.old heads.old goto_or_label.old }
    requires row_bound { (row.0 < row_count body.rows.now) × (class body.rows.now row.0 ≡ goto) }
    ensures { Walked body.entry.rows.now body.entry.pairs.now body.entry.bytes.now (suc row.0) faults sheet.now bindings.old
        sheet.now bindings.new heads.new goto_or_label.new }
{
    let r = row.0;
    if let Some(label) = goto_target(body, tables, row) {
        bindings[r] = (label.0 + 1) as u32;
        return;
    }
    let c = tables::canon_of(body.rows, tables.canonical, row);
    if c != 0 {
        goto_or_label[r] = heads[c];
        heads[c] = (r + 1) as u16;
    }
}

// A Branch row. It answers the sheet's row count.
pub fn jump_branches(
    body: Body<'_>,
    tables: Tables<'_>,
    sheet: &mut [u32],
    bindings: &mut [u32],
    heads: &mut [u16],
    goto_or_label: &mut [u16],
    row: RowNumber,
    faults: usize,
) -> usize
    requires tables { HasTables body.rows.now body.pairs.now body.bytes.now tables.canonical.now tables.label_rows.now tables.lists.now (suc row.0) }
    requires walking { Walking body.rows.now body.pairs.now body.bytes.now row.0 faults sheet.old bindings.old heads.old goto_or_label.old }
    requires row_bound { (row.0 < row_count body.rows.now) × (is_branch (class body.rows.now row.0) ≡ true) }
    ensures { Walked body.entry.rows.now body.entry.pairs.now body.entry.bytes.now (suc row.0) result sheet.old bindings.old
        sheet.new bindings.new heads.new goto_or_label.new }
{
    let name = rows::name(body.rows, row);
    if name.0 == 0 {
        return faults;
    }
    // by the number, which takes fewer tests a row than a Branch does
    let detail = rows::detail(body.rows, row);
    if detail == u32::from(Branch::Goto) {
        goto_branches(
            body,
            tables,
            sheet,
            bindings,
            heads,
            goto_or_label,
            row,
            faults,
        );
        return faults;
    }
    if detail == u32::from(Branch::Fallthrough) {
        sheet::report(body.rows, sheet, faults, Code::LabelledFallthrough, row, 0);
        return faults + 1;
    }
    break_branches(
        body,
        tables,
        sheet,
        bindings,
        heads,
        goto_or_label,
        row,
        faults,
    )
}
