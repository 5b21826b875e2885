// The walk over the rows in order, which takes the state at each row to the state at the next. The
// list of a row is written as the walk comes to the row. The context of a list, its latest
// declaration and its latest label so far, stands in a table by the list's row.
#![tactic(auto)]

ghost use Rattle.std.specs.Prelude.{◌≡◌, true, false, ◌||◌, suc, ◌+◌, ◌≤◌, ◌<◌, eqb, length, set};
ghost use Rattle.rules.specs.Rows.{row_count};
ghost use Rattle.rules.specs.Class.{declaration, labeled, class};
ghost use Rattle.rules.specs.Scope.{is_block};
ghost use Rattle.rules.specs.Labels.{is_class, word};
ghost use Rattle.rows.specs.Kinds.{number};
ghost use Rattle.rows.specs.Found.{row_found};
ghost use Rattle.lists.specs.Listed.{InHand, ListAround};
ghost use Rattle.tables.specs.Canon.{Tables as HasTables};
ghost use Rattle.walk_state.specs.Walk.{current_label, Walking, Walked};
ghost use Rattle.label_walk.specs.Contexts.{Listing, Contexts, BlockLabelled};

use body::Body;
use context::Context;
use lists::{Around, list_after, list_at};
use rows::RowNumber;
use rows::kinds::Kind;
use tables::Tables;

// A VAR or :=, the latest declaration of its list from here on.
fn decl_branches(body: Body<'_>, lists: &[u16], contexts: &mut [Context<u16>], row: RowNumber)
    requires listing { Listing body.rows.now body.pairs.now body.bytes.now lists.now (suc row.0) }
    requires contexts { Contexts body.rows.now body.pairs.now body.bytes.now row.0 contexts.old }
    requires row_bound { (row.0 < row_count body.rows.now) × (is_class body.rows.now declaration row.0 ≡ true) }
    ensures { Contexts body.entry.rows.now body.entry.pairs.now body.entry.bytes.now (suc row.0) contexts.new }
{
    let r = row.0;
    let list = usize::from(lists[r]) - 1;
    let ctx = contexts[list];
    contexts[list] = context::declared(ctx, (r + 1) as u16);
}

// The label that a Block belongs to: the latest of its list, if the Block stands inside that
// label's statement.
fn current_label(
    body: Body<'_>,
    lists: &[u16],
    contexts: &[Context<u16>],
    row: RowNumber,
) -> Option<RowNumber>
    requires listing { Listing body.rows.now body.pairs.now body.bytes.now lists.now (suc row.0) }
    requires contexts { Contexts body.rows.now body.pairs.now body.bytes.now row.0 contexts.now }
    requires row_bound { (row.0 < row_count body.rows.now) × (is_block (class body.rows.now row.0) ≡ true) }
    ensures { row_found result ≡ current_label body.entry.rows.now body.entry.pairs.now body.entry.bytes.now row.0 }
{
    let list = rows::row_of(lists[row.0])?;
    let label = rows::row_of(contexts[list.0].label)?;
    if label.0 + rows::size(body.rows, label) <= row.0 {
        return None;
    }
    Some(label)
}

// A Block: its link is the label that it belongs to.
fn set_block_label(
    body: Body<'_>,
    lists: &[u16],
    contexts: &[Context<u16>],
    goto_or_label: &mut [u16],
    row: RowNumber,
)
    requires listing { Listing body.rows.now body.pairs.now body.bytes.now lists.now (suc row.0) }
    requires contexts { Contexts body.rows.now body.pairs.now body.bytes.now row.0 contexts.now }
    requires row_bound { (row.0 < row_count body.rows.now) × (is_block (class body.rows.now row.0) ≡ true) × (row_count body.rows.now ≤ length goto_or_label.old) }
    ensures { goto_or_label.new ≡ set goto_or_label.old row.0
        (word (current_label body.entry.rows.now body.entry.pairs.now body.entry.bytes.now row.0)) }
{
    let r = row.0;
    goto_or_label[r] = rows::word_of(current_label(body, lists, contexts, row));
}

// Whether a row of this kind that is marked is a declaration: a VAR or :=.
fn may_declare(kind: Kind) -> bool
    ensures { result ≡ (eqb (number kind) 1 || eqb (number kind) 7) }
{
    matches!(kind, Kind::Decl | Kind::Assign)
}

// A row that is no label and no branch: a declaration, a Block, or one that changes nothing. Few
// rows are marked, so that is asked first.
fn plain_branches(
    body: Body<'_>,
    lists: &[u16],
    goto_or_label: &mut [u16],
    contexts: &mut [Context<u16>],
    row: RowNumber,
)
    requires listing { Listing body.rows.now body.pairs.now body.bytes.now lists.now (suc row.0) }
    requires contexts { Contexts body.rows.now body.pairs.now body.bytes.now row.0 contexts.old }
    requires row_bound { (row.0 < row_count body.rows.now) × (is_class body.rows.now labeled row.0 ≡ false)
        × (row_count body.rows.now ≤ length goto_or_label.old) }
    ensures linked { BlockLabelled body.entry.rows.now body.entry.pairs.now body.entry.bytes.now row.0 goto_or_label.old
        goto_or_label.new }
    ensures contexts { Contexts body.entry.rows.now body.entry.pairs.now body.entry.bytes.now (suc row.0) contexts.new }
{
    let kind = rows::kind_at(body.rows, row);
    if rows::is_marked(body.rows, row) {
        if may_declare(kind) {
            decl_branches(body, lists, contexts, row);
        }
        return;
    }
    if kind == Kind::Block {
        set_block_label(body, lists, contexts, goto_or_label, row);
    }
}

// A Labeled row, the latest label of its list unless it is `_`. It answers the sheet's row count.
fn labeled_branches(
    body: Body<'_>,
    tables: Tables<'_>,
    sheet: &mut [u32],
    bindings: &mut [u32],
    heads: &mut [u16],
    goto_or_label: &[u16],
    contexts: &mut [Context<u16>],
    row: RowNumber,
    faults: usize,
) -> usize
    requires tables { HasTables body.rows.now body.pairs.now body.bytes.now tables.canonical.now tables.label_rows.now tables.lists.now (suc row.0) }
    requires walking { Walking body.rows.now body.pairs.now body.bytes.now row.0 faults sheet.old bindings.old heads.old goto_or_label.now }
    requires contexts { Contexts body.rows.now body.pairs.now body.bytes.now row.0 contexts.old }
    requires row_bound { (row.0 < row_count body.rows.now) × (class body.rows.now row.0 ≡ labeled) }
    ensures walked { Walked body.entry.rows.now body.entry.pairs.now body.entry.bytes.now (suc row.0) result sheet.old bindings.old
        sheet.new bindings.new heads.new goto_or_label.now }
    ensures contexts { Contexts body.entry.rows.now body.entry.pairs.now body.entry.bytes.now (suc row.0) contexts.new }
{
    if tables::canon_of(body.rows, tables.canonical, row) == 0 {
        return faults;
    }
    let r = row.0;
    let list = usize::from(tables.lists[r]) - 1;
    let ctx = context::labelled(contexts[list], (r + 1) as u16);
    contexts[list] = ctx;
    let latest = usize::from(ctx.latest);
    pending::label_branches(
        body,
        tables,
        sheet,
        bindings,
        heads,
        goto_or_label,
        row,
        latest,
        faults,
    )
}

// What the walk hands on from row to row beside its tables: the sheet's row count, and the list in
// hand.
#[derive(Clone, Copy, Debug, PartialEq, Eq)]
struct Step {
    faults: usize,
    around: Around,
}

// One row, with the list around it.
fn stmt_branches(
    body: Body<'_>,
    tables: Tables<'_>,
    sheet: &mut [u32],
    bindings: &mut [u32],
    heads: &mut [u16],
    goto_or_label: &mut [u16],
    contexts: &mut [Context<u16>],
    row: RowNumber,
    here: Around,
    faults: usize,
) -> Step
    requires tables { HasTables body.rows.now body.pairs.now body.bytes.now tables.canonical.now tables.label_rows.now tables.lists.now (suc row.0) }
    requires walking { Walking body.rows.now body.pairs.now body.bytes.now row.0 faults sheet.old bindings.old heads.old goto_or_label.old }
    requires contexts_before { Contexts body.rows.now body.pairs.now body.bytes.now row.0 contexts.old }
    requires row_bound { (row.0 < row_count body.rows.now) × ListAround body.rows.now (word (row_found here.list)) here.end row.0 }
    ensures walked { Walked body.entry.rows.now body.entry.pairs.now body.entry.bytes.now (suc row.0) result.faults sheet.old
        bindings.old sheet.new bindings.new heads.new goto_or_label.new }
    ensures contexts { Contexts body.entry.rows.now body.entry.pairs.now body.entry.bytes.now (suc row.0) contexts.new }
    ensures around { InHand body.entry.rows.now (word (row_found result.around.list)) result.around.end (row.0 + 1) }
{
    // by the number, which takes fewer tests a row than a Kind does
    if rows::kind(body.rows, row) == u32::from(Kind::Branch) {
        let more = jumps::jump_branches(
            body,
            tables,
            sheet,
            bindings,
            heads,
            goto_or_label,
            row,
            faults,
        );
        return Step {
            faults: more,
            around: here,
        };
    }
    if rows::kind_at(body.rows, row) == Kind::Labeled {
        let more = labeled_branches(
            body,
            tables,
            sheet,
            bindings,
            heads,
            goto_or_label,
            contexts,
            row,
            faults,
        );
        return Step {
            faults: more,
            around: here,
        };
    }
    plain_branches(body, tables.lists, goto_or_label, contexts, row);
    Step {
        faults,
        around: list_after(body.rows, here, row.0),
    }
}

// All rows in order, each with its list written before it. It answers the sheet's row count.
pub fn rows_branches(
    body: Body<'_>,
    canonical: &[u32],
    label_rows: &[u16],
    lists: &mut [u16],
    sheet: &mut [u32],
    bindings: &mut [u32],
    heads: &mut [u16],
    goto_or_label: &mut [u16],
    contexts: &mut [Context<u16>],
) -> usize
    requires tables { HasTables body.rows.now body.pairs.now body.bytes.now canonical.now label_rows.now lists.old 0 }
    requires walking { Walking body.rows.now body.pairs.now body.bytes.now 0 0 sheet.old bindings.old heads.old goto_or_label.old }
    requires contexts { Contexts body.rows.now body.pairs.now body.bytes.now 0 contexts.old }
    ensures { Walked body.entry.rows.now body.entry.pairs.now body.entry.bytes.now (row_count body.entry.rows.now) result sheet.old
        bindings.old sheet.new bindings.new heads.new goto_or_label.new }
{
    let count = body.rows.len() / 5;
    let mut around = Around {
        list: None,
        end: count,
    };
    let mut faults = 0;
    for r in 0..count {
        let here = list_at(body.rows, lists, around, r);
        lists[r] = rows::word_of(here.list);
        let tables = Tables {
            canonical,
            label_rows,
            lists,
        };
        let step = stmt_branches(
            body,
            tables,
            sheet,
            bindings,
            heads,
            goto_or_label,
            contexts,
            RowNumber(r),
            here,
            faults,
        );
        faults = step.faults;
        around = step.around;
    }
    faults
}
