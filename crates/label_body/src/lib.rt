// The label walk of a body with names, from its tables to the last row of its sheet.
#![tactic(auto)]

ghost use Rattle.std.specs.Prelude.{◌≤◌, ◌<◌};
ghost use Rattle.rules.specs.Rows.{row_count};
ghost use Rattle.rules.specs.Names.{count_of_pairs};
ghost use Rattle.label_body.specs.Answered.{Blank, Lent, Answered};

use body::Body;
use context::Context;

// The walk and what is left at its end. The tables of the pending gotos are free by then, and serve
// to sort the unused labels.
fn walk_body(
    body: Body<'_>,
    canonical: &mut [u32],
    label_rows: &mut [u16],
    lists: &mut [u16],
    sheet: &mut [u32],
    bindings: &mut [u32],
    heads: &mut [u16],
    goto_or_label: &mut [u16],
    contexts: &mut [Context<u16>],
    used: &mut [u8],
) -> usize
    requires lent { Lent body.rows.now body.pairs.now canonical.old label_rows.old lists.old sheet.old
        bindings.old heads.old goto_or_label.old contexts.old used.old }
    ensures { Answered body.entry.rows.now body.entry.pairs.now body.entry.bytes.now result sheet.old bindings.old sheet.new
        bindings.new }
{
    tables::canon_table(body.names(), canonical);
    tables::declared_table(body, canonical, label_rows);
    let walked = label_walk::rows_branches(
        body,
        canonical,
        label_rows,
        lists,
        sheet,
        bindings,
        heads,
        goto_or_label,
        contexts,
    );
    let more = label_rest::unresolved(body, canonical, label_rows, sheet, bindings, used, walked);
    label_rest::unused(body, label_rows, used, heads, goto_or_label, sheet, more)
}

// The walk over tables for fewer than NAMES names and up to ROWS rows, once the bindings are 0. No
// body needs more than 501 and 2,000, and tables cost time to make, so a caller takes smaller ones
// where they do.
pub fn walk<const NAMES: usize, const ROWS: usize>(
    body: Body<'_>,
    sheet: &mut [u32],
    bindings: &mut [u32],
) -> usize
    requires room { (count_of_pairs body.pairs.now < NAMES) × (row_count body.rows.now ≤ ROWS) }
    requires size { (NAMES ≤ 501) × (ROWS ≤ 2000) }
    requires blank { Blank body.rows.now sheet.old bindings.old }
    ensures { Answered body.entry.rows.now body.entry.pairs.now body.entry.bytes.now result sheet.old bindings.old sheet.new
        bindings.new }
{
    let mut canonical = [0u32; NAMES];
    let mut label_rows = [0u16; NAMES];
    let mut heads = [0u16; NAMES];
    let mut used = [0u8; NAMES];
    let mut lists = [0u16; ROWS];
    let mut goto_or_label = [0u16; ROWS];
    let mut contexts = [Context {
        latest: 0,
        label: 0,
    }; ROWS];
    walk_body(
        body,
        &mut canonical,
        &mut label_rows,
        &mut lists,
        sheet,
        bindings,
        &mut heads,
        &mut goto_or_label,
        &mut contexts,
        &mut used,
    )
}
