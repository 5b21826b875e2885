// Cause 5, second part: the lowest row whose children, stepped through by size, break its shape.
#![tactic(auto)]

ghost use Rattle.std.specs.Prelude.{◌≡◌, true, not, ℕ, suc, ◌<◌};
ghost use Rattle.rules.specs.Scan.{lowest};
ghost use Rattle.rules.specs.Rows.{row_count, size, end};
ghost use Rattle.rules.specs.Class.{block, is_statement, class_of, detail_allowed, base, class};
ghost use Rattle.rules.specs.Refusals.{branches, holding, may_hold, at_least, children_fit, is_body, bad_shape};
ghost use Rattle.rules.specs.Body.{Sized, Detailed};
ghost use Rattle.rows.specs.Found.{row_found};
ghost use Rattle.rows.specs.Kinds.{number};
ghost use Rattle.shape.specs.Held.{held};
ghost use Rattle.shape.specs.DetailedTo.{DetailedTo};

use rows::RowNumber;
use rows::kinds::Kind;

// What stands below a row.
#[derive(Clone, Copy, Debug, PartialEq, Eq)]
pub enum Holding {
    // size 1
    Nothing,
    // one statement: Labeled
    Statement,
    // one Block: If without else, For, Range, Switch, TypeSwitch, Select
    Body,
    // a Block, then a Block or If: If with else
    Branches,
    // a list of statements: Block, Case, Comm
    Statements,
    // only Case: the Block of either switch
    Cases,
    // only Comm: the Block of Select
    Comms,
}

// What a Block holds: the Block right after a switch or Select is the Block of it.
fn block_holding(rows: &[u32], row: RowNumber) -> Holding
    requires { (row.0 < row_count rows.now) × DetailedTo rows.now row.0 × (base rows.now row.0 ≡ block) }
    ensures { held result ≡ holding (class rows.now row.0) }
{
    if row.0 == 0 {
        return Holding::Statements;
    }
    match rows::kind_at(rows, RowNumber(row.0 - 1)) {
        Kind::Switch | Kind::TypeSwitch => Holding::Cases,
        Kind::Select => Holding::Comms,
        _ => Holding::Statements,
    }
}

// What the row holds.
pub fn holding_at(rows: &[u32], row: RowNumber) -> Holding
    requires { (row.0 < row_count rows.now) × DetailedTo rows.now row.0 }
    ensures { held result ≡ holding (class rows.now row.0) }
{
    match rows::kind_at(rows, row) {
        Kind::Labeled => Holding::Statement,
        Kind::Block => block_holding(rows, row),
        Kind::If => {
            let with_else = rows::is_marked(rows, row);
            if with_else {
                Holding::Branches
            } else {
                Holding::Body
            }
        }
        Kind::Case | Kind::Comm => Holding::Statements,
        Kind::Switch | Kind::TypeSwitch | Kind::Select | Kind::For | Kind::Range => Holding::Body,
        _ => Holding::Nothing,
    }
}

impl Holding {
    // Whether child number i of a row that holds this may be of this kind.
    pub fn may_hold(self, i: usize, kind: Kind) -> bool
        ensures { (d : ℕ) → detail_allowed (number kind) d ≡ true → result ≡ may_hold (held self) i (class_of (number kind) d) }
    {
        match self {
            Holding::Nothing => false,
            Holding::Statement => i == 0 && kind.is_statement(),
            Holding::Body => i == 0 && kind == Kind::Block,
            Holding::Branches => may_branch(i, kind),
            Holding::Statements => kind.is_statement(),
            Holding::Cases => kind == Kind::Case,
            Holding::Comms => kind == Kind::Comm,
        }
    }
}

// The same of a kind by its number, which may be that of none.
pub fn may_hold(holding: Holding, i: usize, kind: u32) -> bool
    ensures { (d : ℕ) → detail_allowed kind d ≡ true → result ≡ may_hold (held holding) i (class_of kind d) }
{
    match Kind::try_from(kind) {
        Ok(kind) => holding.may_hold(i, kind),
        Err(_) => false,
    }
}

// The same of an If with else: a Block, then a Block or If.
fn may_branch(i: usize, kind: Kind) -> bool
    ensures { (d : ℕ) → detail_allowed (number kind) d ≡ true → result ≡ may_hold branches i (class_of (number kind) d) }
{
    match i {
        0 => kind == Kind::Block,
        1 => matches!(kind, Kind::Block | Kind::If),
        _ => false,
    }
}

// How many children there are at least.
fn at_least(holding: Holding) -> usize
    ensures { result ≡ at_least (held holding) }
{
    match holding {
        Holding::Statement | Holding::Body => 1,
        Holding::Branches => 2,
        Holding::Nothing | Holding::Statements | Holding::Cases | Holding::Comms => 0,
    }
}

// Whether the children of the row fill it and each may stand there.
fn children_fit(rows: &[u32], row: RowNumber, holding: Holding) -> bool
    requires { (row.0 < row_count rows.now) × Sized rows.now × Detailed rows.now }
    ensures { result ≡ children_fit (size rows.now row.0) rows.now (held holding) (end rows.now row.0) 0
        (suc row.0) }
{
    let end = row.0 + rows::size(rows, row);
    let mut c = row.0 + 1;
    let mut i = 0;
    while c < end {
        let child = RowNumber(c);
        if !holding.may_hold(i, rows::kind_at(rows, child)) {
            return false;
        }
        c += rows::size(rows, child);
        if end < c {
            return false;
        }
        i += 1;
    }
    at_least(holding) <= i
}

// Row 0 is a Block of all rows.
pub fn is_body(rows: &[u32]) -> bool
    requires { (0 < row_count rows.now) × DetailedTo rows.now 0 }
    ensures { result ≡ is_body rows.now }
{
    let root = RowNumber(0);
    if rows::kind_at(rows, root) != Kind::Block {
        return false;
    }
    rows::size(rows, root) == rows.len() / 5
}

// Whether the row keeps the shape of its kind.
fn shape_holds(rows: &[u32], row: RowNumber) -> bool
    requires { (row.0 < row_count rows.now) × Sized rows.now × Detailed rows.now }
    ensures { result ≡ not (bad_shape rows.now row.0) }
{
    if row.0 == 0 && !is_body(rows) {
        return false;
    }
    children_fit(rows, row, holding_at(rows, row))
}

// The lowest row that breaks the shape of its kind, once sizes and details are right.
pub fn first_bad_shape(rows: &[u32]) -> Option<RowNumber>
    requires { Sized rows.now × Detailed rows.now }
    ensures { row_found result ≡ lowest (bad_shape rows.now) (row_count rows.now) }
{
    for r in 0..rows.len() / 5 {
        if !shape_holds(rows, RowNumber(r)) {
            return Some(RowNumber(r));
        }
    }
    None
}
