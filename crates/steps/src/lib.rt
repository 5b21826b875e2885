// The steps of a body without a fault: for each row the places that its choices lead to, in two tables
// that are made in one pass. Where a walk goes next is then looked up.
#![tactic(auto)]

ghost use Rattle.std.specs.Prelude.{◌≡◌, true, List, ℕ, suc, ◌+◌, ◌*◌, ◌≤◌, ◌<◌, length};
ghost use Rattle.rules.specs.Rows.{row_count, end};
ghost use Rattle.rules.specs.Class.{is_switch, if_else, select, class as class_at};
ghost use Rattle.rules.specs.Body.{Formed};
ghost use Rattle.rules.specs.Runner.{at, after, clause_count, choices};
ghost use Rattle.rules.specs.Walking.{place_of};
ghost use Rattle.classes.specs.Classes.{class_is};
ghost use Rattle.steps.specs.StepTable.{StepTable as IsStepTable};
ghost use Rattle.steps.specs.Written.{Tables, ClausesWritten, TwoWritten, RowWritten, Room, has_one_way, OnlyStep};

use body::Body;
use classes::Class;
use destinations::FaultlessBody;
use rows::RowNumber;

// The steps of all rows of a body without a fault: where each row's begin, and the places that they
// lead to.
#[derive(Clone, Copy)]
pub struct StepTable<'t> {
    pub faultless: FaultlessBody<'t>,
    pub firsts: &'t [u16],
    pub steps: &'t [u16],
    ghost is_table: { IsStepTable faultless.body.rows.now faultless.body.pairs.now faultless.body.bytes.now firsts.now steps.now },
}

// What the steps of a row go by, a word a row: the place after it, and the place that it goes to if it
// is a Branch.
#[derive(Clone, Copy)]
struct Places<'t> {
    afters: &'t [u16],
    destinations: &'t [u16],
}

// Where the steps to the clauses end, and whether one is a default.
#[derive(Clone, Copy, Debug, PartialEq, Eq)]
struct Clauses {
    end: usize,
    default: bool,
}

// Writes the steps to the clauses of the switch or Select r from `first` on.
fn clause_steps(rows: &[u32], r: usize, first: usize, steps: &mut [u16]) -> Clauses
    requires { Formed rows.now × (r < row_count rows.now) × (first + clause_count rows.now r ≤ length steps.old) }
    ensures { ClausesWritten rows.now steps.old steps.new r first result.end result.default }
{
    let stop = r + rows::size(rows, RowNumber(r));
    let mut c = r + 2;
    let mut end = first;
    let mut default = false;
    while c < stop {
        steps[end] = (c + 2) as u16;
        end += 1;
        if matches!(
            classes::class_of(rows, RowNumber(c)),
            Class::DefaultCase | Class::DefaultComm
        ) {
            default = true;
        }
        c += rows::size(rows, RowNumber(c));
    }
    Clauses { end, default }
}

// Writes the steps of the switch r from `first` on: to its clauses, and without a default to `next`.
fn switch_steps(rows: &[u32], r: usize, next: u16, first: usize, steps: &mut [u16]) -> usize
    requires formed { Formed rows.now × (r < row_count rows.now) × Room rows.now r first (length steps.old) }
    requires r_value { (is_switch (class_at rows.now r) ≡ true) × (place_of next ≡ after rows.now r) }
    ensures { (p b : List ℕ) → RowWritten rows.now p b steps.old steps.new r first result }
{
    let clauses = clause_steps(rows, r, first, steps);
    let end = clauses.end;
    if clauses.default {
        return end;
    }
    steps[end] = next;
    end + 1
}

// Writes the steps of the Select r from `first` on: to its clauses; one without clauses stops.
fn select_steps(rows: &[u32], r: usize, first: usize, steps: &mut [u16]) -> usize
    requires formed { Formed rows.now × (r < row_count rows.now) × Room rows.now r first (length steps.old) }
    requires r_value { class_at rows.now r ≡ select }
    ensures { (p b : List ℕ) → RowWritten rows.now p b steps.old steps.new r first result }
{
    let end = clause_steps(rows, r, first, steps).end;
    if first < end {
        return end;
    }
    steps[first] = 0;
    first + 1
}

// Writes two steps from `first` on: choice 0 leads to `other`, choice 1 to the row below r.
fn two_steps(r: usize, other: u16, first: usize, steps: &mut [u16]) -> usize
    requires { (r < 2000) × (first + 2 ≤ length steps.old) }
    ensures { TwoWritten steps.old steps.new r other first result }
{
    let below = (r + 3) as u16;
    steps[first] = other;
    steps[first + 1] = below;
    first + 2
}

// The place of the else of row r.
fn else_place(rows: &[u32], r: usize) -> u16
    requires { Formed rows.now × (r < row_count rows.now) × (class_at rows.now r ≡ if_else) }
    ensures { place_of result ≡ at (end rows.now (suc r)) }
{
    (r + 3 + rows::size(rows, RowNumber(r + 1))) as u16
}

// The place that a row with one way leads to, by its class.
fn only_step(body: Body<'_>, places: Places<'_>, r: usize, class: Class) -> u16
    requires tables { Tables body.rows.now body.pairs.now body.bytes.now places.afters.now places.destinations.now × (r < row_count body.rows.now) }
    requires class_value { (class_is class ≡ class_at body.rows.now r) × (has_one_way (class_at body.rows.now r) ≡ true) }
    ensures { OnlyStep body.entry.rows.now body.entry.pairs.now body.entry.bytes.now r result }
{
    let below = (r + 3) as u16;
    match class {
        Class::Labeled | Class::For => below,
        Class::Stop => 0,
        Class::Break | Class::Continue | Class::Goto | Class::Fallthrough => places.destinations[r],
        Class::Plain | Class::Declaration | Class::Empty => places.afters[r],
        _ => {
            if 1 < rows::size(body.rows, RowNumber(r)) {
                below
            } else {
                places.afters[r]
            }
        }
    }
}

// Writes the steps of row r from `first` on. The answer is where they end.
fn row_steps(body: Body<'_>, places: Places<'_>, r: usize, first: usize, steps: &mut [u16]) -> usize
    requires tables { Tables body.rows.now body.pairs.now body.bytes.now places.afters.now places.destinations.now × (r < row_count body.rows.now) }
    requires r_in_bounds { first + choices body.rows.now body.pairs.now body.bytes.now (at r) ≤ length steps.old }
    ensures { RowWritten body.entry.rows.now body.entry.pairs.now body.entry.bytes.now steps.old steps.new r first result }
{
    let class = classes::class_of(body.rows, RowNumber(r));
    let after = places.afters[r];
    match class {
        Class::If | Class::ForCond => two_steps(r, after, first, steps),
        Class::IfElse => two_steps(r, else_place(body.rows, r), first, steps),
        Class::Switch | Class::TypeSwitch => switch_steps(body.rows, r, after, first, steps),
        Class::Select => select_steps(body.rows, r, first, steps),
        Class::CaseBlock | Class::CommBlock => first,
        _ => {
            steps[first] = only_step(body, places, r, class);
            first + 1
        }
    }
}

// Writes the steps of all rows.
fn all_steps(body: Body<'_>, places: Places<'_>, firsts: &mut [u16], steps: &mut [u16])
    requires tables { Tables body.rows.now body.pairs.now body.bytes.now places.afters.now places.destinations.now }
    requires rows_in_bounds { (row_count body.rows.now < length firsts.old) × (row_count body.rows.now * 3 ≤ length steps.old) }
    ensures { IsStepTable body.entry.rows.now body.entry.pairs.now body.entry.bytes.now firsts.new steps.new }
{
    firsts[0] = 0;
    let mut first = 0;
    for r in 0..body.rows.len() / 5 {
        first = row_steps(body, places, r, first, steps);
        firsts[r + 1] = first as u16;
    }
}

// Writes where the steps of each row begin, and the place that each step leads to.
pub fn steps_of(faultless: FaultlessBody<'_>, firsts: &mut [u16], steps: &mut [u16])
    requires rows_in_bounds { (row_count faultless.body.rows.now < length firsts.old) × (row_count faultless.body.rows.now * 3 ≤ length steps.old) }
    ensures { IsStepTable faultless.entry.body.rows.now faultless.entry.body.pairs.now faultless.entry.body.bytes.now firsts.new steps.new }
{
    let rows = faultless.body.rows;
    let mut parents = [0u16; 2000];
    let mut afters = [0u16; 2000];
    let mut destinations = [0u16; 2000];
    parents::parents_of(rows, &mut parents);
    afters::afters_of(rows, &parents, &mut afters);
    destinations::destinations_of(faultless, &parents, &afters, &mut destinations);
    let places = Places {
        afters: &afters,
        destinations: &destinations,
    };
    all_steps(faultless.body, places, firsts, steps);
}
