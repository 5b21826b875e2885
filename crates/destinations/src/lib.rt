// Where each Branch of a body without a fault goes. A labelled break or continue refers to the
// statement below the label that it binds to, an unlabelled one to the innermost around it; a goto goes
// to its label, a fallthrough to where its Case ends.
#![tactic(auto)]

ghost use Rattle.std.specs.Prelude.{◌≡◌, zero, suc, ◌-◌, ◌≤◌, ◌<◌, length};
ghost use Rattle.std.proofs.Math.Option.{some};
ghost use Rattle.rules.specs.Rows.{row_count, kind};
ghost use Rattle.rules.specs.Runner.{at, step};
ghost use Rattle.rules.specs.Walking.{Faultless, place_of};
ghost use Rattle.parents.specs.Parents.{Parents};
ghost use Rattle.afters.specs.Afters.{Afters};
ghost use Rattle.destinations.specs.Destinations.{Bound, Tables, Destinations};

use body::Body;
use enclosing::Enclosing;
use rows::RowNumber;
use rows::details::Branch;
use rows::kinds::Kind;

// A well-formed body with an empty sheet and good placing, and its bindings.
#[derive(Clone, Copy)]
pub struct FaultlessBody<'a> {
    pub body: Body<'a>,
    pub bindings: &'a [u32],
    ghost faultless: { Faultless body.rows.now body.pairs.now body.bytes.now },
    ghost bound: { Bound body.rows.now body.pairs.now body.bytes.now bindings.now },
}

// What a Branch goes by, of each row: the place after it, and the rows around it.
#[derive(Clone, Copy)]
struct Around<'t> {
    afters: &'t [u16],
    enclosing: &'t [Enclosing],
}

// The row after the label of binding word `binding`, which is the word's own number, or the row of
// the word `inner` where the branch isn't bound.
fn statement(binding: u32, inner: u16) -> usize
    requires { binding ≡ 0 → 0 < inner }
    ensures { result ≡ elim binding [ zero ↦ inner - 1 | suc t ↦ suc t ] }
{
    if binding == 0 {
        return usize::from(inner) - 1;
    }
    binding as usize
}

// The place that the Branch goes to.
fn destination(faultless: FaultlessBody<'_>, around: Around<'_>, r: usize) -> usize
    requires tables { Tables faultless.body.rows.now faultless.body.pairs.now faultless.body.bytes.now faultless.bindings.now around.afters.now around.enclosing.now }
    requires r_bound { (r < row_count faultless.body.rows.now) × (kind faultless.body.rows.now r ≡ 11) }
    ensures { (step faultless.entry.body.rows.now faultless.entry.body.pairs.now faultless.entry.body.bytes.now (at r) 0 ≡ some (place_of result)) × (result < 65536) }
{
    let rows = faultless.body.rows;
    let binding = faultless.bindings[r];
    let within = around.enclosing[r];
    match rows::branch_at(rows, RowNumber(r)) {
        Branch::Break => {
            let left = statement(binding, within.breakable);
            usize::from(around.afters[left])
        }
        Branch::Continue => statement(binding, within.repeated) + 2,
        Branch::Goto => binding as usize + 1,
        Branch::Fallthrough => {
            let case = usize::from(within.case) - 1;
            let next = case + rows::size(rows, RowNumber(case));
            next + 2
        }
    }
}

// Writes the place that each Branch goes to, by the tables of the rows around each row.
fn write_destinations(faultless: FaultlessBody<'_>, around: Around<'_>, destinations: &mut [u16])
    requires tables { Tables faultless.body.rows.now faultless.body.pairs.now faultless.body.bytes.now faultless.bindings.now around.afters.now around.enclosing.now }
    requires rows_in_bounds { row_count faultless.body.rows.now ≤ length destinations.old }
    ensures { Destinations faultless.entry.body.rows.now faultless.entry.body.pairs.now faultless.entry.body.bytes.now destinations.new }
{
    let rows = faultless.body.rows;
    for r in 0..rows.len() / 5 {
        if rows::kind_at(rows, RowNumber(r)) == Kind::Branch {
            destinations[r] = destination(faultless, around, r) as u16;
        }
    }
}

// Writes the place that each Branch goes to, at its own row.
pub fn destinations_of(
    faultless: FaultlessBody<'_>,
    parents: &[u16],
    afters: &[u16],
    destinations: &mut [u16],
)
    requires parents { Parents faultless.body.rows.now parents.now × Afters faultless.body.rows.now afters.now }
    requires rows_in_bounds { (row_count faultless.body.rows.now ≤ length parents.now) × (row_count faultless.body.rows.now ≤ length afters.now) × (row_count faultless.body.rows.now ≤ length destinations.old) }
    ensures { Destinations faultless.entry.body.rows.now faultless.entry.body.pairs.now faultless.entry.body.bytes.now destinations.new }
{
    let mut enclosing = [Enclosing {
        breakable: 0,
        repeated: 0,
        case: 0,
    }; 2000];
    enclosing::enclosing_of(faultless.body.rows, parents, &mut enclosing);
    let around = Around {
        afters,
        enclosing: &enclosing,
    };
    write_destinations(faultless, around, destinations);
}
