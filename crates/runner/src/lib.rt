// The walk call: a body's runner led by given choices, up to a limit of steps.
#![tactic(auto)]

ghost use Rattle.std.specs.Prelude.{◌≡◌, ◌≤◌, ◌<◌, IfSome};
ghost use Rattle.rules.specs.Rows.{row_count};
ghost use Rattle.rules.specs.Runner.{at};
ghost use Rattle.rules.specs.Calls.{answered};
ghost use Rattle.rules.specs.Walking.{place_of, walked, is_fork, walk_on, walk_call, Inside};
ghost use Rattle.runner.specs.Given.{state_of, given};
ghost use Rattle.runner.specs.Rounds.{Goes, Skipped};

use body::Body;
use destinations::FaultlessBody;
use refusals::Refusal;
use rows::RowNumber;
use rows::kinds::Kind;
use steps::StepTable;

#[derive(Clone, Copy, Debug, PartialEq, Eq)]
pub enum Place {
    Stopped,
    // the closing brace
    Brace,
    Row(RowNumber),
}

#[derive(Clone, Copy, Debug, PartialEq, Eq)]
pub struct WalkEnd {
    pub place: Place,
    // the steps made
    pub steps: usize,
    // the choices used
    pub used: usize,
}

// Whether the runner takes a choice at the row. It is asked in each step, and by a match on the Kind
// the processor guesses wrong twice as often.
fn is_fork(body: Body<'_>, row: RowNumber) -> bool
    requires { row.0 < row_count body.rows.now }
    ensures { result ≡ is_fork body.entry.rows.now row.0 }
{
    let rows = body.rows;
    match rows::kind(rows, row) {
        13 => true, // If
        15 => true, // Switch
        16 => true, // TypeSwitch
        18 => 2 < rows::size(rows, row), // Select
        19 => rows::is_marked(rows, row), // For, with a condition
        20 => true, // Range
        _ => false,
    }
}

// The place of a word: 0 stopped, 1 the closing brace, 2 + a row.
fn place_of(word: usize) -> Place
    ensures { state_of result ≡ place_of word }
{
    match word {
        0 => Place::Stopped,
        1 => Place::Brace,
        _ => Place::Row(RowNumber(word - 2)),
    }
}

// The answer of a walk that ends at the place of a word.
fn reached(word: usize, steps: usize, used: usize) -> Result<WalkEnd, Refusal>
    ensures { given result ≡ answered (walked (place_of word) steps used) }
{
    let place = place_of(word);
    Ok(WalkEnd { place, steps, used })
}

// The steps of a round from the place back to it without a fork, where there is one of at most as many
// steps as there are rows.
#[tactic(auto, using(crate::proofs::Turns::inside_row))]
fn round_from(table: StepTable<'_>, place: usize) -> Option<usize>
    requires { Inside table.faultless.body.rows.now (place_of place) }
    ensures { IfSome result (λ round. (0 < round) × Goes table.entry.faultless.body.rows.now
        table.entry.faultless.body.pairs.now table.entry.faultless.body.bytes.now place round place) }
{
    let mut here = place;
    for made in 0..table.faultless.body.rows.len() / 5 {
        if here < 2 {
            return None;
        }
        let row = here - 2;
        if is_fork(table.faultless.body, RowNumber(row)) {
            return None;
        }
        here = usize::from(table.steps[usize::from(table.firsts[row])]);
        if here == place {
            return Some(made + 1);
        }
    }
    None
}

// The steps made, with whole rounds without a fork added up to the limit, so that a walk takes no
// longer for a limit that it could reach only in rounds. Rounds are looked for now and then.
fn past_rounds(table: StepTable<'_>, place: usize, made: usize, limit: usize) -> usize
    requires { Inside table.faultless.body.rows.now (place_of place) × (made ≤ limit) }
    ensures { Skipped table.entry.faultless.body.rows.now table.entry.faultless.body.pairs.now
        table.entry.faultless.body.bytes.now limit place made result }
{
    if made % 65536 != 0 {
        return made;
    }
    match round_from(table, place) {
        Some(round) => limit - (limit - made) % round,
        None => made,
    }
}

// The walk from row 0, each step looked up in the tables.
#[tactic(auto, using(crate::proofs::Turns::inside_row))]
fn walk_on(table: StepTable<'_>, choices: &[u32], limit: usize) -> Result<WalkEnd, Refusal>
    ensures { given result ≡ walk_on table.entry.faultless.body.rows.now
        table.entry.faultless.body.pairs.now table.entry.faultless.body.bytes.now choices.now limit (at 0) 0 0 }
{
    let mut place = 2;
    let mut made = 0;
    let mut used = 0;
    while made < limit {
        if place < 2 {
            return reached(place, made, used);
        }
        let r = place - 2;
        let mut step = usize::from(table.firsts[r]);
        if is_fork(table.faultless.body, RowNumber(r)) {
            if choices.len() <= used {
                return reached(place, made, used);
            }
            let choice = choices[used] as usize;
            if usize::from(table.firsts[r + 1]) - step <= choice {
                return Err(Refusal::Choice(used));
            }
            step += choice;
            used += 1;
        }
        place = usize::from(table.steps[step]);
        made = past_rounds(table, place, made + 1, limit);
    }
    reached(place, made, used)
}

// The walk of a well-formed body; 8 where it has a fault.
fn walk_of(body: Body<'_>, choices: &[u32], limit: usize) -> Result<WalkEnd, Refusal>
    ensures { given result ≡ walk_call body.entry.rows.now body.entry.pairs.now body.entry.bytes.now
        choices.now limit }
{
    let mut bindings = [0u32; 2000];
    if !faultless::is_faultless(body, &mut bindings) {
        return Err(Refusal::Faulty);
    }
    let faultless = FaultlessBody {
        body,
        bindings: &bindings,
    };
    let mut firsts = [0u16; 2001];
    let mut steps = [0u16; 6000];
    steps::steps_of(faultless, &mut firsts, &mut steps);
    let table = StepTable {
        faultless,
        firsts: &firsts,
        steps: &steps,
    };
    walk_on(table, choices, limit)
}

// The walk from row 0 by the choices, of `limit` steps at most: the place reached, the steps made and
// the choices used; else the refusal.
pub fn walk(
    rows: &[u32],
    pairs: &[u32],
    bytes: &[u8],
    choices: &[u32],
    limit: usize,
) -> Result<WalkEnd, Refusal>
    ensures { given result ≡ walk_call rows.now pairs.now bytes.now choices.now limit }
{
    walk_of(Body::new(rows, pairs, bytes)?, choices, limit)
}
