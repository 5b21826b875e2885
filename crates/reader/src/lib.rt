// The verdict call and the placing call on row words that a reader holds. Each goes on to the call on
// the plain slice, in returns and placing.
#![tactic(auto)]

ghost use Rattle.std.specs.Prelude.{◌≡◌};
ghost use Rattle.rules.specs.Calls.{verdict_call, placing_call};
ghost use Rattle.refusals.specs.Returned.{given as given_verdict};
ghost use Rattle.placing.specs.Given.{given as given_placing};

use refusals::Refusal;
use rows::RowNumber;

// A body's row words, held.
#[derive(Clone, Copy, Debug, PartialEq, Eq)]
pub struct Reader<'a> {
    pub rows: &'a [u32],
}

// The reader of these row words.
pub fn over<'a>(rows: &'a [u32]) -> Reader<'a>
    ensures { result.rows ≡ rows.entry }
{
    Reader { rows }
}

// The verdict call on the rows held.
pub fn read_verdict<'a>(reader: Reader<'a>, pairs: &[u32], bytes: &[u8]) -> Result<bool, Refusal>
    ensures { given_verdict result ≡ verdict_call reader.entry.rows.now pairs.now bytes.now }
{
    returns::verdict_of(reader.rows, pairs, bytes)
}

// The placing call on the rows held.
pub fn read_placing<'a>(
    reader: Reader<'a>,
    pairs: &[u32],
    bytes: &[u8],
) -> Result<Option<RowNumber>, Refusal>
    ensures { given_placing result ≡ placing_call reader.entry.rows.now pairs.now bytes.now }
{
    placing::placing_of(reader.rows, pairs, bytes)
}

// The verdict call through a reader, for a caller with plain slices.
pub fn ask_verdict(rows: &[u32], pairs: &[u32], bytes: &[u8]) -> Result<bool, Refusal>
    ensures { given_verdict result ≡ verdict_call rows.now pairs.now bytes.now }
{
    read_verdict(over(rows), pairs, bytes)
}

// The placing call through a reader, for a caller with plain slices.
pub fn ask_placing(rows: &[u32], pairs: &[u32], bytes: &[u8]) -> Result<Option<RowNumber>, Refusal>
    ensures { given_placing result ≡ placing_call rows.now pairs.now bytes.now }
{
    read_placing(over(rows), pairs, bytes)
}
