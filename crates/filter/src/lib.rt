// `marks` as a filter: reads the file of a body from one end, and writes its marks, or its refusal, to
// the other.
#![tactic(auto)]

ghost use Rattle.std.specs.Prelude.{◌≡◌, false, true, ◌<◌, ◌++◌, ℕ, List, length as length_of, IfOk, OnOk, IfSome};
ghost use Rattle.std.specs.Io.KnownBytes.{Appends, IsAtEnd};
ghost use Rattle.input.specs.Reads.{uncounted};
ghost use Rattle.report.specs.Text.{marks_text};
ghost use Rattle.filter.specs.Length.{IsLength, IsLengthOf, IsRest};

use input::Input;
use report::{LONGEST, ROOM};
use std::io;
use std::io::{Read, Write};

// Reads what is left of the input without keeping it, and answers how long the input is.
fn whole_length<R: Read>(from: &mut R, begun: Input) -> io::Result<u64>
    requires { begun.ended ≡ false → begun.length < uncounted }
    ensures { IfOk result (λ n. (begun.ended ≡ true → IsAtEnd (R.remaining from.old)) →
        IsLength begun.length (R.remaining from.old) n) }
{
    let mut piece = [0u8; 65536];
    let mut input = begun;
    while !input.ended {
        let got = input::read_full(from, &mut piece)?;
        input = input::read_on(input, got, piece.len());
    }
    Ok(input.length)
}

// The output for a file that begins with these bytes and has this length.
fn output<'a>(start: &[u8], length: u64, out: &'a mut [u8; ROOM]) -> &'a [u8]
    ensures { (rest : List ℕ) → IsRest start.now rest → IsLengthOf (length_of start.now) rest length →
        result.now ≡ marks_text (start.now ++ rest) }
{
    let end = report::report(start, length, out);
    &out[..end]
}

// Reads a file to its end, and writes its marks, or its refusal.
pub fn marks<R: Read, W: Write>(from: &mut R, to: &mut W) -> io::Result<()>
    ensures { OnOk result (IfSome (R.remaining from.old) (λ file.
        Appends (W.contents to.old) (W.contents to.new) (marks_text file))) }
{
    let mut file = [0u8; LONGEST];
    let mut out = [0u8; ROOM];
    let got = input::read_full(from, &mut file)?;
    let begun = input::read_on(input::unread(), got, file.len());
    let length = whole_length(from, begun)?;
    to.write_all(output(&file[..got], length, &mut out))
}
