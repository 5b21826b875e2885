// How long an input is that is read in pieces.
#![tactic(auto)]

ghost use Rattle.std.specs.Prelude.{◌≡◌, false, ◌+◌, ◌≤◌, ◌<◌, length as length_of, take, IfOk};
ghost use Rattle.std.specs.Io.{ReadsAtMost};
ghost use Rattle.std.specs.Io.KnownBytes.{Consumes, IsAtEnd};
ghost use Rattle.input.specs.Reads.{uncounted, is_last};

use std::io;
use std::io::Read;

// An input of 2^37 bytes or more isn't counted further.
const UNCOUNTED: u64 = 1 << 37;

// What is known of an input: how many bytes have been read, and whether those are all.
#[derive(Clone, Copy, Debug, PartialEq, Eq)]
pub struct Input {
    pub length: u64,
    pub ended: bool,
}

// Nothing has been read.
pub fn unread() -> Input
    ensures { (result.length ≡ 0) × (result.ended ≡ false) }
{
    Input {
        length: 0,
        ended: false,
    }
}

// After one more read, which gave `got` bytes where there was room for `room`.
#[tactic(auto, using(std::proofs::lemmas::Bool::Decides::nat_tests), unfolding(crate::specs::Reads::is_last))]
pub fn read_on(input: Input, got: usize, room: usize) -> Input
    requires { (input.length < uncounted) × (got ≤ 65536) }
    ensures length { result.length ≡ input.length + got }
    ensures ended { result.ended ≡ is_last (input.length + got) (record { got = got; room = room }) }
{
    let length = input.length + got as u64;
    let ended = got < room || UNCOUNTED <= length;
    Input { length, ended }
}

// Reads until `buf` is full or the input ends, and answers how many bytes were read.
pub fn read_full<R: Read>(from: &mut R, buf: &mut [u8]) -> io::Result<usize>
    ensures bound { ReadsAtMost result buf.new }
    ensures bytes { IfOk result (λ n. Consumes (R.remaining from.old) (R.remaining from.new) (take n buf.new)) }
    ensures end { IfOk result (λ n. n < length_of buf.new → IsAtEnd (R.remaining from.new)) }
{
    let mut done = 0;
    while done < buf.len() {
        let got = from.read(&mut buf[done..])?;
        if got == 0 {
            break;
        }
        done += got;
    }
    Ok(done)
}
