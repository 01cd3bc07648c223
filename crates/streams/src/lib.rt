// Standard input and output, with their faults: what a signal broke off is tried again, a write that takes a part goes on with the rest, and any
// other failure ends the reading or writing, and can be told on standard error.
#![tactic(auto)]

ghost use Rattle.std.specs.Prelude.{◌≤◌, ◌<◌, ◌≡◌, true, false, [], ◌∷◌, length, take, IfSome, OnOk};
ghost use Rattle.std.specs.Io.{ReadsAtMost, WritesAtMost};
ghost use Rattle.std.specs.Io.KnownBytes.{Appends, Consumes, IsAtEnd, ReadConsumes, WriteAppends};
ghost use Rattle.std.specs.Process.{exit_status};

use std::alloc::AllocError;
use std::io::{Error, ErrorKind, Read, Write};
use std::process::ExitCode;

// How often a read or a write that a signal broke off is tried.
const TRIES: u32 = 1000;

// Whether a signal broke off what failed.
fn is_broken_off(error: &Error) -> bool {
    error.kind() == ErrorKind::Interrupted
}

// Reads into a room.
fn read_some<R: Read>(from: &mut R, input: &mut [u8]) -> std::io::Result<usize>
    ensures bound { ReadsAtMost result input.new }
    ensures bytes { ReadConsumes (R.remaining from.old) (R.remaining from.new) result input.new }
{
    for _ in 1..TRIES {
        match from.read(input) {
            Err(error) if is_broken_off(&error) => {}
            got => return got,
        }
    }
    from.read(input)
}

// A piece of the input: how many bytes of the room it has, and whether it is the last. No enum of the two: each case would have the count.
#[derive(Clone, Copy)]
pub struct Piece {
    pub count: usize,
    pub last: bool,
}

// Reads a piece of the input. Where the input ends, a newline is its last piece, so that a last line without one ends too. A failure is told on
// standard error, under the given name, and is no piece: what came before it is not taken for a line.
pub fn read_piece<R: Read, W: Write>(
    rt: &impl Alloc,
    from: &mut R,
    errors: &mut W,
    input: &mut [u8],
    name: &[u8],
) -> Option<Piece>
    requires { 0 < length input.old }
    ensures count_in_bounds { IfSome result (λ piece. piece.count ≤ length input.new) }
    ensures input_after { IfSome result (λ piece. piece.last ≡ true → take piece.count input.new ≡ 10 ∷ []) }
    ensures piece { IfSome result (λ piece. piece.last ≡ false → Consumes (R.remaining from.old) (R.remaining from.new) (take piece.count input.new)) }
    ensures end { IfSome result (λ piece. piece.last ≡ true → IsAtEnd (R.remaining from.old)) }
{
    match read_some(from, input) {
        Err(error) => {
            tell_failure(rt, errors, name, &error);
            None
        }
        Ok(0) => {
            input[0] = b'\n';
            Some(Piece {
                count: 1,
                last: true,
            })
        }
        Ok(count) => Some(Piece { count, last: false }),
    }
}

// Writes the first bytes of a text, and says how many. The loop is that of `read_some`: with the call as a closure both contracts would be the closure's, and neither function shorter.
fn write_some<W: Write>(to: &mut W, bytes: &[u8]) -> std::io::Result<usize>
    ensures bound { WritesAtMost result bytes.now }
    ensures bytes { WriteAppends (W.contents to.old) (W.contents to.new) result bytes.now }
{
    for _ in 1..TRIES {
        match to.write(bytes) {
            Err(error) if is_broken_off(&error) => {}
            put => return put,
        }
    }
    to.write(bytes)
}

// Writes all of a text.
pub fn write_all<W: Write>(to: &mut W, bytes: &[u8]) -> std::io::Result<()>
    ensures { OnOk result (Appends (W.contents to.old) (W.contents to.new) bytes.now) }
{
    let mut rest = bytes;
    while !rest.is_empty() {
        let count = write_some(to, rest)?;
        if count == 0 {
            return Err(Error::from(ErrorKind::WriteZero));
        }
        rest = &rest[count..];
    }
    Ok(())
}

// The system's words for a failure, without its number.
fn words_of(error: &str) -> &str {
    match error.split_once(" (os error ") {
        Some((words, _)) => words,
        None => error,
    }
}

// Writes why a read or a write failed, behind a name, on a line.
fn put_failure<W: Write>(
    rt: &impl Alloc,
    to: &mut W,
    name: &[u8],
    error: &Error,
) -> std::io::Result<()> {
    write_all(to, name)?;
    write_all(to, b": ")?;
    match format!(in rt.alloc(); "{error}") {
        Ok(text) => write_all(to, words_of(text.as_str()).as_bytes())?,
        Err(AllocError) => write!(to, "{error}")?,
    }
    write_all(to, b"\n")
}

// Tells on standard error, or what stands for it, under the given name, why a read or a write failed. Where that fails too, nobody can be told.
pub fn tell_failure<W: Write>(rt: &impl Alloc, to: &mut W, name: &[u8], error: &Error) {
    let _lost = put_failure(rt, to, name, error);
}

// How a program ends well: the exit status says so to its caller, and a byte on descriptor 3, for a caller that opened it.
pub fn end_well() -> ExitCode
    ensures { exit_status result ≡ 0 }
{
    let _told = io::write_all(3, b".");
    ExitCode::SUCCESS
}
