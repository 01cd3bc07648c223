// The console: reads calls from standard input, one a line, and writes one answer a line to standard output.
// What a line is answered is in `talk`; here are the rooms, the pieces of the input, and the order of reads and writes.
#![tactic(auto)]

ghost use Rattle.std.specs.Prelude.{◌+◌, ◌*◌, ◌≤◌, ◌<◌, ◌≡◌, true, [], length, take, IsOk};
ghost use Rattle.text.specs.Tokens.{Whole};
ghost use Rattle.lines.specs.Lines.{room_line, room_numbers};
ghost use Rattle.lines.specs.Shapes.{most_room};
ghost use Rattle.talk.specs.Talk.{Rooms, Answered};

use lines::{MOST_ROOM, ROOM_LINE, ROOM_NUMBERS};
use paper::Word;
use std::io;
use std::io::{Error, Read, Write};
use std::process::ExitCode;
use streams::{end_well, read_piece, tell_failure, write_all};
use talk::take_step;
use text::put_named;

// Writes the answer to a line, if it gets one, and counts it.
fn write_answer<W: Write>(to: &mut W, bytes: &[u8], answers: &mut u64) -> io::Result<()> {
    if !bytes.is_empty() {
        write_all(to, bytes)?;
        *answers = answers.saturating_add(1);
    }
    Ok(())
}

// Tells that an answer could not be written, and how many were.
fn tell_lost<E: Write>(rt: &impl Alloc, errors: &mut E, answers: u64, error: &Error) {
    let mut text = [0u8; 64];
    let end = put_named(
        &mut text,
        0,
        b"console: standard output (answers written: ",
        answers,
        b")",
    );
    tell_failure(rt, errors, &text[..end], error);
}

// Answers each line that ends in a piece of the input, one line after the other: its answer is written before the next is looked at. How many bytes
// are held, and how many answers were written so far, is left in `held` and `answers`.
fn take_in<W: Write>(
    to: &mut W,
    input: &[u8],
    line: &mut [u8],
    held: &mut usize,
    ns: &mut [Word],
    out: &mut [u8],
    answers: &mut u64,
) -> io::Result<()>
    requires held_in_bounds { held.old ≤ length line.old }
    requires whole { Whole 10 (take held.old line.old) }
    requires rooms { Rooms line.old ns.old out.old }
    ensures held_after_in_bounds { held.new ≤ length line.new }
    ensures whole_after { Whole 10 (take held.new line.new) }
    ensures answered { IsOk result → Answered (take held.old line.old) input.now (take held.new line.new) [] }
{
    let mut rest = input;
    while !rest.is_empty() {
        let step = take_step(rest, line, *held, ns, out);
        *held = step.held;
        rest = step.rest;
        write_answer(to, &out[..step.at], answers)?;
    }
    Ok(())
}

// Reads standard input to its end, piece by piece, and answers its lines; says whether all was read and written. Where a read or a write fails it
// stops, and answers nothing of what it holds. A proved loop has to end, and nothing says that the input does: so it counts its turns, up to a number
// that no run uses up.
fn run<R: Read, W: Write, E: Write>(
    rt: &impl Alloc,
    from: &mut R,
    to: &mut W,
    errors: &mut E,
    input: &mut [u8],
    line: &mut [u8],
    ns: &mut [Word],
    out: &mut [u8],
) -> bool
    requires input_nonzero { 0 < length input.old }
    requires rooms { Rooms line.old ns.old out.old }
{
    let mut held = 0;
    let mut answers: u64 = 0;
    for _ in 0..u64::MAX {
        let Some(piece) = read_piece(rt, from, errors, input, b"console: standard input") else {
            return false;
        };
        let count = piece.count;
        if let Err(error) = take_in(to, &input[..count], line, &mut held, ns, out, &mut answers) {
            tell_lost(rt, errors, answers, &error);
            return false;
        }
        if piece.last {
            return true;
        }
    }
    false
}

// Room for a line: two bytes more than a call may have, so that with a carriage return a line that is too long is still seen to be.
fn room_for_line() -> [u8; ROOM_LINE + 2]
    ensures { 2 + room_line ≡ length result }
{
    [0; ROOM_LINE + 2]
}

// Room for the numbers of a line: each takes two bytes of it. A function for each room says its length by the definition that contracts name, which a const parameter cannot.
fn room_for_numbers() -> [Word; ROOM_NUMBERS]
    ensures { room_numbers ≡ length result }
{
    [0; ROOM_NUMBERS]
}

// Room for one answer: its own text, a list of all numbers of a line, and three rooms that it may ask for.
fn room_for_answer() -> [u8; 160 + 21 * (ROOM_NUMBERS + 3 * MOST_ROOM)]
    ensures { 160 + 21 * (room_numbers + 3 * most_room) ≡ length result }
{
    [0; 160 + 21 * (ROOM_NUMBERS + 3 * MOST_ROOM)]
}

// The rooms are made once. The status says whether all was read and written.
fn main(rt: HostRuntime) -> ExitCode {
    let mut input = [0u8; 1024];
    let mut line = room_for_line();
    let mut ns = room_for_numbers();
    let mut out = room_for_answer();
    let mut from = rt.stdin();
    let mut to = rt.stdout();
    let mut errors = rt.stderr();
    if run(
        &rt,
        &mut from,
        &mut to,
        &mut errors,
        &mut input,
        &mut line,
        &mut ns,
        &mut out,
    ) {
        end_well()
    } else {
        ExitCode::FAILURE
    }
}
