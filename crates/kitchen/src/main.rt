// The small program of document 01: it measures the kitchen sheet at cap 8, writes message 5 with cell 0 stuck at 0 and reads the
// result at radius 1. Its whole output is four lines, put into one room and written at once; the gate compares them with `stdout` beside `src`.
#![tactic(auto)]

ghost use Rattle.std.specs.Prelude.{◌+◌, ◌≤◌, length};

use paper::{Count, MeasuredD0, MeasuredD1, Reading, Sheet, Word, Written};
use std::process::ExitCode;
use streams::{end_well, tell_failure, write_all};
use text::{put, put_named};

// The rows of the kitchen sheet: G1, G0, H, M.
const KITCHEN_ROWS: [Word; 10] = [49, 82, 100, 127, 27, 45, 78, 9, 10, 12];

// A number with its name and how many were tried, on a line.
fn put_tried(out: &mut [u8], at: usize, name: &[u8], value: Word, tried: Count) -> usize
    requires name_len_bound { length name.now ≤ 5 }
    requires at_in_bounds { at + 60 ≤ length out.old }
    ensures { result ≤ at + 60 }
{
    let next = put_named(out, at, name, value as u64, b" ");
    put_named(out, next, b"tried ", tried as u64, b"\n")
}

// What the box answers else, which the four lines never show.
fn put_refusal(out: &mut [u8], at: usize) -> usize
    requires { at + 60 ≤ length out.old }
    ensures { result ≤ at + 60 }
{
    put(out, at, b"refused\n")
}

// "d0 2 tried 8"
fn put_d0(out: &mut [u8], at: usize, sheet: &Sheet) -> usize
    requires { at + 60 ≤ length out.old }
    ensures { result ≤ at + 60 }
{
    match store::measure_d0(sheet, 8) {
        MeasuredD0::Distance { d, tried } => put_tried(out, at, b"d0 ", d as Word, tried),
        _ => put_refusal(out, at),
    }
}

// "d1 3 tried 29". The two measurements answer with two types, so that there is a function for each.
fn put_d1(out: &mut [u8], at: usize, sheet: &Sheet) -> usize
    requires { at + 60 ≤ length out.old }
    ensures { result ≤ at + 60 }
{
    match store::measure_d1(sheet, 8) {
        MeasuredD1::Distance { d, tried, .. } => put_tried(out, at, b"d1 ", d as Word, tried),
        _ => put_refusal(out, at),
    }
}

// "read 5 tried 1"
fn put_read(out: &mut [u8], at: usize, sheet: &Sheet, word: Word) -> usize
    requires { at + 60 ≤ length out.old }
    ensures { result ≤ at + 60 }
{
    match store::read(sheet, word, 1) {
        Reading::Message { message, tried, .. } => put_tried(out, at, b"read ", message, tried),
        Reading::Refused(_) => put_refusal(out, at),
    }
}

// "write 42", and the word read back.
fn put_write(out: &mut [u8], at: usize, sheet: &Sheet) -> usize
    requires { at + 90 ≤ length out.old }
    ensures { result ≤ at + 90 }
{
    match store::write(sheet, 5, 1, 0) {
        Written::Word { word, .. } => {
            let next = put_named(out, at, b"write ", word as u64, b"\n");
            put_read(out, next, sheet, word)
        }
        Written::Refused(_) => put_refusal(out, at),
    }
}

// The four lines, in their order.
fn put_lines(out: &mut [u8], sheet: &Sheet) -> usize
    requires { 210 ≤ length out.old }
    ensures { result ≤ 210 }
{
    let first = put_d0(out, 0, sheet);
    let second = put_d1(out, first, sheet);
    put_write(out, second, sheet)
}

// The room for the lines, and what was put into it, written at once. The status says whether it was written.
fn main(rt: HostRuntime) -> ExitCode {
    let sheet = Sheet {
        n: 7,
        k: 3,
        l: 1,
        rows: &KITCHEN_ROWS,
    };
    let mut out = [0u8; 210];
    let end = put_lines(&mut out, &sheet);
    match write_all(&mut rt.stdout(), &out[..end]) {
        Ok(()) => end_well(),
        Err(error) => {
            tell_failure(&rt, &mut rt.stderr(), b"kitchen: standard output", &error);
            ExitCode::FAILURE
        }
    }
}
