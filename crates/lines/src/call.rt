// What a line asks for: a verb of the table and the numbers of its shape.
ghost use Rattle.std.specs.Prelude.{◌≡◌, ◌*◌, ◌≤◌, length};
ghost use Rattle.text.specs.Tokens.{cut};
ghost use Rattle.lines.specs.Lines.{silent, unknown, lookup, found, spelled, comes, trimmed, calling, asked, storing, asked_in, meant, used, room_line};

use crate::shape::fill;
use paper::Word;
use text::next_token;

// The most bytes that a call's line may have, without the newline.
pub const ROOM_LINE: usize = 131071;

// The most numbers that such a line has: each has a byte at least, and a space before it.
pub const ROOM_NUMBERS: usize = 65536;

// What a line asks for: nothing; what is no call; or the call of a verb, by its number, on the first `count` numbers of the room.
#[derive(Clone, Copy)]
pub enum Line {
    Silent,
    Unknown,
    Call { verb: usize, count: usize },
}

// Finds a verb's name in a table of names and shapes in turn, separated by spaces: its number and its shape.
fn find<'a>(table: &'a [u8], name: &[u8]) -> Option<(usize, &'a [u8])>
    ensures { found result ≡ lookup name.now 0 (cut 32 table.now) }
{
    let mut rest = table;
    // The number is the answer, and is counted with the entries: an iterator of entries would be a type of its own.
    let mut v = 0;
    loop {
        let (entry, behind) = next_token(rest, b' ');
        let (shape, next) = next_token(behind?, b' ');
        if entry == name {
            return Some((v, shape));
        }
        rest = next?;
        v += 1;
    }
}

// The call that the tokens of a line spell.
fn parse_call(line: &[u8], table: &[u8], numbers: &mut [Word]) -> Line
    requires { length line.now ≤ 2 * length numbers.old }
    ensures meaning { meant result numbers.new ≡ spelled unknown calling table.now (cut 32 line.now) }
    ensures result_in_bounds { used result ≤ length numbers.new }
    ensures numbers_after { numbers.new ≡ spelled numbers.old (storing numbers.old) table.now (cut 32 line.now) }
{
    let (name, behind) = next_token(line, b' ');
    let Some(tokens) = behind else {
        return Line::Unknown;
    };
    let Some((verb, shape)) = find(table, name) else {
        return Line::Unknown;
    };
    match fill(tokens, shape, numbers) {
        Some(count) => Line::Call { verb, count },
        None => Line::Unknown,
    }
}

// What a line that ends at its last byte asks for. Its numbers are left in the lent room.
#[tactic(auto, using(crate::proofs::Lines::line_cases))]
fn parse_trimmed(line: &[u8], table: &[u8], numbers: &mut [Word]) -> Line
    requires { room_line ≤ 2 * length numbers.old }
    ensures meaning { meant result numbers.new ≡ comes unknown calling silent table.now line.now }
    ensures result_in_bounds { used result ≤ length numbers.new }
    ensures numbers_after { numbers.new ≡ comes numbers.old (storing numbers.old) numbers.old table.now line.now }
{
    match line {
        [] | [b'#', ..] => Line::Silent,
        _ if ROOM_LINE < line.len() => Line::Unknown,
        _ => parse_call(line, table, numbers),
    }
}

// A line without the carriage return that may be its last byte.
#[tactic(auto, using(crate::proofs::Lines::trims))]
fn trimmed(line: &[u8]) -> &[u8]
    ensures { result.now ≡ trimmed line.now }
{
    match line {
        [front @ .., b'\r'] => front,
        _ => line,
    }
}

// What a line asks for. Its numbers are left in the lent room, which has a place for each two bytes of a line, here and wherever a line is handed on.
pub fn parse(line: &[u8], table: &[u8], numbers: &mut [Word]) -> Line
    requires { room_line ≤ 2 * length numbers.old }
    ensures meaning { meant result numbers.new ≡ asked table.now line.now }
    ensures result_in_bounds { used result ≤ length numbers.new }
    ensures numbers_after { numbers.new ≡ asked_in table.now line.now numbers.old }
{
    parse_trimmed(trimmed(line), table, numbers)
}
