// The conversation: the answer to a line, and the steps through the input, however it is cut into pieces. Nothing here reads or writes.
#![tactic(auto)]

ghost use Rattle.std.specs.Prelude.{◌≡◌, ◌*◌, ◌≤◌, ◌<◌, length, take, drop};
ghost use Rattle.text.specs.Tokens.{Whole};
ghost use Rattle.text.specs.Puts.{Put};
ghost use Rattle.lines.specs.Lines.{asked, asked_in, room_line};
ghost use Rattle.verbs.specs.Replies.{table, room_reply};
ghost use Rattle.verbs.specs.Replies.{reply as Replies·reply};
ghost use Rattle.talk.specs.Talk.{Rooms, Stepped, Left};

use lines::Line;
use paper::Word;
use text::{Taken, put, take_line};
use verbs::{ask, reply};

// Puts the answer to a line, if it gets one.
fn answer(line: &[u8], ns: &mut [Word], out: &mut [u8]) -> usize
    requires room_line_bound { room_line ≤ 2 * length ns.old }
    requires room { room_reply ns.old ≤ length out.old }
    ensures put { Put out.old 0 (Replies·reply (asked table line.now)) result out.new }
    ensures upper_bound { result ≤ length out.old }
    ensures ns_after { ns.new ≡ asked_in table line.now ns.old }
{
    match ask(line, ns) {
        Line::Silent => 0,
        Line::Unknown => put(out, 0, b"unknown\n"),
        Line::Call { verb, count } => {
            let end = reply(verb, &ns[..count], out);
            put(out, end, b"\n")
        }
    }
}

// What a step leaves: how many bytes are held of a line that has not ended, how many of the input were taken and the input behind them, and how many bytes the answer has.
#[derive(Clone, Copy)]
pub struct Step<'a> {
    pub held: usize,
    pub from: usize,
    pub rest: &'a [u8],
    pub at: usize,
}

// Takes the bytes up to the next newline, and answers the line that it ends. More than a call may have is enough of a line to answer it, so
// that no more is held than the room has.
// The rooms are lent apart and are of any size that `Rooms` asks, here and in the console: a struct of them would be of one size, or hide what `Left` says of each.
pub fn take_step<'a>(
    input: &'a [u8],
    line: &mut [u8],
    held: usize,
    ns: &mut [Word],
    out: &mut [u8],
) -> Step<'a>
    requires input_nonzero { 0 < length input.now }
    requires held_in_bounds { held ≤ length line.old }
    requires whole { Whole 10 (take held line.old) }
    requires rooms { Rooms line.old ns.old out.old }
    ensures stepped { Stepped (take held line.old) input.now (take result.at out.new) (take result.held line.new) result.rest.now }
    ensures rest_value { result.rest.now ≡ drop result.from input.now }
    ensures in_bounds { (0 < result.from) × (result.from ≤ length input.now) × (length result.rest.now < length input.now) × (result.held ≤ length line.old) × (result.at ≤ length out.old) }
    ensures left { Left input.now held line.old ns.old out.old result line.new ns.new out.new }
{
    let Taken { held, from, rest } = take_line(input, line, held);
    let Some(rest) = rest else {
        return Step {
            held,
            from,
            rest: &[],
            at: 0,
        };
    };
    let at = answer(&line[..held], ns, out);
    Step {
        held: 0,
        from,
        rest,
        at,
    }
}
