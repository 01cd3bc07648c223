// The verbs of the console: their names and shapes in the table of `ask`, the call behind each, and its labels in the arms of `reply`. Those that lend a page are
// functions of `pageverbs`, those that lend rooms of `tableverbs`, and the one that lends both of `wholeverbs`.
#![tactic(auto)]

ghost use Rattle.std.specs.Prelude.{◌+◌, ◌*◌, ◌≤◌, ◌<◌, ◌≡◌, length};
ghost use Rattle.paper.specs.Sheet.{admits};
ghost use Rattle.paper.specs.Writing.{writes};
ghost use Rattle.paper.specs.Reading.{reads};
ghost use Rattle.paper.specs.Plate.{measures_d0, measures_d1};
ghost use Rattle.paper.specs.Page.{opens};
ghost use Rattle.text.specs.Bytes.{bytes};
ghost use Rattle.text.specs.Tokens.{cut};
ghost use Rattle.text.specs.Puts.{Put};
ghost use Rattle.told.specs.Telling.{tells};
ghost use Rattle.lines.specs.Arguments.{sheet_in, arg};
ghost use Rattle.lines.specs.Shapes.{Stands};
ghost use Rattle.lines.specs.Lines.{asked, asked_in, meant, used, shape_at, room_line};
ghost use Rattle.verbs.specs.Replies.{table, replied, room_reply};

use answers::say;
use lines::{Line, parse};
use pageverbs::{pread, pwrite};
use paper::Word;
use rooms::sheet_of;
use tableverbs::{tosheet, totables};
use told::Numbers;
use wholeverbs::wpage;

// `admit SHEET`.
fn admit(ns: &[Word]) -> Numbers
    requires { Stands (bytes "nnnL") 0 ns.now }
    ensures { tells result ≡ admits (sheet_in ns.now) }
{
    Numbers::from(store::admit(&sheet_of(ns)))
}

// `write SHEET message stuck levels`.
fn write(ns: &[Word]) -> Numbers
    requires { Stands (bytes "nnnLwww") 0 ns.now }
    ensures { tells result ≡ writes (sheet_in ns.now) (arg ns.now 0) (arg ns.now 1) (arg ns.now 2) }
{
    let at = 4 + ns[3] as usize;
    Numbers::from(store::write(&sheet_of(ns), ns[at], ns[at + 1], ns[at + 2]))
}

// `read SHEET y radius`.
fn read(ns: &[Word]) -> Numbers
    requires { Stands (bytes "nnnLwn") 0 ns.now }
    ensures { tells result ≡ reads (sheet_in ns.now) (arg ns.now 0) (arg ns.now 1) }
{
    let at = 4 + ns[3] as usize;
    Numbers::from(store::read(&sheet_of(ns), ns[at], ns[at + 1] as u32))
}

// `d0 SHEET cap`.
fn d0(ns: &[Word]) -> Numbers
    requires { Stands (bytes "nnnLn") 0 ns.now }
    ensures { tells result ≡ measures_d0 (sheet_in ns.now) (arg ns.now 0) }
{
    let at = 4 + ns[3] as usize;
    Numbers::from(store::measure_d0(&sheet_of(ns), ns[at] as u32))
}

// `d1 SHEET cap`.
fn d1(ns: &[Word]) -> Numbers
    requires { Stands (bytes "nnnLn") 0 ns.now }
    ensures { tells result ≡ measures_d1 (sheet_in ns.now) (arg ns.now 0) }
{
    let at = 4 + ns[3] as usize;
    Numbers::from(store::measure_d1(&sheet_of(ns), ns[at] as u32))
}

// `open SHEET`.
fn open_page(ns: &[Word]) -> Numbers
    requires { Stands (bytes "nnnL") 0 ns.now }
    ensures { tells result ≡ opens (sheet_in ns.now) }
{
    Numbers::from(opening::open_page(&sheet_of(ns)))
}

// Puts the text of the answer to a verb's call. A verb is its number in the table, which `lines` reads without knowing verbs: an enum of them would say the table once more, and a table of functions be one of function pointers.
#[tactic(auto, unfolding(text::specs::Tokens::cut))]
pub fn reply(verb: usize, ns: &[Word], out: &mut [u8]) -> usize
    requires stands { Stands (shape_at (cut 32 table) verb) 0 ns.now }
    requires room { room_reply ns.now ≤ length out.old }
    ensures put { Put out.old 0 (replied verb ns.now) result out.new }
    ensures upper_bound { result < room_reply ns.now }
{
    match verb {
        0 => say(out, 0, b"admitted", admit(ns)),
        1 => say(out, 0, b"word | d ", write(ns)),
        2 => say(out, 0, b"message | z | tried ", read(ns)),
        3 => say(out, 0, b"distance | tried ", d0(ns)),
        4 => say(out, 0, b"distance | tried | radius ", d1(ns)),
        5 => pwrite(ns, out),
        6 => say(out, 0, b"message | z | tried ", pread(ns)),
        7 => tosheet(ns, out),
        8 => totables(ns, out),
        9 => say(out, 0, b"number ", open_page(ns)),
        10 => wpage(ns, out),
        _ => 0,
    }
}

// What a line asks for, by the table of the verbs: each verb's name and its shape.
pub fn ask(line: &[u8], ns: &mut [Word]) -> Line
    requires { room_line ≤ 2 * length ns.old }
    ensures meaning { meant result ns.new ≡ asked table line.now }
    ensures result_in_bounds { used result ≤ length ns.new }
    ensures ns_after { ns.new ≡ asked_in table line.now ns.old }
{
    parse(
        line,
        b"admit nnnL write nnnLwww read nnnLwn d0 nnnLn d1 nnnLn pwrite nnnLnLRnw pread nnnLnLnn tosheet nnnLLLmw totables nnnLmwmwmw open nnnL wpage nnnLnLRLmw",
        ns,
    )
}
