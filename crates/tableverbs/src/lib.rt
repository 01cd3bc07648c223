// The verbs of the console that lend rooms: tosheet and totables.
#![tactic(auto)]

ghost use Rattle.std.specs.Prelude.{◌+◌, ◌*◌, ◌≤◌, length};
ghost use Rattle.text.specs.Bytes.{bytes};
ghost use Rattle.text.specs.Puts.{Put};
ghost use Rattle.told.specs.Telling.{tells};
ghost use Rattle.lines.specs.Shapes.{Stands, most_room};
ghost use Rattle.tableverbs.specs.Tabling.{sheet_text, rooms_text, tables_text, tosheet_text, totables_text};

use answers::{say, say_list};
use paper::{Sheet, Tables, Word};
use rooms::{list_at, room_at, room_of, sheet_of};
use told::Numbers;

// Builds the sheet of the tables in a lent room, and puts the answer, which ends with the room.
fn build_in(tables: &Tables, room: &mut [Word], out: &mut [u8]) -> usize
    requires { 130 + 21 * length room.old ≤ length out.old }
    ensures put { Put out.old 0 (sheet_text tables.now room.old) result out.new }
    ensures upper_bound { result ≤ 130 + 21 * length room.old }
{
    let told = Numbers::from(building::build(tables, room));
    let said = say(out, 0, b"done", told);
    say_list(out, said, b" room ", room)
}

// `tosheet n k l LIST LIST LIST ROOM`: the tables P, R and Q, and the room for the sheet.
pub fn tosheet(ns: &[Word], out: &mut [u8]) -> usize
    requires stands { Stands (bytes "nnnLLLmw") 0 ns.now }
    requires room { 135 + 21 * (length ns.now + 3 * most_room) ≤ length out.old }
    ensures put { Put out.old 0 (tosheet_text ns.now) result out.new }
    ensures upper_bound { result ≤ 135 + 21 * (length ns.now + 3 * most_room) }
{
    let at_r = 4 + ns[3] as usize;
    let at_q = at_r + 1 + ns[at_r] as usize;
    let at = at_q + 1 + ns[at_q] as usize;
    let asked = room_at(ns, at);
    let size = asked.size;
    let mut room = room_of(asked.fill);
    let tables = Tables {
        n: ns[0] as u32,
        k: ns[1] as u32,
        l: ns[2] as u32,
        p: list_at(ns, 3),
        r: list_at(ns, at_r),
        q: list_at(ns, at_q),
    };
    build_in(&tables, &mut room[..size], out)
}

// Puts what asking for tables told, and the rooms behind it.
fn say_tables(told: Numbers, p: &[Word], r: &[Word], q: &[Word], out: &mut [u8]) -> usize
    requires { 173 + 21 * (length p.now + length r.now + length q.now) ≤ length out.old }
    ensures put { Put out.old 0 (rooms_text (tells told) p.now r.now q.now) result out.new }
    ensures upper_bound { result ≤ 173 + 21 * (length p.now + length r.now + length q.now) }
{
    let said = say(out, 0, b"done", told);
    let said_p = say_list(out, said, b" P ", p);
    let said_r = say_list(out, said_p, b" R ", r);
    say_list(out, said_r, b" Q ", q)
}

// Gives the tables of a sheet in lent rooms, and puts the answer, which ends with the rooms.
fn give_in(sheet: &Sheet, p: &mut [Word], r: &mut [Word], q: &mut [Word], out: &mut [u8]) -> usize
    requires { 173 + 21 * (length p.old + length r.old + length q.old) ≤ length out.old }
    ensures put { Put out.old 0 (tables_text sheet.now p.old r.old q.old) result out.new }
    ensures upper_bound { result ≤ 173 + 21 * (length p.old + length r.old + length q.old) }
{
    let told = Numbers::from(tables::tables(sheet, p, r, q));
    say_tables(told, p, r, q, out)
}

// `totables SHEET ROOM ROOM ROOM`: the rooms for the tables P, R and Q.
pub fn totables(ns: &[Word], out: &mut [u8]) -> usize
    requires stands { Stands (bytes "nnnLmwmwmw") 0 ns.now }
    requires room { 135 + 21 * (length ns.now + 3 * most_room) ≤ length out.old }
    ensures put { Put out.old 0 (totables_text ns.now) result out.new }
    ensures upper_bound { result ≤ 135 + 21 * (length ns.now + 3 * most_room) }
{
    let at = 4 + ns[3] as usize;
    let for_p = room_at(ns, at);
    let for_r = room_at(ns, at + 1 + 1);
    let for_q = room_at(ns, at + 1 + 1 + 1 + 1);
    let size_p = for_p.size;
    let size_r = for_r.size;
    let size_q = for_q.size;
    let mut p = room_of(for_p.fill);
    let mut r = room_of(for_r.fill);
    let mut q = room_of(for_q.fill);
    give_in(
        &sheet_of(ns),
        &mut p[..size_p],
        &mut r[..size_r],
        &mut q[..size_q],
        out,
    )
}
