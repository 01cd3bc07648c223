// The verb of the console that writes a whole page: wpage.
#![tactic(auto)]

ghost use Rattle.std.specs.Prelude.{◌≡◌, ◌+◌, ◌*◌, ◌≤◌, length, take};
ghost use Rattle.paper.specs.Page.{most_slots};
ghost use Rattle.text.specs.Bytes.{bytes};
ghost use Rattle.text.specs.Puts.{Put};
ghost use Rattle.told.specs.Telling.{tells};
ghost use Rattle.lines.specs.Shapes.{Stands, most_room};
ghost use Rattle.rooms.specs.Lent.{room_slots, page_in};
ghost use Rattle.wholeverbs.specs.Wholes.{notes_in, whole_written, page_left, notes_left, whole_text, wpage_text};

use answers::{say, say_list};
use paper::{MOST_SLOTS, Word};
use rooms::{
    ROOM_RECORDS, ROOM_SLOTS, copy_page, copy_records, list_at, room_at, room_of, sheet_of,
};
use told::Numbers;
use whole::page_write_all;

// The three functions below ask for the same shape of the line and for what was copied of it, each of its own room, and no type: a clause says what the caller lends.

// Writes the lent copy of the line's page, and the notes. Of a page or of records that are too many, one more than there may be are enough to tell it.
fn write_whole(ns: &[Word], page: &mut [Word], notes: &mut [Word]) -> Numbers
    requires stands { Stands (bytes "nnnLnLRLmw") 0 ns.now }
    requires page_value { page.old ≡ take room_slots (page_in ns.now) }
    requires notes_value { notes.old ≡ notes_in ns.now }
    ensures result_value { tells result ≡ whole_written ns.now }
    ensures page_after { length page.old ≤ most_slots → page.new ≡ page_left ns.now }
    ensures notes_after { notes.new ≡ notes_left ns.now }
{
    let rows = 4 + ns[3] as usize;
    let end = rows + 1 + 1 + ns[rows + 1] as usize;
    let count = ns[end] as usize;
    let last = end + 1 + 3 * count;
    let held = count.min(ROOM_RECORDS);
    let records = copy_records(ns, end + 1, held);
    Numbers::from(page_write_all(
        &sheet_of(ns),
        ns[rows] as u32,
        page,
        &records[..held],
        list_at(ns, last),
        notes,
    ))
}

// Puts what the write told, and the page and the notes behind it.
fn say_whole(told: Numbers, page: &[Word], notes: &[Word], out: &mut [u8]) -> usize
    requires { 157 + 21 * (length page.now + length notes.now) ≤ length out.old }
    ensures put { Put out.old 0 (whole_text (tells told) page.now notes.now) result out.new }
    ensures upper_bound { result ≤ 157 + 21 * (length page.now + length notes.now) }
{
    let said = say(out, 0, b"done", told);
    let said_page = say_list(out, said, b" page ", page);
    say_list(out, said_page, b" notes ", notes)
}

// Writes the lent copy and the notes, and puts the answer. It has the line's own page where there are too many slots, since nothing is written then.
fn write_in(ns: &[Word], page: &mut [Word], notes: &mut [Word], out: &mut [u8]) -> usize
    requires stands { Stands (bytes "nnnLnLRLmw") 0 ns.now }
    requires page_value { page.old ≡ take room_slots (page_in ns.now) }
    requires notes_value { notes.old ≡ notes_in ns.now }
    requires room { 135 + 21 * (length ns.now + length notes.old) ≤ length out.old }
    ensures put { Put out.old 0 (wpage_text ns.now) result out.new }
    ensures upper_bound { result ≤ 135 + 21 * (length ns.now + length notes.old) }
{
    let told = write_whole(ns, page, notes);
    if page.len() <= MOST_SLOTS {
        say_whole(told, page, notes, out)
    } else {
        let at = 4 + ns[3] as usize + 1;
        say_whole(told, list_at(ns, at), notes, out)
    }
}

// `wpage SHEET number LIST RECS LIST ROOM`: the page, the messages, and the room for the notes.
pub fn wpage(ns: &[Word], out: &mut [u8]) -> usize
    requires stands { Stands (bytes "nnnLnLRLmw") 0 ns.now }
    requires room { 135 + 21 * (length ns.now + 3 * most_room) ≤ length out.old }
    ensures put { Put out.old 0 (wpage_text ns.now) result out.new }
    ensures upper_bound { result ≤ 135 + 21 * (length ns.now + 3 * most_room) }
{
    let at = 4 + ns[3] as usize + 1;
    let slots = ns[at] as usize;
    let end = at + 1 + slots;
    let last = end + 1 + 3 * ns[end] as usize;
    let asked = room_at(ns, last + 1 + ns[last] as usize);
    let size = asked.size;
    let held = slots.min(ROOM_SLOTS);
    let mut page = copy_page(ns, at + 1, held);
    let mut notes = room_of(asked.fill);
    write_in(ns, &mut page[..held], &mut notes[..size], out)
}
