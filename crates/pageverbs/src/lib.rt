// The verbs of the console that lend a page: pread and pwrite.
#![tactic(auto)]

ghost use Rattle.std.specs.Prelude.{◌≡◌, ◌+◌, ◌*◌, ◌≤◌, length, take};
ghost use Rattle.paper.specs.Page.{page_after_write};
ghost use Rattle.text.specs.Bytes.{bytes};
ghost use Rattle.text.specs.Puts.{Put};
ghost use Rattle.told.specs.Telling.{tells};
ghost use Rattle.lines.specs.Arguments.{at};
ghost use Rattle.lines.specs.Shapes.{Stands};
ghost use Rattle.rooms.specs.Lent.{room_slots, records_end, page_in};
ghost use Rattle.pageverbs.specs.Pages.{page_written, pwrite_text, page_reading};

use answers::{say, say_list};
use paper::{MOST_SLOTS, Word};
use rooms::{ROOM_RECORDS, ROOM_SLOTS, copy_page, copy_records, sheet_of};
use told::Numbers;

// `pread SHEET number LIST slot radius`.
pub fn pread(ns: &[Word]) -> Numbers
    requires { Stands (bytes "nnnLnLnn") 0 ns.now }
    ensures { tells result ≡ page_reading ns.now }
{
    let rows = 4 + ns[3] as usize;
    let number = ns[rows] as u32;
    let from = rows + 1 + 1;
    let end = from + ns[rows + 1] as usize;
    Numbers::from(page::page_read(
        &sheet_of(ns),
        number,
        &ns[from..end],
        ns[end] as u32,
        ns[end + 1] as u32,
    ))
}

// Writes a slot of the lent copy of the line's page. Of a page or of records that are too many, one more than there may be are enough to tell it.
fn write_page(ns: &[Word], page: &mut [Word]) -> Numbers
    requires stands { Stands (bytes "nnnLnLRnw") 0 ns.now }
    requires page_value { page.old ≡ take room_slots (page_in ns.now) }
    ensures result_value { tells result ≡ page_written ns.now }
    ensures page_after { page.new ≡ page_after_write (page_written ns.now) page.old (at ns.now (records_end ns.now)) }
{
    // The places are summed up here, as in `wholeverbs`: out of `Stands` of this shape the check finds each, and a struct of them would carry six facts.
    let rows = 4 + ns[3] as usize;
    let end = rows + 1 + 1 + ns[rows + 1] as usize;
    let count = ns[end] as usize;
    let last = end + 1 + 3 * count;
    let held = count.min(ROOM_RECORDS);
    let records = copy_records(ns, end + 1, held);
    Numbers::from(page::page_write(
        &sheet_of(ns),
        ns[rows] as u32,
        page,
        &records[..held],
        ns[last] as u32,
        ns[last + 1],
    ))
}

// `pwrite SHEET number LIST RECS slot message`. Its answer ends with the page: the copy, or the line's own where there are too many slots, since nothing is written then.
pub fn pwrite(ns: &[Word], out: &mut [u8]) -> usize
    requires stands { Stands (bytes "nnnLnLRnw") 0 ns.now }
    requires room { 135 + 21 * length ns.now ≤ length out.old }
    ensures put { Put out.old 0 (pwrite_text ns.now) result out.new }
    ensures upper_bound { result ≤ 135 + 21 * length ns.now }
{
    let at = 4 + ns[3] as usize + 1;
    let slots = ns[at] as usize;
    let from = at + 1;
    let end = from + slots;
    let held = slots.min(ROOM_SLOTS);
    let mut page = copy_page(ns, from, held);
    let told = write_page(ns, &mut page[..held]);
    let said = say(out, 0, b"word | d ", told);
    let few = slots <= MOST_SLOTS;
    if few {
        say_list(out, said, b" page ", &page[..held])
    } else {
        say_list(out, said, b" page ", &ns[from..end])
    }
}
