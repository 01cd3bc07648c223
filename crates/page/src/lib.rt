// A page of names under one sheet: page_write puts a word in one slot, page_read takes one slot. Neither asks anything of what it is handed.
// Each checks the sheet once, judges the page and its arguments in the order of change requests 1 and 6, and then does the job on an admitted sheet.
#![tactic(auto)]

ghost use Rattle.std.specs.Prelude.{◌≡◌, ◌<◌, length};
ghost use Rattle.paper.specs.Page.{page_writes, page_after_write, page_reads};
ghost use Rattle.paper.specs.Refusals.{written, reading};
ghost use Rattle.page.specs.Steps.{puts_admitted, writes_with};

use opening::{admit, are_few};
use paper::{MOST_SLOTS, Reading, Refusal, Sheet, StuckCell, Word, Written};
use records::{Gathered, gather};
use sheet::Admitted;

// Writes one slot, past the rules of sheet and page: 15, then the writer, whose word is put in the slot. For a caller that has judged sheet and page.
#[tactic(auto, unfolding(crate::specs::Steps::puts_admitted))]
pub fn put(
    sheet: &Admitted,
    page: &mut [Word],
    g: Result<Gathered, usize>,
    slot: usize,
    message: Word,
) -> Written
    requires { slot < length page.old }
    ensures result_value { written result ≡ puts_admitted sheet.now g message }
    ensures page_after { page.new ≡ page_after_write (puts_admitted sheet.now g message) page.old slot }
{
    let g = match g {
        Ok(g) => g,
        Err(place) => return Written::Refused(Refusal::Record { place }),
    };
    // The answer is given on case by case, so that the room and what is told are seen in one place.
    match writing::write(sheet, message, g.mask, g.levels) {
        Written::Word { word, d } => {
            page[slot] = word;
            Written::Word { word, d }
        }
        Written::Refused(why) => Written::Refused(why),
    }
}

// Writes one slot, from what its records gather to: 1 to 6, 16, 13, 14, then 15 and the writer.
fn write_gathered(
    sheet: &Sheet,
    number: u32,
    page: &mut [Word],
    count: usize,
    g: Result<Gathered, usize>,
    slot: u32,
    message: Word,
) -> Written
    ensures result_value { written result ≡ writes_with sheet.now number page.old count g slot message }
    ensures page_after { page.new ≡ page_after_write (writes_with sheet.now number page.old count g slot message) page.old slot }
{
    let admitted = match admit(sheet, number, are_few(page.len(), count)) {
        Ok(admitted) => admitted,
        Err(why) => return Written::Refused(why),
    };
    let at = slot as usize;
    if page.len() <= at {
        return Written::Refused(Refusal::NoSlot);
    }
    put(&admitted, page, g, at, message)
}

// A page is lent to a write to be changed and to a read as it is, so that sheet, number and page are handed in one by one.

// Writes a message to one slot of a page, around the stuck cells that the records name: refusals 1 to 6, 16, 13, 14, 15, then 7 and 9.
pub fn page_write(
    sheet: &Sheet,
    number: u32,
    page: &mut [Word],
    records: &[StuckCell],
    slot: u32,
    message: Word,
) -> Written
    ensures result_value { written result ≡ page_writes sheet.now number page.old records.now slot message }
    ensures page_after { page.new ≡ page_after_write (page_writes sheet.now number page.old records.now slot message) page.old slot }
{
    let g = gather(records, slot, sheet.n);
    write_gathered(sheet, number, page, records.len(), g, slot, message)
}

// Reads one slot of a page at a radius: refusals 1 to 6, 16 for the number, 13 for slots only, 14, then 10, 11, 16 for the radius and 12.
pub fn page_read(sheet: &Sheet, number: u32, page: &[Word], slot: u32, radius: u32) -> Reading
    ensures { reading result ≡ page_reads sheet.now number page.now slot radius }
{
    let admitted = match admit(sheet, number, page.len() <= MOST_SLOTS) {
        Ok(admitted) => admitted,
        Err(why) => return Reading::Refused(why),
    };
    let at = slot as usize;
    if page.len() <= at {
        return Reading::Refused(Refusal::NoSlot);
    }
    reading::read_slot(&admitted, number, page[at], radius)
}
