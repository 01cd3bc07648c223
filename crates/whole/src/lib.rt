// A whole page at once: page_write_all writes a message to each slot, and its results equal the single writes made in slot order. It asks nothing of what it is handed.
// The sheet is checked once, and the records are gone through once a run of slots; a slot is then written as `page::page_write` writes it (`page::put`).
// For N slots and R records that is one admission, R steps for each 128 slots, and for a slot a sum of rows, with an elimination only where that does not fit.
#![tactic(auto)]

ghost use Rattle.std.specs.Prelude.{◌&&◌, List, [], ◌≡◌, ℕ, ◌+◌, ◌<◌, min, eqb, leb, length, IfOk};
ghost use Rattle.paper.specs.Page.{most_slots, most_records, paged};
ghost use Rattle.paper.specs.WholePage.{whole_writes, whole_page, whole_notes, note};
ghost use Rattle.paper.specs.Refusals.{answer, verdict, outcome, written, unless};
ghost use Rattle.records.specs.Runs.{run};
ghost use Rattle.whole.specs.Slots.{slot_told, page_of, notes_of, Writable};

use opening::{admit, are_few};
use page::put;
use paper::{Outcome, Refusal, Sheet, StuckCell, Word, Written};
use records::{RUN, gather_run};
use sheet::Admitted;
use told::number_of;

// What stops a whole-page write before any change: 1 to 6, 16, 13, then 25 unless there is one message and one note a slot.
fn admit_whole<'a>(
    sheet: &Sheet<'a>,
    number: u32,
    slots: usize,
    count: usize,
    messages: usize,
    notes: usize,
) -> Result<Admitted<'a>, Refusal>
    ensures told { verdict result ≡ paged sheet.now number (leb slots most_slots && leb count most_records) (unless (eqb messages slots && eqb notes slots) 25 (answer [])) }
    ensures same { IfOk result (λ s. s ≡ sheet.now) }
{
    let admitted = admit(sheet, number, are_few(slots, count))?;
    if messages != slots {
        return Err(Refusal::Lengths);
    }
    if notes != slots {
        return Err(Refusal::Lengths);
    }
    Ok(admitted)
}

// "A written slot's note is 0, any other's its refusal number alone."
fn note_of(answer: Written) -> Word
    ensures { result ≡ note (written answer) }
{
    match answer {
        Written::Word { .. } => 0,
        Written::Refused(why) => number_of(why) as Word,
    }
}

// Writes and notes the slots of the run that begins at `base`, in slot order, past the rules of sheet and page.
fn write_run(
    sheet: &Admitted,
    page: &mut [Word],
    records: &[StuckCell],
    base: usize,
    messages: &[Word],
    notes: &mut [Word],
)
    requires writable { Writable page.old messages.now notes.old × (base < length page.old) }
    ensures page { (start : List ℕ) → page.old ≡ page_of (slot_told sheet.now records.now messages.now) start base → page.new ≡ page_of (slot_told sheet.now records.now messages.now) start (min (length page.old) (base + run)) }
    ensures notes { (start : List ℕ) → notes.old ≡ notes_of (slot_told sheet.now records.now messages.now) start base → notes.new ≡ notes_of (slot_told sheet.now records.now messages.now) start (min (length page.old) (base + run)) }
{
    let gathered = gather_run(records, sheet.n, base as u32);
    let end = page.len().min(base + RUN);
    // By index: `put` takes the whole page and the slot's number, by which the other lists go too.
    for i in base..end {
        notes[i] = note_of(put(sheet, page, gathered[i - base], i, messages[i]));
    }
}

// Writes and notes every slot, run after run.
fn write_runs(
    sheet: &Admitted,
    page: &mut [Word],
    records: &[StuckCell],
    messages: &[Word],
    notes: &mut [Word],
)
    requires { Writable page.old messages.now notes.old }
    ensures page { page.new ≡ page_of (slot_told sheet.now records.now messages.now) page.old (length page.old) }
    ensures notes { notes.new ≡ notes_of (slot_told sheet.now records.now messages.now) notes.old (length page.old) }
{
    // No for: over (0..page.len()).step_by(RUN), which is proved too, a page took 3 to 8 % more time.
    let mut base = 0;
    while base < page.len() {
        write_run(sheet, page, records, base, messages, notes);
        base += RUN;
    }
}

// Writes a message to each slot of a page, around the stuck cells that the records name: refusals 1 to 6, 16, 13 and 25 stop it before any change; a slot's 15, 7 or 9 is noted by
// its number, and a written slot's note is 0.
pub fn page_write_all(
    sheet: &Sheet,
    number: u32,
    page: &mut [Word],
    records: &[StuckCell],
    messages: &[Word],
    notes: &mut [Word],
) -> Outcome
    ensures result_value { outcome result ≡ whole_writes sheet.now number page.old records.now messages.now notes.old }
    ensures page_after { page.new ≡ whole_page sheet.now number page.old records.now messages.now notes.old }
    ensures notes_after { notes.new ≡ whole_notes sheet.now number page.old records.now messages.now notes.old }
{
    let slots = page.len();
    match admit_whole(
        sheet,
        number,
        slots,
        records.len(),
        messages.len(),
        notes.len(),
    ) {
        Ok(admitted) => {
            write_runs(&admitted, page, records, messages, notes);
            Outcome::Done
        }
        Err(why) => Outcome::Refused(why),
    }
}
