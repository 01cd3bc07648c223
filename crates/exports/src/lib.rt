// The calls for a program in C or Rust, which links the archive that `rt lib` builds here: a slice passes as a pointer and a length, and
// an answer as the numbers that it tells. None asks anything of what it is handed, and none but `namestore_page_write_all`, which writes to
// page and notes, writes to what it is lent.
#![tactic(auto)]

ghost use Rattle.std.specs.Prelude.{◌≡◌};
ghost use Rattle.paper.specs.Sheet.{sheet, admits};
ghost use Rattle.paper.specs.Writing.{writes};
ghost use Rattle.paper.specs.Reading.{reads};
ghost use Rattle.paper.specs.Plate.{measures_d0, measures_d1};
ghost use Rattle.paper.specs.WholePage.{whole_writes, whole_page, whole_notes};
ghost use Rattle.told.specs.Telling.{tells};

use paper::{Sheet, StuckCell, Word};
use told::Numbers;

// Admits a sheet: `store::admit`.
#[unsafe(no_mangle)]
pub extern "C" fn namestore_admit(n: u32, k: u32, l: u32, rows: &[Word]) -> Numbers
    ensures { tells result ≡ admits (sheet n k l rows.now) }
{
    Numbers::from(store::admit(&Sheet { n, k, l, rows }))
}

// Writes a message around the stuck cells: `store::write`.
#[unsafe(no_mangle)]
pub extern "C" fn namestore_write(
    n: u32,
    k: u32,
    l: u32,
    rows: &[Word],
    message: Word,
    stuck: Word,
    levels: Word,
) -> Numbers
    ensures { tells result ≡ writes (sheet n k l rows.now) message stuck levels }
{
    Numbers::from(store::write(&Sheet { n, k, l, rows }, message, stuck, levels))
}

// Reads a word at a radius: `store::read`.
#[unsafe(no_mangle)]
pub extern "C" fn namestore_read(
    n: u32,
    k: u32,
    l: u32,
    rows: &[Word],
    y: Word,
    radius: u32,
) -> Numbers
    ensures { tells result ≡ reads (sheet n k l rows.now) y radius }
{
    Numbers::from(store::read(&Sheet { n, k, l, rows }, y, radius))
}

// Measures d0 up to a cap: `store::measure_d0`.
#[unsafe(no_mangle)]
pub extern "C" fn namestore_d0(n: u32, k: u32, l: u32, rows: &[Word], cap: u32) -> Numbers
    ensures { tells result ≡ measures_d0 (sheet n k l rows.now) cap }
{
    Numbers::from(store::measure_d0(&Sheet { n, k, l, rows }, cap))
}

// Measures d1 up to a cap: `store::measure_d1`.
#[unsafe(no_mangle)]
pub extern "C" fn namestore_d1(n: u32, k: u32, l: u32, rows: &[Word], cap: u32) -> Numbers
    ensures { tells result ≡ measures_d1 (sheet n k l rows.now) cap }
{
    Numbers::from(store::measure_d1(&Sheet { n, k, l, rows }, cap))
}

// Writes a message to each slot of a page and notes each slot: `whole::page_write_all`.
#[unsafe(no_mangle)]
pub extern "C" fn namestore_page_write_all(
    n: u32,
    k: u32,
    l: u32,
    rows: &[Word],
    number: u32,
    page: &mut [Word],
    records: &[StuckCell],
    messages: &[Word],
    notes: &mut [Word],
) -> Numbers
    ensures result_value { tells result ≡ whole_writes (sheet n k l rows.now) number page.old records.now messages.now notes.old }
    ensures page_after { page.new ≡ whole_page (sheet n k l rows.now) number page.old records.now messages.now notes.old }
    ensures notes_after { notes.new ≡ whole_notes (sheet n k l rows.now) number page.old records.now messages.now notes.old }
{
    let sheet = Sheet { n, k, l, rows };
    Numbers::from(whole::page_write_all(&sheet, number, page, records, messages, notes))
}
