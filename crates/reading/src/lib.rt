// Reading on an admitted sheet: the word and the radius are judged in the order of the table "When the box says no", for a slot of a page also against the
// page's plate number, and the nearest codeword is searched for.
// The sheet is not checked here: the caller has, so that one which does many jobs on a sheet checks it once.
#![tactic(auto)]

ghost use Rattle.std.specs.Prelude.{[], ◌≡◌, ◌≤◌};
ghost use Rattle.paper.specs.First.{first};
ghost use Rattle.paper.specs.Words.{width};
ghost use Rattle.words.specs.Places.{as_first};
ghost use Rattle.paper.specs.Refusals.{answer, verdict, reading};
ghost use Rattle.paper.specs.Page.{slot_reads};
ghost use Rattle.paper.specs.Reading.{most_radius, stray_cell, nearest, heard, reads_admitted};
ghost use Rattle.listing.specs.Searches.{searched};
ghost use Rattle.reading.specs.Steps.{readable};

use listing::{Found, search_weights};
use paper::{MOST_RADIUS, Reading, Refusal, Word};
use sheet::Admitted;
use words::{lowest_of, products_of, strays_of};

// 10: the lowest cell at which the "read word has a bit at cell n or above".
fn find_stray_cell(n: u32, y: Word) -> Option<u32>
    requires { n ≤ width }
    ensures { as_first result ≡ first width (stray_cell n y) }
{
    lowest_of(strays_of(n, y))
}

// "the first z in the list, of weight at most t, for which y + z is a codeword"
fn find_nearest(sheet: &Admitted, y: Word, radius: u32) -> Found
    requires { radius ≤ most_radius }
    ensures { searched result ≡ nearest sheet.now y radius }
{
    search_weights(sheet.h(), &[], y, sheet.n, 0, radius + 1)
}

// "the message of y + z, z itself, and how many listed words were tried", or 12: what a read answers that no rule refuses.
fn hear(sheet: &Admitted, y: Word, radius: u32) -> Reading
    requires { radius ≤ most_radius }
    ensures { reading result ≡ heard sheet.now y (nearest sheet.now y radius) }
{
    let m = sheet.m();
    let Found { z, tried } = find_nearest(sheet, y, radius);
    match z {
        Some(z) => Reading::Message {
            message: products_of(m, y ^ z),
            z,
            tried,
        },
        None => Reading::Refused(Refusal::NoCodeword { tried }),
    }
}

// 10, then 11.
fn judge(n: u32, y: Word, radius: u32) -> Result<(), Refusal>
    requires { n ≤ width }
    ensures { verdict result ≡ readable n y radius (answer []) }
{
    if let Some(cell) = find_stray_cell(n, y) {
        return Err(Refusal::ReadWord { cell });
    }
    if MOST_RADIUS < radius {
        return Err(Refusal::Limit);
    }
    Ok(())
}

// 10, then 11, then the message of the nearest codeword, or 12.
pub fn read(sheet: &Admitted, y: Word, radius: u32) -> Reading
    ensures { reading result ≡ reads_admitted sheet.now y radius }
{
    match judge(sheet.n, y, radius) {
        Ok(()) => hear(sheet, y, radius),
        Err(why) => Reading::Refused(why),
    }
}

// The same of a slot that holds y, on a page with this plate number: 16 stands between 11 and 12.
pub fn read_slot(sheet: &Admitted, number: u32, y: Word, radius: u32) -> Reading
    ensures { reading result ≡ slot_reads sheet.now number y radius }
{
    if let Err(why) = judge(sheet.n, y, radius) {
        return Reading::Refused(why);
    }
    if number <= 2 * radius {
        return Reading::Refused(Refusal::Plate);
    }
    hear(sheet, y, radius)
}
