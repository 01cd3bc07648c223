// The calls of the store: admit, write, read, measure_d0, measure_d1. None asks anything of what it is handed, none writes to what it is lent.
// Each checks the sheet, judges its arguments in the order of the table "When the box says no", and then does its work.
#![tactic(auto)]

ghost use Rattle.std.specs.Prelude.{◌≡◌};
ghost use Rattle.paper.specs.Refusals.{admission, written, reading, measured_d0, measured_d1};
ghost use Rattle.paper.specs.Sheet.{admits};
ghost use Rattle.paper.specs.Writing.{writes};
ghost use Rattle.paper.specs.Reading.{reads};
ghost use Rattle.paper.specs.Plate.{measures_d0, measures_d1};

use paper::{Admission, MeasuredD0, MeasuredD1, Reading, Sheet, Word, Written};

// Admits a sheet: refusals 1 to 6.
pub fn admit(sheet: &Sheet) -> Admission
    ensures { admission result ≡ admits sheet.now }
{
    if let Err(why) = sheet::admit(sheet) {
        return Admission::Refused(why);
    }
    Admission::Admitted
}

// Writes a message around the stuck cells: refusals 1 to 6, then 7, 8 and 9.
pub fn write(sheet: &Sheet, message: Word, stuck: Word, levels: Word) -> Written
    ensures { written result ≡ writes sheet.now message stuck levels }
{
    match sheet::admit(sheet) {
        Ok(admitted) => writing::write(&admitted, message, stuck, levels),
        Err(why) => Written::Refused(why),
    }
}

// Reads a word at a radius: refusals 1 to 6, then 10, 11 and 12.
pub fn read(sheet: &Sheet, y: Word, radius: u32) -> Reading
    ensures { reading result ≡ reads sheet.now y radius }
{
    match sheet::admit(sheet) {
        Ok(admitted) => reading::read(&admitted, y, radius),
        Err(why) => Reading::Refused(why),
    }
}

// Measures d0 up to a cap: refusals 1 to 6, then 11.
pub fn measure_d0(sheet: &Sheet, cap: u32) -> MeasuredD0
    ensures { measured_d0 result ≡ measures_d0 sheet.now cap }
{
    match sheet::admit(sheet) {
        Ok(admitted) => measuring::measure_d0(&admitted, cap),
        Err(why) => MeasuredD0::Refused(why),
    }
}

// Measures d1 up to a cap, for the radius to print too: refusals 1 to 6, then 11.
pub fn measure_d1(sheet: &Sheet, cap: u32) -> MeasuredD1
    ensures { measured_d1 result ≡ measures_d1 sheet.now cap }
{
    match sheet::admit(sheet) {
        Ok(admitted) => measuring::measure_d1(&admitted, cap),
        Err(why) => MeasuredD1::Refused(why),
    }
}
