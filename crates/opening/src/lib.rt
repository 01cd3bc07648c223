// Opening a page, which gives its plate number, and what every call on a page does first: the sheet is checked, then the number, then how many slots and records there are.
// None of them asks anything of what it is handed.
#![tactic(auto)]

ghost use Rattle.std.specs.Prelude.{◌&&◌, [], ◌≡◌, leb, IfOk};
ghost use Rattle.paper.specs.Page.{most_slots, most_records, opens, numbered, paged};
ghost use Rattle.paper.specs.Refusals.{answer, verdict, opening};

use paper::{MOST_CAP, MOST_NUMBER, MOST_RECORDS, MOST_SLOTS, MeasuredD1, Opening, Refusal, Sheet};
use sheet::Admitted;

// Opens a page, by the sheet alone: measures d1 with cap 8 and gives the page's plate number, d1 or 9 for more than 8. Refusals 1 to 6.
pub fn open_page(sheet: &Sheet) -> Opening
    ensures { opening result ≡ opens sheet.now }
{
    match store::measure_d1(sheet, MOST_CAP) {
        MeasuredD1::Distance { d, .. } => Opening::Number { number: d },
        MeasuredD1::More { .. } => Opening::Number {
            number: MOST_NUMBER,
        },
        MeasuredD1::Refused(why) => Opening::Refused(why),
    }
}

// Whether a plate number is one of 1 to 9, for 16.
fn is_number(number: u32) -> bool
    ensures { result ≡ numbered number }
{
    (1..=MOST_NUMBER).contains(&number)
}

// Whether slots and records are few enough for 13: "more than 256 records or 2,048 slots".
pub fn are_few(slots: usize, count: usize) -> bool
    ensures { result ≡ (leb slots most_slots && leb count most_records) }
{
    slots <= MOST_SLOTS && count <= MOST_RECORDS
}

// What every call on a page does first: 1 to 6, then 16 for the number, then 13 unless slots and records are few enough. The sheet is given on as admitted.
pub fn admit<'a>(sheet: &Sheet<'a>, number: u32, few: bool) -> Result<Admitted<'a>, Refusal>
    ensures told { verdict result ≡ paged sheet.now number few (answer []) }
    ensures same { IfOk result (λ s. s ≡ sheet.now) }
{
    let admitted = sheet::admit(sheet)?;
    if !is_number(number) {
        return Err(Refusal::Plate);
    }
    if !few {
        return Err(Refusal::Crowded);
    }
    Ok(admitted)
}

// The verdict of `admit` alone, which lends nothing: for whoever keeps it and changes the rows.
pub fn judge(sheet: &Sheet, number: u32, few: bool) -> Result<(), Refusal>
    ensures { verdict result ≡ paged sheet.now number few (answer []) }
{
    admit(sheet, number, few)?;
    Ok(())
}
