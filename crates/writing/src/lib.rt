// Writing on an admitted sheet: the message and the stuck cells are judged in the order of the table "When the box says no", and the word is chosen.
// The sheet is not checked here: the caller has, so that one which does many jobs on a sheet checks it once.
#![tactic(auto)]

ghost use Rattle.std.specs.Prelude.{◌≡◌, ◌≤◌};
ghost use Rattle.paper.specs.First.{first};
ghost use Rattle.paper.specs.Words.{width};
ghost use Rattle.words.specs.Places.{as_first};
ghost use Rattle.paper.specs.Refusals.{written};
ghost use Rattle.paper.specs.Writing.{misplaced, fitting, chosen, writes_admitted};
ghost use Rattle.std.specs.Int.Bits.{bit_and};

use elimination::solve;
use paper::{Refusal, Word, Written};
use sheet::Admitted;
use words::{is_low, lowest_of, strays_of, sum_of};

// 8: the lowest cell with "a stuck or level bit at cell n or above, or a level bit at a cell not stuck".
fn find_misplaced(n: u32, stuck: Word, levels: Word) -> Option<u32>
    requires { n ≤ width }
    ensures { as_first result ≡ first width (misplaced n stuck levels) }
{
    let loose = levels ^ (levels & stuck);
    lowest_of(strays_of(n, stuck | levels) | loose)
}

// "The answer is the fitting word of message w whose d .. is the smallest number, and that d"; 9 if there is none.
// d fits if dG0 has at the stuck cells what wG1 and the levels differ in; where they differ in none, as where nothing is stuck, wG1 itself is that word.
fn choose_word(sheet: &Admitted, message: Word, stuck: Word, levels: Word) -> Written
    requires { bit_and levels stuck ≡ levels }
    ensures { written result ≡ chosen sheet.now message (fitting sheet.now message stuck levels) }
{
    let base = sum_of(sheet.g1(), message);
    if (base ^ levels) & stuck == 0 {
        return Written::Word { word: base, d: 0 };
    }
    let g0 = sheet.g0();
    match solve(g0, stuck, base ^ levels) {
        Some(d) => Written::Word {
            word: base ^ sum_of(g0, d),
            d,
        },
        None => Written::Refused(Refusal::NoWord),
    }
}

// 7, then 8, then the word. Stuck cells and levels are two words, as they are handed in.
pub fn write(sheet: &Admitted, message: Word, stuck: Word, levels: Word) -> Written
    ensures { written result ≡ writes_admitted sheet.now message stuck levels }
{
    if !is_low(sheet.k, message) {
        return Written::Refused(Refusal::Message);
    }
    if let Some(cell) = find_misplaced(sheet.n, stuck, levels) {
        return Written::Refused(Refusal::Stuck { cell });
    }
    choose_word(sheet, message, stuck, levels)
}
