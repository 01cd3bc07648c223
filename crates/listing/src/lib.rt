// The search of the list: the words over n cells by weight, then by value, until one passes the test of a read or of a measurement.
// It goes by sums of columns: a word's products with the rows are the sum of the columns of its cells. docs/ARCHITECTURE.md says how, and what it costs.
#![tactic(auto)]

mod stages;
mod sums;
mod ways;

ghost use Rattle.std.specs.Prelude.{◌≡◌, ◌+◌, ◌-◌, ◌^◌, ◌≤◌, length};
ghost use Rattle.paper.specs.Words.{width};
ghost use Rattle.paper.specs.Listing.{weights, search};
ghost use Rattle.listing.specs.Searches.{searched, passes};
ghost use Rattle.listing.specs.Sums.{demand};

use crate::stages::search_sums;
use crate::sums::Asked;
use columns::columns;
use paper::{Count, WIDTH, Word};
use words::{ALL_CELLS, cell_of, sum_of};

// What a search finds: the first word that passes, if there is one, and the number tried, which is then "the place of z in the list, counted from 1", and else the length of the list.
#[derive(Clone, Copy)]
pub struct Found {
    pub z: Option<Word>,
    pub tried: Count,
}

// The word that is 1 at the lowest r cells.
fn low_cells(r: u32) -> Word
    requires { r ≤ width }
    ensures { result ≡ 2 ^ r - 1 }
{
    if r < WIDTH { cell_of(r) - 1 } else { ALL_CELLS }
}

// The least sum that the rows `stirred` ask for: with no rows any, and else one that is not 0.
fn least_of(stirred: &[Word]) -> Word
    ensures { result ≡ demand stirred.now }
{
    if stirred.is_empty() { 0 } else { 1 }
}

// The first hit of the list from weight `from` on, below weight `end`: "Words over n cells are listed by weight (number of ones), then by value."
// A word z is a hit where y + z has product 0 with each row of `clear`, and product 1 with some row of `stirred`, where it has rows.
pub fn search_weights(
    clear: &[Word],
    stirred: &[Word],
    y: Word,
    n: u32,
    from: u32,
    end: u32,
) -> Found
    requires { (n ≤ width) × (from ≤ end) × (end ≤ width) × (length clear.now + length stirred.now ≤ width) }
    ensures { searched result ≡ search (passes clear.now stirred.now y) 0 (weights n from (end - from)) }
{
    let cols = columns(clear, stirred);
    let asked = Asked {
        cols: &cols,
        clear: low_cells(clear.len() as u32),
        least: least_of(stirred),
        marks: &[0],
        low: 0,
    };
    search_sums(&asked, n, from, end, sum_of(&cols, y))
}
