// Elimination by kept rows: the first row that is a sum of earlier rows, and the smallest d whose sum of rows equals a target.
// Row j is reduced by the words kept of the rows before it, and what is left is kept, with the choice of rows that makes it;
// the target is reduced by them all. For m rows that is at most m * (m + 1) / 2 steps, each a sum and a comparison: MATHEMATICS 1.
#![tactic(auto)]

ghost use Rattle.std.specs.Prelude.{◌≡◌, ◌≤◌, ◌^◌, eqb, length, get_or, take};
ghost use Rattle.std.specs.Int.Bits.{bit_and};
ghost use Rattle.paper.specs.First.{first};
ghost use Rattle.paper.specs.Words.{width, sum};
ghost use Rattle.paper.specs.Sheet.{dependent};
ghost use Rattle.words.specs.Places.{as_first};
ghost use Rattle.elimination.specs.Kept.{reduced, kept_rows, masked};

use paper::{WIDTH, Word};
use words::{ALL_CELLS, cell_of, highest_of};

// Room for as many rows as a word has cells.
const ROOM: usize = WIDTH as usize;

// What is left of a word, and the choice of rows that was added on the way, bit j for row j.
#[derive(Clone, Copy)]
struct Reduced {
    rest: Word,
    choice: Word,
}

// x with each kept row added in turn where that makes it smaller: where it has the highest cell of the row's word. Whether it has is a shift and a product: a test of the two would be
// a branch, which is guessed wrong every other time.
fn reduce(kept: &[Reduced], x: Word) -> Reduced
    ensures { result ≡ reduced kept.now x }
{
    let mut rest = x;
    let mut choice: Word = 0;
    for row in kept {
        let kept_row = *row;
        let Some(top) = highest_of(kept_row.rest) else {
            continue;
        };
        let taken = (rest >> top) % 2;
        rest ^= taken * kept_row.rest;
        choice ^= taken * kept_row.choice;
    }
    Reduced { rest, choice }
}

// The rows on the mask's cells, each reduced by those before it and kept.
fn keep_rows(rows: &[Word], mask: Word) -> [Reduced; ROOM]
    requires { length rows.now ≤ width }
    ensures { take (length rows.now) result ≡ kept_rows (masked mask rows.now) }
{
    // A room for as many rows as there can be, since there is no heap; the rows kept so far are lent while the next is found.
    let mut kept = [Reduced { rest: 0, choice: 0 }; ROOM];
    for (j, row) in rows.iter().enumerate() {
        let r = reduce(&kept[..j], *row & mask);
        kept[j] = Reduced {
            rest: r.rest,
            choice: r.choice ^ cell_of(j as u32),
        };
    }
    kept
}

// The first kept row of whose word nothing is left.
fn first_zero(kept: &[Reduced]) -> Option<u32>
    requires { length kept.now ≤ width }
    ensures { as_first result ≡ first (length kept.now) (λ j. eqb (get_or kept.now j (record { rest = 0; choice = 0 })).rest 0) }
{
    for (j, row) in kept.iter().enumerate() {
        if row.rest == 0 {
            return Some(j as u32);
        }
    }
    None
}

// The first row that is a sum of earlier rows.
pub fn first_dependent(rows: &[Word]) -> Option<u32>
    requires { length rows.now ≤ width }
    ensures { as_first result ≡ first (length rows.now) (dependent rows.now) }
{
    let kept = keep_rows(rows, ALL_CELLS);
    first_zero(&kept[..rows.len()])
}

// The smallest d whose sum of rows equals the target at every cell of the mask, bit j for row j, or that there is none.
pub fn solve(rows: &[Word], mask: Word, target: Word) -> Option<Word>
    requires { length rows.now ≤ width }
    ensures { as_first result ≡ first (2 ^ length rows.now) (λ d. eqb (bit_and (sum rows.now d) mask) (bit_and target mask)) }
{
    let kept = keep_rows(rows, mask);
    let r = reduce(&kept[..rows.len()], target & mask);
    if r.rest == 0 { Some(r.choice) } else { None }
}
