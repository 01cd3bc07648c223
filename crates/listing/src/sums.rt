// The search by sums of columns: the sum that a word picks is carried along the recursion on its cells, and a part of the list in which no hit can lie is passed over whole.
ghost use Rattle.std.specs.Prelude.{◌≡◌, ◌+◌, ◌-◌, ◌^◌, ◌<◌, ◌≤◌, length};
ghost use Rattle.paper.specs.Words.{width};
ghost use Rattle.paper.specs.Listing.{listed, weights, search};
ghost use Rattle.listing.specs.Searches.{searched};
ghost use Rattle.listing.specs.Sums.{find, meets, test, Marks};

use crate::Found;
use crate::ways::ways;
use marks::is_open;
use paper::{Count, Word};
use words::cell_of;

// A word that was found, and its place among those searched, counted from 1.
#[derive(Clone, Copy)]
pub struct Hit {
    pub z: Word,
    pub place: Count,
}

// What is asked of the sums of the columns `cols`: to be 0 at the cells of `clear`, and `least` at least. `marks` has a mark for the sum of each word of weight `low` at most.
#[derive(Clone, Copy)]
pub struct Asked<'a> {
    pub cols: &'a [Word],
    pub clear: Word,
    pub least: Word,
    pub marks: &'a [Word],
    pub low: u32,
}

// Whether a sum is met.
fn is_met(asked: &Asked, sum: Word) -> bool
    ensures { result ≡ meets asked.now.clear asked.now.least sum }
{
    asked.clear & sum == 0 && asked.least <= sum
}

// The first hit of weight 1: the first cell whose column meets the sum.
fn scan(asked: &Asked, cells: u32, sum: Word) -> Option<Hit>
    requires { (cells ≤ width) × (cells ≤ length asked.now.cols.now) }
    ensures { result ≡ find (test asked.now sum) (listed cells 1) }
{
    for i in 0..cells {
        if is_met(asked, sum ^ asked.cols[i as usize]) {
            return Some(Hit {
                z: cell_of(i),
                place: Count::from(i) + 1,
            });
        }
    }
    None
}

// The first hit of weight v over the lower cells, by the highest cell c of the word: "those of weight v - 1 over the lower .. cells with cell .. added".
// A sum that is not open is passed over with all words above it; the words before a hit are counted on the way back.
fn seek(asked: &Asked, cells: u32, v: u32, sum: Word) -> Option<Hit>
    requires { (cells ≤ width) × (v < width) × (cells ≤ length asked.now.cols.now) × Marks asked.now cells }
    ensures { result ≡ find (test asked.now sum) (listed cells v) }
{
    if v == 0 {
        return is_met(asked, sum).then_some(Hit { z: 0, place: 1 });
    }
    if v == 1 {
        return scan(asked, cells, sum);
    }
    let fewer = v - 1;
    for c in fewer..cells {
        let s = sum ^ asked.cols[c as usize];
        if is_open(asked.marks, asked.low, fewer, asked.clear & s) {
            if let Some(hit) = seek(asked, c, fewer, s) {
                return Some(Hit {
                    z: hit.z + cell_of(c),
                    place: hit.place + ways(c, v),
                });
            }
        }
    }
    None
}

// The first hit of the list from weight `from` on, below weight `end`, `start` words tried before.
pub fn sweep(asked: &Asked, n: u32, from: u32, end: u32, sum: Word, start: Count) -> Found
    requires few { (n ≤ width) × (n ≤ length asked.now.cols.now) × Marks asked.now n × (from ≤ end) × (end ≤ width) }
    requires room { start + length (weights n from (end - from)) < 2 ^ width }
    ensures { searched result ≡ search (test asked.now sum) start (weights n from (end - from)) }
{
    let mut tried = start;
    for v in from..end {
        if let Some(hit) = seek(asked, n, v, sum) {
            return Found {
                z: Some(hit.z),
                tried: tried + hit.place,
            };
        }
        tried += ways(n, v);
    }
    Found { z: None, tried }
}
