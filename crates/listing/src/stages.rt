// The search in stages: words of more weight by marks for more words, in a room of its own.
ghost use Rattle.std.specs.Prelude.{◌≡◌, ◌+◌, ◌-◌, ◌^◌, ◌<◌, ◌≤◌, length};
ghost use Rattle.paper.specs.Words.{width};
ghost use Rattle.paper.specs.Listing.{weights, search};
ghost use Rattle.listing.specs.Searches.{searched};
ghost use Rattle.listing.specs.Sums.{test};

use crate::Found;
use crate::sums::{Asked, sweep};
use marks::put_words;
use paper::{Count, Word};

// A sweep with marks, made in the lent room, for the words of weight up to `low`.
fn sweep_marked(
    room: &mut [Word],
    low: u32,
    asked: &Asked,
    n: u32,
    from: u32,
    end: u32,
    sum: Word,
    start: Count,
) -> Found
    requires some { (1 ≤ length room.old) × (length room.old ≤ 65536) }
    requires few { (n ≤ width) × (n ≤ length asked.now.cols.now) × (from ≤ end) × (end ≤ width) }
    requires room { start + length (weights n from (end - from)) < 2 ^ width }
    ensures { searched result ≡ search (test asked.now sum) start (weights n from (end - from)) }
{
    put_words(room, asked.cols, asked.clear, n, low, 0);
    let marked = Asked {
        cols: asked.cols,
        clear: asked.clear,
        least: asked.least,
        marks: room,
        low,
    };
    sweep(&marked, n, from, end, sum, start)
}

// The weights from 7 on, with marks for the words of weight up to 3 in 128 KB. Neither this nor the next is inlined, so that a search that ends before does not have its room on the stack.
#[inline(never)]
fn search_far(asked: &Asked, n: u32, from: u32, end: u32, sum: Word, start: Count) -> Found
    requires few { (n ≤ width) × (n ≤ length asked.now.cols.now) × (from ≤ end) × (end ≤ width) }
    requires room { start + length (weights n from (end - from)) < 2 ^ width }
    ensures { searched result ≡ search (test asked.now sum) start (weights n from (end - from)) }
{
    let mut room: [Word; 16384] = [0; 16384];
    sweep_marked(&mut room, 3, asked, n, from, end, sum, start)
}

// The weights to 6, with marks for those up to 2 in 8 KB, and then the rest.
#[inline(never)]
fn search_middle(asked: &Asked, n: u32, from: u32, end: u32, sum: Word, start: Count) -> Found
    requires few { (n ≤ width) × (n ≤ length asked.now.cols.now) × (from ≤ end) × (end ≤ width) }
    requires room { start + length (weights n from (end - from)) < 2 ^ width }
    ensures { searched result ≡ search (test asked.now sum) start (weights n from (end - from)) }
{
    let stop = end.min(7).max(from);
    let mut room: [Word; 1024] = [0; 1024];
    let got = sweep_marked(&mut room, 2, asked, n, from, stop, sum, start);
    if got.z.is_some() || stop == end {
        return got;
    }
    search_far(asked, n, stop, end, sum, got.tried)
}

// The weights to 2, with marks for the words of weight up to 1 in 1 KB, and then the rest.
fn search_near(asked: &Asked, n: u32, from: u32, end: u32, sum: Word, start: Count) -> Found
    requires few { (n ≤ width) × (n ≤ length asked.now.cols.now) × (from ≤ end) × (end ≤ width) }
    requires room { start + length (weights n from (end - from)) < 2 ^ width }
    ensures { searched result ≡ search (test asked.now sum) start (weights n from (end - from)) }
{
    let stop = end.min(3).max(from);
    let mut room: [Word; 128] = [0; 128];
    let got = sweep_marked(&mut room, 1, asked, n, from, stop, sum, start);
    if got.z.is_some() || stop == end {
        return got;
    }
    search_middle(asked, n, stop, end, sum, got.tried)
}

// The first hit of the list from weight `from` on, below weight `end`: the words of weight 0 and 1 with no marks, and then the rest.
pub fn search_sums(asked: &Asked, n: u32, from: u32, end: u32, sum: Word) -> Found
    requires { (n ≤ width) × (n ≤ length asked.now.cols.now) × (from ≤ end) × (end ≤ width) × (asked.now.low ≡ 0) × (1 ≤ length asked.now.marks.now) × (length asked.now.marks.now ≤ 65536) }
    ensures { searched result ≡ search (test asked.now sum) 0 (weights n from (end - from)) }
{
    let stop = end.min(2).max(from);
    let got = sweep(asked, n, from, stop, sum, 0);
    if got.z.is_some() || stop == end {
        return got;
    }
    search_near(asked, n, stop, end, sum, got.tried)
}
