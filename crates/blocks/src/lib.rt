// Rows of three blocks [a b c], k cells, l cells and those above: putting one together, and taking cells out of one. How many rows three tables have.
#![tactic(auto)]

ghost use Rattle.std.specs.Prelude.{◌≡◌, ◌*◌, ◌/◌, ◌%◌, ◌^◌, ◌<◌};
ghost use Rattle.paper.specs.Tables.{joined, cells, tabled};
ghost use Rattle.paper.specs.Words.{width};

use paper::{WIDTH, Word};
use words::cell_of;

// x with `by` cells below it. A word that is 0 may be raised by any number of cells, also by the width or more, where a plain shift is refused.
fn raised(x: Word, by: u32) -> Word
    requires { x * 2 ^ by < 2 ^ width }
    ensures { result ≡ x * 2 ^ by }
{
    x.checked_shl(by).unwrap_or(0)
}

// The row [a b c].
pub fn join(k: u32, l: u32, a: Word, b: Word, c: Word) -> Word
    requires { joined k l a b c < 2 ^ width }
    ensures { result ≡ joined k l a b c }
{
    raised(raised(c, l) + b, k) + a
}

// The cells of x below `count`.
fn first_of(count: u32, x: Word) -> Word
    ensures { result ≡ x % 2 ^ count }
{
    // By a test: `1.checked_shl(count)` in a chain needs a closure for the remainder, and is no plainer.
    if count < WIDTH { x % cell_of(count) } else { x }
}

// The cells of x from `from` on: none at the width or above.
fn last_of(from: u32, x: Word) -> Word
    ensures { result ≡ x / 2 ^ from }
{
    x.checked_shr(from).unwrap_or(0)
}

// The cells of x from `from` on, `count` of them.
pub fn cells_of(from: u32, count: u32, x: Word) -> Word
    ensures { result ≡ cells from count x }
{
    first_of(count, last_of(from, x))
}

// Whether there are k rows for P, l for R and l for Q.
pub fn is_tabled(k: u32, l: u32, p: usize, r: usize, q: usize) -> bool
    ensures { result ≡ tabled k l p r q }
{
    p == k as usize && r == l as usize && q == l as usize
}
