// Words of cells: the product of two words, the products with the rows of a part of a sheet, sums of rows,
// the lowest cell, and the cells at n or above.
#![tactic(auto)]

ghost use Rattle.std.specs.Prelude.{◌≡◌, ◌+◌, ◌%◌, ◌^◌, ◌≤◌, ◌<◌, eqb, ltb, length, MatchOption};
ghost use Rattle.paper.specs.First.{first};
ghost use Rattle.paper.specs.Words.{width, cell, weight, product, products, sum, ◌⊕◌};
ghost use Rattle.words.specs.Places.{as_first};

use paper::{WIDTH, Word};

// The word that is 1 at every cell.
pub const ALL_CELLS: Word = u64::MAX;

// "The product of two words is the parity of the cells that are 1 in both": the parity of a count of ones, which the compiler
// takes by the processor's own count.
pub fn product_of(a: Word, b: Word) -> Word
    ensures { result ≡ product a b }
{
    (u64::count_ones(a & b) % 2) as Word
}

// "weight (number of ones)"
pub fn weight_of(x: Word) -> u32
    ensures { result ≡ weight x }
{
    u64::count_ones(x)
}

// The products of x with each row, bit i for row i: of M's rows, the message of x. That rows are no more than a word has cells is asked in a clause, here and in six
// functions above, and is no type: each loop over rows would take the type apart.
pub fn products_of(rows: &[Word], x: Word) -> Word
    requires { length rows.now ≤ width }
    ensures { result ≡ products rows.now x }
{
    let mut word: Word = 0;
    for row in rows.iter().rev() {
        word = product_of(*row, x) + 2 * word;
    }
    word
}

// The sum of the rows that d picks, bit j for row j: of no more rows than a word has cells. A row is multiplied by its bit, and each bit is taken from d itself: so no branch hangs on the bits
// of a message, which would be guessed wrong every other time, and the compiler takes several rows at once.
pub fn sum_of(rows: &[Word], d: Word) -> Word
    ensures { result ≡ sum rows.now d }
{
    let count = rows.len().min(WIDTH as usize);
    let mut word: Word = 0;
    for (i, row) in rows[..count].iter().enumerate() {
        word ^= (d >> (i as u32)) % 2 * row;
    }
    word
}

// The lowest cell of a word that is 1, or that all are 0.
pub fn lowest_of(x: Word) -> Option<u32>
    ensures { as_first result ≡ first width (λ i. eqb (cell x i) 1) }
{
    if x == 0 {
        None
    } else {
        Some(u64::trailing_zeros(x))
    }
}

// The highest cell of a word that is 1, or that all are 0.
pub fn highest_of(x: Word) -> Option<u32>
    ensures { MatchOption result (x ≡ 0) (λ top. (top < width) × (2 ^ top ≤ x) × (x < 2 ^ (top + 1))) }
{
    match x {
        0 => None,
        _ => Some(WIDTH - 1 - u64::leading_zeros(x)),
    }
}

// Whether x is a word over n cells, of which a word has so many: a clause, here and above, and no type, since n comes as it is handed in. The shift by n - 1 is below the width also where n is the width; over no cells 0 is the only word.
pub fn is_low(n: u32, x: Word) -> bool
    requires { n ≤ width }
    ensures { result ≡ ltb x (2 ^ n) }
{
    if n == 0 { x == 0 } else { x >> (n - 1) <= 1 }
}

// The word that is 1 at cell c alone.
pub fn cell_of(c: u32) -> Word
    requires { c < width }
    ensures { result ≡ 2 ^ c }
{
    1 << c
}

// The cells of x at n or above.
pub fn strays_of(n: u32, x: Word) -> Word
    requires { n ≤ width }
    ensures { result ≡ x ⊕ x % 2 ^ n }
{
    if n < WIDTH { x ^ (x % cell_of(n)) } else { 0 }
}
