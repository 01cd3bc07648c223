// Marks: a table of bits that has one for the sum of each word of small weight. A sum with no mark is the sum of none of them;
// one with a mark may be the sum of none too, since two sums may have one place.
#![tactic(auto)]

ghost use Rattle.std.specs.Prelude.{◌≡◌, ◌||◌, ◌≤◌, eqb, ltb, length};
ghost use Rattle.marks.specs.Marks.{slot, mark, Marked, Kept};

use paper::{WIDTH, Word};

// How many places are in a word of the table.
const BITS: Word = WIDTH as Word;

// The place of x in a table of `size` words: the rest of x by a prime, folded, so that the sums of a few cells spread, at the bits of a mask that keeps it inside the table.
// Where the size is a power of two each bit of the table is a place; no contract asks for that.
fn slot_of(size: usize, x: Word) -> Word
    requires { (1 ≤ size) × (size ≤ 65536) }
    ensures { result ≡ slot size x }
{
    let i = x % 1000003;
    (i ^ (i >> 4)) & (size as Word * BITS - 1)
}

// Whether a word of weight v may have the sum x: v is above the weights that have marks, or x has its mark. A search asks this at each of its steps.
pub fn is_open(t: &[Word], low: u32, v: u32, x: Word) -> bool
    requires { (1 ≤ length t.now) × (length t.now ≤ 65536) }
    ensures { result ≡ (ltb low v || eqb (mark t.now x) 1) }
{
    if low < v {
        return true;
    }
    let i = slot_of(t.len(), x);
    (t[(i / BITS) as usize] >> (i % BITS)) % 2 == 1
}

// Marks x.
fn put(t: &mut [Word], x: Word)
    requires { (1 ≤ length t.old) × (length t.old ≤ 65536) }
    ensures { (mark t.new x ≡ 1) × Kept t.old t.new }
{
    let i = slot_of(t.len(), x);
    t[(i / BITS) as usize] |= 1 << (i % BITS);
}

// Marks the sums of s and the words of weight at most 1 over the lower cells, at the cells of h: s itself, and s with each column.
fn put_cells(t: &mut [Word], cols: &[Word], h: Word, cells: u32, s: Word)
    requires { (1 ≤ length t.old) × (length t.old ≤ 65536) × (cells ≤ length cols.now) }
    ensures { Marked t.new cols.now h s cells 1 × Kept t.old t.new }
{
    put(t, h & s);
    for col in &cols[..cells as usize] {
        put(t, h & (s ^ *col));
    }
}

// Marks the sums of s and the words of weight at most v over the lower cells, at the cells of h: s itself, and for each cell c, with column c added to s, those of the words
// of weight at most v - 1 over the cells below c.
pub fn put_words(t: &mut [Word], cols: &[Word], h: Word, cells: u32, v: u32, s: Word)
    requires { (1 ≤ length t.old) × (length t.old ≤ 65536) × (cells ≤ length cols.now) }
    ensures { Marked t.new cols.now h s cells v × Kept t.old t.new }
{
    if v <= 1 {
        put_cells(t, cols, h, cells, s);
    } else {
        put(t, h & s);
        for (c, col) in cols[..cells as usize].iter().enumerate() {
            put_words(t, cols, h, c as u32, v - 1, s ^ *col);
        }
    }
}
