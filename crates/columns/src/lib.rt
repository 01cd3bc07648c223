// The columns of rows: for each cell, the products of the rows with that cell alone, as a word, bit i for row i. The products of the rows with any word are then the sum of the columns of its cells,
// so that one more cell costs one sum, and not a product for each row.
#![tactic(auto)]

ghost use Rattle.std.specs.Prelude.{◌≡◌, ◌++◌, ◌+◌, ◌^◌, ◌≤◌, length};
ghost use Rattle.paper.specs.Words.{width};
ghost use Rattle.columns.specs.Columns.{Columns, Below, AddedRow, Added};

use paper::{WIDTH, Word};
use words::{cell_of, lowest_of};

// A column for each cell of a word.
pub const ROOM: usize = WIDTH as usize;

// Adds `bit` to the column of each cell of the row, from the lowest cell up: as many steps as the row has cells. `x & (x - 1)` is x without its lowest cell, and waits for no search of that cell.
fn add_row(cols: &mut [Word; ROOM], row: Word, bit: Word)
    requires { Below bit cols.old × (bit + bit ≤ 2 ^ width) }
    ensures { AddedRow row bit cols.old cols.new }
{
    let mut x = row;
    while let Some(c) = lowest_of(x) {
        cols[c as usize] += bit;
        x &= x - 1;
    }
}

// Adds the rows to the columns, the first of them at bit `start`, above all bits that a column has.
fn add_rows(cols: &mut [Word; ROOM], rows: &[Word], start: usize)
    requires { (start + length rows.now ≤ width) × Below (2 ^ start) cols.old }
    ensures { Added rows.now (2 ^ start) cols.old cols.new }
{
    for (i, row) in rows.iter().enumerate() {
        add_row(cols, *row, cell_of((start + i) as u32));
    }
}

// The columns of the rows `clear`, the first at bit 0, with the rows `stirred` behind them: a caller's rows lie in two places, and one sum of columns has the products with both.
pub fn columns(clear: &[Word], stirred: &[Word]) -> [Word; ROOM]
    requires { length clear.now + length stirred.now ≤ width }
    ensures { Columns (clear.now ++ stirred.now) result }
{
    let mut cols = [0; ROOM];
    add_rows(&mut cols, clear, 0);
    add_rows(&mut cols, stirred, clear.len());
    cols
}
