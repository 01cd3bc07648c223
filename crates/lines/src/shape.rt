// The numbers of a line, against a shape: `n` a number of 32 bits, `b` one of 8, `w` a word, `m` the size of a room, `L` a count and as many words, `R` a count and
// three numbers for each, the third of 8 bits.
ghost use Rattle.std.specs.Prelude.{◌≡◌, ◌*◌, ◌≤◌, ◌++◌, length, drop, slice_get};
ghost use Rattle.text.specs.Tokens.{cut};
ghost use Rattle.lines.specs.Shapes.{most_of, items_of, item_of, unrolled, fill, filled, counted, held, unread};

use paper::{WIDTH, Word};
use text::{next_token, parse_number};

// The most that a word holds: all its bits.
const MOST_WORD: u64 = u64::MAX >> (64 - WIDTH);

// The most that 32 bits hold.
const MOST_NUMBER: u64 = 4294967295;

// The most that 8 bits hold.
const MOST_BYTE: u64 = 255;

// The most entries of a room that a line may ask for: such a room is lent from memory that is always there.
pub const MOST_ROOM: usize = 4096;

// The most that the place of a letter holds.
fn most_of(letter: u8) -> u64
    ensures { result ≡ most_of letter }
{
    match letter {
        b'w' => MOST_WORD,
        b'b' => MOST_BYTE,
        b'm' => MOST_ROOM as u64,
        _ => MOST_NUMBER,
    }
}

// How many items follow the number at a letter.
fn items_of(letter: u8, x: u64) -> u64
    requires { x ≤ most_of letter }
    ensures { result ≡ items_of letter x }
{
    match letter {
        b'L' => x,
        b'R' => 3 * x,
        _ => 0,
    }
}

// The letter of an item, of as many as are left.
fn item_of(wide: bool, left: u64) -> u8
    ensures { result ≡ item_of wide left }
{
    if wide {
        return b'w';
    }
    if left % 3 == 1 {
        return b'b';
    }
    b'n'
}

// Where a shape is read: `left` items of a list are to come, words or the numbers of records, and then the letters. A bool says which of the two; an enum would be turned into one of two letters at the same single place, `item_of`.
#[derive(Clone, Copy)]
struct Cursor<'a> {
    left: u64,
    wide: bool,
    letters: &'a [u8],
}

impl<'a> Cursor<'a> {
    // The letter of the next number, if the shape is not at its end.
    fn letter(self) -> Option<u8>
        ensures { result ≡ slice_get (unread self.entry) 0 }
    {
        match self.left {
            0 => self.letters.first().copied(),
            left => Some(item_of(self.wide, left)),
        }
    }

    // Where the shape is read behind the number x at its next letter.
    fn behind(self, letter: u8, x: u64) -> Cursor<'a>
        requires letter_next { slice_get (unread self) 0 ≡ Some letter }
        requires x_bound { x ≤ most_of letter }
        ensures { unread result ≡ unrolled letter x ++ drop 1 (unread self.entry) }
    {
        if self.left > 0 {
            return Cursor {
                left: self.left - 1,
                ..self
            };
        }
        Cursor {
            left: items_of(letter, x),
            wide: letter == b'L',
            letters: &self.letters[1..],
        }
    }
}

// The tokens of a line as numbers of the shape, in the lent room; how many, if they fit the shape. Each takes two bytes at least, so that the room cannot run out.
pub fn fill(line: &[u8], shape: &[u8], numbers: &mut [Word]) -> Option<usize>
    requires { length line.now ≤ 2 * length numbers.old }
    ensures meaning { counted result numbers.new ≡ fill shape.now (cut 32 line.now) }
    ensures result_in_bounds { held result ≤ length numbers.new }
    ensures numbers_after { numbers.new ≡ filled 0 numbers.old shape.now (cut 32 line.now) }
{
    let mut rest = line;
    // The count is the answer: how many of the lent room's numbers are the line's.
    let mut count = 0;
    let mut cursor = Cursor {
        left: 0,
        wide: false,
        letters: shape,
    };
    loop {
        let letter = cursor.letter()?;
        let (token, behind) = next_token(rest, b' ');
        let x = parse_number(token, most_of(letter))?;
        numbers[count] = x as Word;
        count += 1;
        cursor = cursor.behind(letter, x);
        match behind {
            Some(more) => rest = more,
            None => return if cursor.letter().is_none() {
                Some(count)
            } else {
                None
            },
        }
    }
}
