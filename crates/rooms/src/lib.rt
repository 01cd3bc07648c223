// What a line lends: copies of its page and records, its lists, and rooms of the size that it asks for. A copy or a room is a local of the largest size, of which a part is lent.
#![tactic(auto)]

ghost use Rattle.std.specs.Prelude.{◌≡◌, ℕ, ◌+◌, ◌*◌, ◌^◌, ◌≤◌, ◌<◌, length, take, drop, replicate};
ghost use Rattle.lines.specs.Arguments.{part, behind, sheet_in};
ghost use Rattle.lines.specs.Arguments.{at as Arguments·at};
ghost use Rattle.lines.specs.Shapes.{Records, most_room};
ghost use Rattle.rooms.specs.Lent.{room_slots, room_records, records_from};

use lines::MOST_ROOM;
use paper::{MOST_RECORDS, MOST_SLOTS, Sheet, StuckCell, Word};

// The room for a page: one slot more than a page may have.
pub const ROOM_SLOTS: usize = MOST_SLOTS + 1;

// The room for its records: one more than a page may have, so that too many are still refused.
pub const ROOM_RECORDS: usize = MOST_RECORDS + 1;

// The words from a place on, in a room.
pub fn copy_page(ns: &[Word], from: usize, count: usize) -> [Word; ROOM_SLOTS]
    requires count_le_room_slots { count ≤ room_slots }
    requires count_in_bounds { from + count ≤ length ns.now }
    ensures { take count result ≡ take count (drop from ns.now) }
{
    let mut page = [0; ROOM_SLOTS];
    page[..count].copy_from_slice(&ns[from..from + count]);
    page
}

// The records from a place on, in a room.
pub fn copy_records(ns: &[Word], from: usize, count: usize) -> [StuckCell; ROOM_RECORDS]
    requires count_le_room_records { count ≤ room_records }
    requires count_in_bounds { from + 3 * count ≤ length ns.now }
    requires records { Records count from ns.now }
    ensures { take count result ≡ records_from count from ns.now }
{
    let none = StuckCell {
        slot: 0,
        cell: 0,
        level: 0,
    };
    let mut records = [none; ROOM_RECORDS];
    // By index: over `chunks_exact(3)` the loop's invariant has to name the private parts of std's iterator.
    for i in 0..count {
        let at = from + 3 * i;
        records[i] = StuckCell {
            slot: ns[at] as u32,
            cell: ns[at + 1] as u32,
            level: ns[at + 2] as u8,
        };
    }
    records
}

// A room that a line asks for: so many entries, each the fill.
#[derive(Clone, Copy)]
pub struct Room {
    pub size: usize,
    pub fill: Word,
}

// The room at a place of a line.
pub fn room_at(ns: &[Word], at: usize) -> Room
    requires { (at + 1 < length ns.now) × (Arguments·at ns.now at ≤ most_room) }
    ensures { (result.size ≡ Arguments·at ns.now at) × (result.size ≤ most_room) × (result.fill ≡ Arguments·at ns.now (at + 1)) }
{
    Room {
        size: ns[at] as usize,
        fill: ns[at + 1],
    }
}

// A room of the largest size, each entry the same.
pub fn room_of(fill: Word) -> [Word; MOST_ROOM]
    ensures { (size : ℕ) → size ≤ most_room → take size result ≡ replicate size fill }
{
    [fill; MOST_ROOM]
}

// The words of the list at a place of a line.
pub fn list_at(ns: &[Word], at: usize) -> &[Word]
    requires { (at < length ns.now) × (at + 1 + Arguments·at ns.now at ≤ length ns.now) }
    ensures { result.now ≡ part (at + 1) (at + 1 + Arguments·at ns.now at) ns.now }
{
    let from = at + 1;
    let end = from + ns[at] as usize;
    &ns[from..end]
}

// "SHEET n k l LIST", which a line begins with.
pub fn sheet_of(ns: &[Word]) -> Sheet
    requires rows { (3 < length ns.now) × (behind ns.now ≤ length ns.now) }
    requires narrow { (Arguments·at ns.now 0 < 2 ^ 32) × (Arguments·at ns.now 1 < 2 ^ 32) × (Arguments·at ns.now 2 < 2 ^ 32) }
    ensures { result ≡ sheet_in ns.now }
{
    Sheet {
        n: ns[0] as u32,
        k: ns[1] as u32,
        l: ns[2] as u32,
        rows: list_at(ns, 3),
    }
}
