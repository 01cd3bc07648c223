// The sheet and the tables that a call is handed, the answers of the store, as values, the types of their numbers, and the limits. What each answer tells, in the
// numbers and values of document 01, stands in specs/Refusals.antt.
#![tactic(auto)]

use std::marker::Model;

// A word of cells: a row, a message, a word read or written, stuck cells and their levels, a choice of rows.
pub type Word = u64;

// A number of listed words.
pub type Count = u64;

// The number of cells that a word of the machine has: `width` of specs/Words.antt.
pub const WIDTH: u32 = 64;

// The largest radius: `most_radius` of specs/Reading.antt.
pub const MOST_RADIUS: u32 = 4;

// The largest cap: `most_cap` of specs/Plate.antt.
pub const MOST_CAP: u32 = 8;

// The most slots of a page: `most_slots` of specs/Page.antt.
pub const MOST_SLOTS: usize = 2048;

// The most records of stuck cells: `most_records` of specs/Page.antt.
pub const MOST_RECORDS: usize = 256;

// The largest plate number, which says that d1 is more than the largest cap: `most_number` of specs/Page.antt.
pub const MOST_NUMBER: u32 = 9;

// "A sheet has numbers n, k, l, with r = n - k - l, and n + k rows": one that is handed in, whatever its numbers and rows are. A contract sees it as the
// `Sheet` of specs/Sheet.antt.
#[derive(Drop)]
pub struct Sheet<'a> {
    pub n: u32,
    pub k: u32,
    pub l: u32,
    pub rows: &'a [Word],
}

impl<'a> Model for Sheet<'a> {
    ghost use Rattle.paper.specs.Sheet.{Sheet, sheet};

    ghost Value = { Sheet };

    ghost view = { λ s. sheet s.n s.k s.l s.rows.now };
}

// "Three small tables: P (k by r), R (l by k), Q (l by r)": those that are handed in for a sheet with numbers n, k and l, each as its rows, bit c of a row
// being column c. A contract sees them as the `Tables` of specs/Tables.antt.
#[derive(Drop)]
pub struct Tables<'a> {
    pub n: u32,
    pub k: u32,
    pub l: u32,
    pub p: &'a [Word],
    pub r: &'a [Word],
    pub q: &'a [Word],
}

impl<'a> Model for Tables<'a> {
    ghost use Rattle.paper.specs.Tables.{Tables, tables};

    ghost Value = { Tables };

    ghost view = { λ t. tables t.n t.k t.l t.p.now t.r.now t.q.now };
}

// A record of the list in which a page's stuck cells arrive: "each naming slot, cell and level". A list of them
// passes to and from C as it lies.
#[repr(C)]
#[derive(Clone, Copy)]
pub struct StuckCell {
    pub slot: u32,
    pub cell: u32,
    pub level: u8,
}

// Why a call is refused: "the refusal carries its reason and the reason carries its row".
#[derive(Clone, Copy)]
pub enum Refusal {
    Shape,
    Stray { row: u32 },
    OffCode { row: u32 },
    OffMessage { row: u32 },
    DependentG0 { row: u32 },
    DependentH { row: u32 },
    Message,
    Stuck { cell: u32 },
    NoWord,
    ReadWord { cell: u32 },
    Limit,
    NoCodeword { tried: Count },
    Crowded,
    NoSlot,
    Record { place: usize },
    Plate,
    OtherShape,
    Lengths,
}

// The seven answers are enums with a case Refused, and no Results: the scope names that form for "the refusal carries its reason and the reason carries its row".

// What admitting a sheet answers.
#[derive(Clone, Copy)]
pub enum Admission {
    Admitted,
    Refused(Refusal),
}

// What writing answers: the fitting word with the smallest d, and that d.
#[derive(Clone, Copy)]
pub enum Written {
    Word { word: Word, d: Word },
    Refused(Refusal),
}

// What reading answers: the message of y + z, z itself, and the number tried.
#[derive(Clone, Copy)]
pub enum Reading {
    Message {
        message: Word,
        z: Word,
        tried: Count,
    },
    Refused(Refusal),
}

// What measuring d0 answers: the distance or "more than the cap", and the number tried.
#[derive(Clone, Copy)]
pub enum MeasuredD0 {
    Distance { d: u32, tried: Count },
    More { tried: Count },
    Refused(Refusal),
}

// What measuring d1 answers: the same, and the radius to print on the plate.
#[derive(Clone, Copy)]
pub enum MeasuredD1 {
    Distance { d: u32, tried: Count, radius: u32 },
    More { tried: Count, radius: u32 },
    Refused(Refusal),
}

// What opening a page answers: its plate number.
#[derive(Clone, Copy)]
pub enum Opening {
    Number { number: u32 },
    Refused(Refusal),
}

// What a call answers whose answer stands in the rooms that it was lent: that it is done. (An admission is another call's answer, with a name of its own.)
#[derive(Clone, Copy)]
pub enum Outcome {
    Done,
    Refused(Refusal),
}
