// What the calls tell, as one struct of numbers: for the console, and for C, where an enum cannot pass. Each answer is converted by `From`.
#![tactic(auto)]

ghost use Rattle.std.specs.Prelude.{◌≡◌, take};
ghost use Rattle.paper.specs.Refusals.{answer, more, refusal, reason, refused, admission, written, reading, measured_d0, measured_d1, opening, outcome};
ghost use Rattle.told.specs.Telling.{told_by, tells};

use paper::{Admission, MeasuredD0, MeasuredD1, Opening, Outcome, Reading, Refusal, Written};

// The kind of an answer.
const ANSWER: u32 = 0;

// The kind of "more than the cap".
const MORE: u32 = 1;

// The kind of a refusal.
const REFUSAL: u32 = 2;

// The kind, a refusal's number, and the first `count` of a, b and c. Kinds, refusals and the count are numbers here, since C reads them.
#[repr(C)]
#[derive(Clone, Copy)]
pub struct Numbers {
    pub kind: u32,
    pub number: u32,
    pub count: u32,
    pub a: u64,
    pub b: u64,
    pub c: u64,
}

// What is told, of any kind: the struct has room for three values.
fn telling(kind: u32, number: u32, values: &[u64]) -> Numbers
    ensures { tells result ≡ told_by kind number (take 3 values.now) }
{
    let count = values.len().min(3);
    let mut room = [0; 3];
    room[..count].copy_from_slice(&values[..count]);
    let [a, b, c] = room;
    Numbers {
        kind,
        number,
        count: count as u32,
        a,
        b,
        c,
    }
}

// An answer's values, of which there are three at most. It and the two below are `telling` of one kind each, since each contract names another case of what is told.
fn answering(values: &[u64]) -> Numbers
    ensures { tells result ≡ answer (take 3 values.now) }
{
    telling(ANSWER, 0, values)
}

// "More than the cap", and its values.
fn more_than_cap(values: &[u64]) -> Numbers
    ensures { tells result ≡ more (take 3 values.now) }
{
    telling(MORE, 0, values)
}

// A refusal's number, and what is given with it.
fn refusing(number: u32, given: &[u64]) -> Numbers
    ensures { tells result ≡ refusal number (take 3 given.now) }
{
    telling(REFUSAL, number, given)
}

// What a refusal tells: its number, and its place if it has one.
impl From<Refusal> for Numbers {
    ghost from_gives = { λ why t. tells t ≡ refused why };

    fn from(why: Refusal) -> Numbers {
        match why {
            Refusal::Shape => refusing(1, &[]),
            Refusal::Stray { row } => refusing(2, &[row as u64]),
            Refusal::OffCode { row } => refusing(3, &[row as u64]),
            Refusal::OffMessage { row } => refusing(4, &[row as u64]),
            Refusal::DependentG0 { row } => refusing(5, &[row as u64]),
            Refusal::DependentH { row } => refusing(6, &[row as u64]),
            Refusal::Message => refusing(7, &[]),
            Refusal::Stuck { cell } => refusing(8, &[cell as u64]),
            Refusal::NoWord => refusing(9, &[]),
            Refusal::ReadWord { cell } => refusing(10, &[cell as u64]),
            Refusal::Limit => refusing(11, &[]),
            Refusal::NoCodeword { tried } => refusing(12, &[tried]),
            Refusal::Crowded => refusing(13, &[]),
            Refusal::NoSlot => refusing(14, &[]),
            Refusal::Record { place } => refusing(15, &[place as u64]),
            Refusal::Plate => refusing(16, &[]),
            Refusal::OtherShape => refusing(24, &[]),
            Refusal::Lengths => refusing(25, &[]),
        }
    }
}

// A refusal's number alone.
pub fn number_of(why: Refusal) -> u32
    ensures { result ≡ (reason why).number }
{
    Numbers::from(why).number
}

// What an admission tells.
impl From<Admission> for Numbers {
    ghost from_gives = { λ a t. tells t ≡ admission a };

    fn from(answer: Admission) -> Numbers {
        match answer {
            Admission::Admitted => answering(&[]),
            Admission::Refused(why) => why.into(),
        }
    }
}

// What a write tells: a word and its d.
impl From<Written> for Numbers {
    ghost from_gives = { λ a t. tells t ≡ written a };

    fn from(answer: Written) -> Numbers {
        match answer {
            Written::Word { word, d } => answering(&[word, d]),
            Written::Refused(why) => why.into(),
        }
    }
}

// What a read tells: a message, what was put right, and the number tried.
impl From<Reading> for Numbers {
    ghost from_gives = { λ a t. tells t ≡ reading a };

    fn from(answer: Reading) -> Numbers {
        match answer {
            Reading::Message { message, z, tried } => answering(&[message, z, tried]),
            Reading::Refused(why) => why.into(),
        }
    }
}

// What a measurement of d0 tells: a distance, or "more than the cap", and the number tried.
impl From<MeasuredD0> for Numbers {
    ghost from_gives = { λ a t. tells t ≡ measured_d0 a };

    fn from(answer: MeasuredD0) -> Numbers {
        match answer {
            MeasuredD0::Distance { d, tried } => answering(&[d as u64, tried]),
            MeasuredD0::More { tried } => more_than_cap(&[tried]),
            MeasuredD0::Refused(why) => why.into(),
        }
    }
}

// What a measurement of d1 tells: the same, with the radius to print.
impl From<MeasuredD1> for Numbers {
    ghost from_gives = { λ a t. tells t ≡ measured_d1 a };

    fn from(answer: MeasuredD1) -> Numbers {
        match answer {
            MeasuredD1::Distance { d, tried, radius } => {
                answering(&[d as u64, tried, radius as u64])
            }
            MeasuredD1::More { tried, radius } => more_than_cap(&[tried, radius as u64]),
            MeasuredD1::Refused(why) => why.into(),
        }
    }
}

// What opening a page tells: its plate number.
impl From<Opening> for Numbers {
    ghost from_gives = { λ a t. tells t ≡ opening a };

    fn from(answer: Opening) -> Numbers {
        match answer {
            Opening::Number { number } => answering(&[number as u64]),
            Opening::Refused(why) => why.into(),
        }
    }
}

// What a call tells whose answer stands in lent rooms.
impl From<Outcome> for Numbers {
    ghost from_gives = { λ a t. tells t ≡ outcome a };

    fn from(answer: Outcome) -> Numbers {
        match answer {
            Outcome::Done => answering(&[]),
            Outcome::Refused(why) => why.into(),
        }
    }
}
