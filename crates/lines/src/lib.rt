// What a line asks for: the number of a verb and numbers, by a table of names and shapes. Knows no verb.
#![tactic(auto)]

mod call;
mod shape;

pub use call::{Line, ROOM_LINE, ROOM_NUMBERS, parse};
pub use shape::MOST_ROOM;
