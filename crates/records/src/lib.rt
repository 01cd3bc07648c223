// The stuck cells of one slot, from the list of records that a page comes with: one thin function scans the lent slice, and gathers the slot's mask and levels. `run` does so for
// a run of slots, by the same step.
#![tactic(auto)]

ghost use Rattle.std.specs.Prelude.{◌≡◌, ◌+◌, ◌<◌, ◌^◌, IfOk};
ghost use Rattle.records.specs.Gather.{gather_of, spoils, next_of};

mod run;

use paper::{StuckCell, WIDTH, Word};
pub use run::{RUN, gather_run};
use words::cell_of;

// What one slot's records gather to so far: how many there are, the stuck cells and their levels.
#[derive(Clone, Copy)]
pub struct Gathered {
    pub place: usize,
    pub mask: Word,
    pub levels: Word,
}

// What no records gather to: `nothing` of specs/Gather.antt.
pub const NOTHING: Gathered = Gathered {
    place: 0,
    mask: 0,
    levels: 0,
};

// Whether a record of the slot breaks the rule, by what was gathered before it.
fn breaks_rule(acc: Gathered, r: StuckCell, n: u32) -> bool
    ensures { result ≡ spoils n acc r }
{
    n <= r.cell
        || WIDTH <= r.cell
        || 2 <= r.level
        || (acc.mask >> r.cell) % 2 == 1 && (acc.levels >> r.cell) % 2 != r.level as Word
}

// One record more: the one place that says what a record does to what was gathered before it. The place of one that breaks the rule is the error, and behind it nothing changes.
pub fn step(
    acc: Result<Gathered, usize>,
    r: StuckCell,
    slot: u32,
    n: u32,
) -> Result<Gathered, usize>
    requires { IfOk acc (λ g. g.place + 1 < 2 ^ 64) }
    ensures { result ≡ next_of slot n acc r }
{
    let acc = acc?;
    if r.slot != slot {
        return Ok(acc);
    }
    if breaks_rule(acc, r, n) {
        return Err(acc.place);
    }
    let cell = cell_of(r.cell);
    Ok(Gathered {
        place: acc.place + 1,
        mask: acc.mask | cell,
        levels: acc.levels | (r.level as Word * cell),
    })
}

// What the records of one slot gather to, over n cells, or the place of the first that breaks the rule: one step a record.
pub fn gather(records: &[StuckCell], slot: u32, n: u32) -> Result<Gathered, usize>
    ensures { result ≡ gather_of slot n records.now }
{
    let mut acc = NOTHING;
    for r in records {
        acc = step(Ok(acc), *r, slot, n)?;
    }
    Ok(acc)
}
