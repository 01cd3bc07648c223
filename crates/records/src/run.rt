// What a run of slots gathers of a page's records in one pass. A write of the whole page goes by this, so that it scans the records once a run and not once a slot.
ghost use Rattle.std.specs.Prelude.{◌≡◌, ℕ, ◌+◌, ◌<◌, MatchOption, get_or};
ghost use Rattle.records.specs.Gather.{gather_of, nothing};
ghost use Rattle.records.specs.Runs.{run};

use crate::{Gathered, NOTHING, step};
use paper::StuckCell;

// How many slots are gathered in one pass: `run` of specs/Runs.antt.
pub const RUN: usize = 128;

// The place of a slot in the run that begins at `base`, if it is one of its slots.
fn place_in_run(slot: u32, base: u32) -> Option<usize>
    ensures { MatchOption result ((j : ℕ) → j < run → base + j ≡ slot → ⊥) (λ at. (at < run) × (base + at ≡ slot)) }
{
    let at = slot.checked_sub(base)? as usize;
    (at < RUN).then_some(at)
}

// What the records of each slot of a run gather to, over n cells: one step a record, by `step`, as `gather` does for one slot.
pub fn gather_run(records: &[StuckCell], n: u32, base: u32) -> [Result<Gathered, usize>; RUN]
    ensures { (j : ℕ) → j < run → get_or result j (Ok nothing) ≡ gather_of (base + j) n records.now }
{
    let mut all = [Ok(NOTHING); RUN];
    for r in records {
        if let Some(at) = place_in_run(r.slot, base) {
            all[at] = step(all[at], *r, r.slot, n);
        }
    }
    all
}
