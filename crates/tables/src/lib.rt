// Request 4: the tables of a sheet. The call: tables. It judges the rooms (1) and the sheet (1 to 6), looks whether G1 is [I 0 P] and G0 is [R I Q] (24),
// and puts what stands in the tables' places into the lent rooms. Cost: that of admission, and one look at each row of G1 and G0.
#![tactic(auto)]

ghost use Rattle.std.specs.Prelude.{map, ◌≡◌, ◌+◌, ◌≤◌, length};
ghost use Rattle.paper.specs.Refusals.{outcome, leaves};
ghost use Rattle.paper.specs.Tables.{cells, table_p, table_r, table_q, gives_admitted, gives};
ghost use Rattle.paper.specs.Words.{width};
ghost use Rattle.blocks.specs.Counts.{Counted};
ghost use Rattle.tables.specs.Identities.{identity_at};

use blocks::{cells_of, is_tabled};
use paper::{Outcome, Refusal, Sheet, Word};
use sheet::{Admitted, admit};
use words::cell_of;

// Whether the rows have an identity in the cells from `from` on, `count` of them.
fn is_identity(from: u32, count: u32, rows: &[Word]) -> bool
    requires { length rows.now ≤ width }
    ensures { result ≡ identity_at from count rows.now }
{
    // A `for`: a chain of `all` proved too, but there the edit that reads row 0 was refused at the same goal as a right closure that reads `rows[i]`, and so showed nothing.
    for (i, row) in rows.iter().enumerate() {
        if cells_of(from, count, *row) != cell_of(i as u32) {
            return false;
        }
    }
    true
}

// Puts the cells of each row from `from` on, `count` of them, into the room.
fn put_cells(from: u32, count: u32, rows: &[Word], room: &mut [Word])
    requires { length room.old ≡ length rows.now }
    ensures { room.new ≡ map (cells from count) rows.now }
{
    // By the row's number: after a `zip` over `room.iter_mut()` a proof knows the room's length and none of its places.
    for (i, place) in room.iter_mut().enumerate() {
        *place = cells_of(from, count, rows[i]);
    }
}

// The tables of an admitted sheet: 24, or the tables in the rooms, which are three that the caller lends one by one. G1 is [I 0 P] if its first k + l cells are [I 0], and G0 is [R I Q] if the next l after k are I.
fn give(sheet: &Admitted, p: &mut [Word], r: &mut [Word], q: &mut [Word]) -> Outcome
    requires { Counted sheet.now.k sheet.now.l (length p.old) (length r.old) (length q.old) }
    ensures result_value { outcome result ≡ gives_admitted sheet.now }
    ensures p_after { p.new ≡ leaves (gives_admitted sheet.now) (table_p sheet.now) p.old }
    ensures r_after { r.new ≡ leaves (gives_admitted sheet.now) (table_r sheet.now) r.old }
    ensures q_after { q.new ≡ leaves (gives_admitted sheet.now) (table_q sheet.now) q.old }
{
    let g = sheet.k + sheet.l;
    let g1 = sheet.g1();
    if !is_identity(0, g, g1) {
        return Outcome::Refused(Refusal::OtherShape);
    }
    let g0 = sheet.g0();
    if !is_identity(sheet.k, sheet.l, g0) {
        return Outcome::Refused(Refusal::OtherShape);
    }
    put_cells(g, sheet.n - g, g1, p);
    put_cells(0, sheet.k, g0, r);
    put_cells(g, sheet.n - g, g0, q);
    Outcome::Done
}

// Gives the tables of an admitted sheet of the shape back, in the lent rooms: refusals 1, also for the rooms, to 6, then 24. A refusal leaves the rooms as they were.
pub fn tables(sheet: &Sheet, p: &mut [Word], r: &mut [Word], q: &mut [Word]) -> Outcome
    ensures result_value { outcome result ≡ gives sheet.now (length p.old) (length r.old) (length q.old) }
    ensures p_after { p.new ≡ leaves (gives sheet.now (length p.old) (length r.old) (length q.old)) (table_p sheet.now) p.old }
    ensures r_after { r.new ≡ leaves (gives sheet.now (length p.old) (length r.old) (length q.old)) (table_r sheet.now) r.old }
    ensures q_after { q.new ≡ leaves (gives sheet.now (length p.old) (length r.old) (length q.old)) (table_q sheet.now) q.old }
{
    if !is_tabled(sheet.k, sheet.l, p.len(), r.len(), q.len()) {
        return Outcome::Refused(Refusal::Shape);
    }
    match admit(sheet) {
        Ok(admitted) => give(&admitted, p, r, q),
        Err(why) => Outcome::Refused(why),
    }
}
