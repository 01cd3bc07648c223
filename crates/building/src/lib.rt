// Request 4: the whole sheet of three small tables, which is put into a lent room.
// The call: build. It judges the sizes (1) and the bits (2), and then puts row after row, each by its formula. Cost: n + k rows of at most 2n products.
#![tactic(auto)]

ghost use Rattle.std.specs.Prelude.{◌≡◌, ◌+◌, ◌^◌, ◌≤◌, ◌<◌, length, get_or};
ghost use Rattle.paper.specs.Refusals.{outcome, leaves};
ghost use Rattle.paper.specs.Tables.{built_of, builds_of};
ghost use Rattle.paper.specs.Words.{width};
ghost use Rattle.building.specs.Handed.{Sized, Fit, builds_sized_of};
ghost use Rattle.building.specs.Rows.{row_g1, row_g0, row_h, row_m};

use blocks::{is_tabled, join};
use paper::{Outcome, Refusal, Sheet, Tables, Word};
use sheet::{find_stray, is_shaped};
use words::{cell_of, products_of};

// Row i of G1 = [I 0 P].
fn g1_row(tables: &Tables, i: u32) -> Word
    requires { (i < width) × (i < length tables.now.P) × (row_g1 tables.now.k tables.now.l tables.now.P i < 2 ^ width) }
    ensures { result ≡ row_g1 tables.now.k tables.now.l tables.now.P i }
{
    join(tables.k, tables.l, cell_of(i), 0, tables.p[i as usize])
}

// Row j of G0 = [R I Q].
fn g0_row(tables: &Tables, j: u32) -> Word
    requires { (j < width) × (j < length tables.now.R) × (j < length tables.now.Q) × (row_g0 tables.now.k tables.now.l tables.now.R tables.now.Q j < 2 ^ width) }
    ensures { result ≡ row_g0 tables.now.k tables.now.l tables.now.R tables.now.Q j }
{
    join(
        tables.k,
        tables.l,
        tables.r[j as usize],
        cell_of(j),
        tables.q[j as usize],
    )
}

// Row c of H = [Pᵀ (Q + RP)ᵀ I]: column c of Q + RP is that of Q and the products of R's rows with that of P.
fn h_row(tables: &Tables, c: u32) -> Word
    requires { (c < width) × (length tables.now.P ≤ width) × (length tables.now.R ≤ width) × (length tables.now.Q ≡ length tables.now.R) × (row_h tables.now.k tables.now.l tables.now.P tables.now.R tables.now.Q c < 2 ^ width) }
    ensures { result ≡ row_h tables.now.k tables.now.l tables.now.P tables.now.R tables.now.Q c }
{
    let unit = cell_of(c);
    let first = products_of(tables.p, unit);
    join(
        tables.k,
        tables.l,
        first,
        products_of(tables.q, unit) ^ products_of(tables.r, first),
        unit,
    )
}

// Row i of M = [I Rᵀ 0].
fn m_row(tables: &Tables, i: u32) -> Word
    requires { (i < width) × (length tables.now.R ≤ width) × (row_m tables.now.k tables.now.l tables.now.R i < 2 ^ width) }
    ensures { result ≡ row_m tables.now.k tables.now.l tables.now.R i }
{
    let unit = cell_of(i);
    join(tables.k, tables.l, unit, products_of(tables.r, unit), 0)
}

// Row i of the sheet, by the part that it is of: the one place that says where each part begins.
fn row_at(tables: &Tables, i: u32) -> Word
    requires { Fit tables.now × (i < tables.now.n + tables.now.k) }
    ensures { result ≡ get_or (built_of tables.now) i 0 }
{
    let g = tables.k + tables.l;
    if i < tables.k {
        g1_row(tables, i)
    } else if i < g {
        g0_row(tables, i - tables.k)
    } else if i < tables.n {
        h_row(tables, i - g)
    } else {
        m_row(tables, i - tables.n)
    }
}

// Puts the sheet into the room.
fn fill(tables: &Tables, room: &mut [Word])
    requires { Fit tables.now × (length room.old ≡ tables.now.n + tables.now.k) }
    ensures { room.new ≡ built_of tables.now }
{
    for (i, place) in room.iter_mut().enumerate() {
        *place = row_at(tables, i as u32);
    }
}

// Builds from tables of the right sizes: 2, "with the row counted through P, then R, then Q", or the sheet in the room.
fn build_sized(tables: &Tables, room: &mut [Word]) -> Outcome
    requires { Sized room.old tables.now }
    ensures result_value { outcome result ≡ builds_sized_of tables.now }
    ensures room_after { room.new ≡ leaves (builds_sized_of tables.now) (built_of tables.now) room.old }
{
    let k = tables.k;
    let g = k + tables.l;
    if let Some(i) = find_stray(tables.n - g, tables.p) {
        return Outcome::Refused(Refusal::Stray { row: i });
    }
    if let Some(j) = find_stray(k, tables.r) {
        return Outcome::Refused(Refusal::Stray { row: k + j });
    }
    if let Some(j) = find_stray(tables.n - g, tables.q) {
        return Outcome::Refused(Refusal::Stray { row: g + j });
    }
    fill(tables, room);
    Outcome::Done
}

// Builds the whole sheet of three tables in the lent room: refusals 1 and 2. A refusal leaves the room as it was.
pub fn build(tables: &Tables, room: &mut [Word]) -> Outcome
    ensures result_value { outcome result ≡ builds_of tables.now room.old }
    ensures room_after { room.new ≡ leaves (builds_of tables.now room.old) (built_of tables.now) room.old }
{
    let wanted = Sheet {
        n: tables.n,
        k: tables.k,
        l: tables.l,
        rows: room,
    };
    if !is_shaped(&wanted) {
        return Outcome::Refused(Refusal::Shape);
    }
    if !is_tabled(
        tables.k,
        tables.l,
        tables.p.len(),
        tables.r.len(),
        tables.q.len(),
    ) {
        return Outcome::Refused(Refusal::Shape);
    }
    build_sized(tables, room)
}
