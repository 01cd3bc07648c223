// Admitting a sheet: refusals 1 to 6 of document 01, in the order of its table.
#![tactic(auto)]

ghost use Rattle.std.specs.Prelude.{◌≡◌, not, [], ◌+◌, ◌*◌, ◌^◌, ◌≤◌, ◌<◌, eqb, leb, length, get_or, take, drop, IfOk};
ghost use Rattle.paper.specs.First.{first, any};
ghost use Rattle.paper.specs.Refusals.{answer, verdict};
ghost use Rattle.paper.specs.Sheet.{r, G1, G0, H, M, shaped, wanted, off, judged_sums, judged_rows, admits};
ghost use Rattle.paper.specs.Words.{width, product};
ghost use Rattle.words.specs.Places.{as_first};
ghost use Rattle.sheet.specs.Sound.{Shaped};

use elimination::first_dependent;
use paper::{Refusal, Sheet, WIDTH, Word};
use std::marker::Model;
use words::{is_low, product_of};

// The rows from `from` on, `count` of them: one of the sheet's four parts. The two are no range, here and for cells in `blocks` and `tables`, since the definitions take them so.
pub fn part(rows: &[Word], from: u32, count: u32) -> &[Word]
    requires { from + count ≤ length rows.now }
    ensures { result.now ≡ take count (drop from rows.now) }
{
    let start = from as usize;
    let end = start + count as usize;
    &rows[start..end]
}

// "k ≥ 1, k + l ≤ n, the lent rows are n + k in number", and n is 1 to the width. n, k and l are any numbers: no sum is taken that could wrap.
pub fn is_shaped(sheet: &Sheet) -> bool
    ensures { result ≡ shaped sheet.now }
{
    1 <= sheet.n
        && sheet.n <= WIDTH
        && 1 <= sheet.k
        && sheet.k <= sheet.n
        && sheet.l <= sheet.n - sheet.k
        && sheet.rows.len() == (sheet.n + sheet.k) as usize
}

// The first row that "has a bit at cell n or above".
pub fn find_stray(n: u32, rows: &[Word]) -> Option<u32>
    requires { (n ≤ width) × (length rows.now ≤ 2 * width) }
    ensures { as_first result ≡ first (length rows.now) (λ i. leb (2 ^ n) (get_or rows.now i 0)) }
{
    for (i, row) in rows.iter().enumerate() {
        if !is_low(n, *row) {
            return Some(i as u32);
        }
    }
    None
}

// The product wanted of row i with row j of the others.
fn wanted_of(own: Word, i: usize, j: usize) -> Word
    ensures { result ≡ wanted own i j }
{
    if i == j { own } else { 0 }
}

// Whether x has product 1 with one of the rows. All are gone over, with no branch for each, so that the compiler takes several at once.
fn has_odd(rows: &[Word], x: Word) -> bool
    ensures { result ≡ any (length rows.now) (λ j. not (eqb (product x (get_or rows.now j 0)) 0)) }
{
    let mut odd: Word = 0;
    for row in rows {
        odd |= product_of(x, *row);
    }
    odd != 0
}

// Whether row i breaks the rule: where none of the others has its number, or own is 0, 0 is wanted with them all, and else with those before row i of them and those behind it.
fn is_off(own: Word, gs: &[Word], others: &[Word], i: usize) -> bool
    requires { i < length gs.now }
    ensures { result ≡ off own gs.now others.now i }
{
    let g = gs[i];
    if others.len() <= i || own == 0 {
        return has_odd(others, g);
    }
    let before = has_odd(&others[..i], g);
    let behind = has_odd(&others[i + 1..], g);
    before | (product_of(g, others[i]) != own) | behind
}

// Whether some row breaks the rule. It is not inlined, so that in `find_off` the loops, which alone judge few others, have the registers to themselves.
#[inline(never)]
fn any_off(own: Word, gs: &[Word], others: &[Word]) -> bool
    ensures { result ≡ any (length gs.now) (off own gs.now others.now) }
{
    for i in 0..gs.len() {
        if is_off(own, gs, others, i) {
            return true;
        }
    }
    false
}

// With no more others than these, going over the pairs alone is as quick.
const FEW: usize = 7;

// "the first row in sheet order at which the rule breaks": the loops over the rows of G and of H or M are left at the first breaking pair. Where the others are more than a few, it is first asked
// whether any row breaks the rule, since that takes less time than to find where, and of an admitted sheet it is all.
fn find_off(own: Word, gs: &[Word], others: &[Word]) -> Option<u32>
    requires { length gs.now ≤ width }
    ensures { as_first result ≡ first (length gs.now) (off own gs.now others.now) }
{
    if FEW < others.len() && !any_off(own, gs, others) {
        return None;
    }
    'rows: {
        for (i, g) in gs.iter().enumerate() {
            for (j, other) in others.iter().enumerate() {
                if product_of(*g, *other) != wanted_of(own, i, j) {
                    break 'rows Some(i as u32);
                }
            }
        }
        None
    }
}

// Rules 5 and 6: "no row of G0 is a sum of earlier rows of G0 .., and the same for H".
fn judge_sums(sheet: &Sheet) -> Result<(), Refusal>
    requires { Shaped sheet.now }
    ensures { verdict result ≡ judged_sums sheet.now (answer []) }
{
    let k = sheet.k;
    let g = k + sheet.l;
    if let Some(j) = first_dependent(part(sheet.rows, k, sheet.l)) {
        return Err(Refusal::DependentG0 { row: k + j });
    }
    if let Some(j) = first_dependent(part(sheet.rows, g, sheet.n - g)) {
        return Err(Refusal::DependentH { row: g + j });
    }
    Ok(())
}

// Rules 2 to 4, each "tried on all rows before the next rule", and then the sums.
fn judge_rows(sheet: &Sheet) -> Result<(), Refusal>
    requires { Shaped sheet.now }
    ensures { verdict result ≡ judged_rows sheet.now (answer []) }
{
    let g = sheet.k + sheet.l;
    if let Some(row) = find_stray(sheet.n, sheet.rows) {
        return Err(Refusal::Stray { row });
    }
    let gs = part(sheet.rows, 0, g);
    if let Some(row) = find_off(0, gs, part(sheet.rows, g, sheet.n - g)) {
        return Err(Refusal::OffCode { row });
    }
    if let Some(row) = find_off(1, gs, part(sheet.rows, sheet.n, sheet.k)) {
        return Err(Refusal::OffMessage { row });
    }
    judge_sums(sheet)
}

// A sheet that was admitted: its value is the sheet, and each fact of `Sound` holds of it. Its fields are a sheet's own, so that a job reads `sheet.n`.
#[derive(Drop)]
pub struct Admitted<'a> {
    pub n: u32,
    pub k: u32,
    pub l: u32,
    pub rows: &'a [Word],
}

impl<'a> Model for Admitted<'a> {
    ghost use Rattle.paper.specs.Sheet.{Sheet, sheet};
    ghost use Rattle.sheet.specs.Sound.{Sound};

    ghost Value = { Sheet };

    ghost view = { λ s. sheet s.n s.k s.l s.rows.now };

    ghost invariant = { λ s. Sound (sheet s.n s.k s.l s.rows.now) };
}

impl<'a> Admitted<'a> {
    // "k rows of G1"
    pub fn g1(&self) -> &'a [Word]
        ensures rows { result.now ≡ G1 self.now }
        ensures count { length result.now ≡ self.now.k }
        ensures few { length result.now ≤ width }
    {
        part(self.rows, 0, self.k)
    }

    // "l rows of G0"
    pub fn g0(&self) -> &'a [Word]
        ensures rows { result.now ≡ G0 self.now }
        ensures count { length result.now ≡ self.now.l }
        ensures few { length result.now ≤ width }
    {
        part(self.rows, self.k, self.l)
    }

    // "r rows of H"
    pub fn h(&self) -> &'a [Word]
        ensures rows { result.now ≡ H self.now }
        ensures count { length result.now ≡ r self.now }
        ensures few { length result.now ≤ width }
    {
        let g = self.k + self.l;
        part(self.rows, g, self.n - g)
    }

    // "k rows of M (the message inverse)"
    pub fn m(&self) -> &'a [Word]
        ensures rows { result.now ≡ M self.now }
        ensures count { length result.now ≡ self.now.k }
        ensures few { length result.now ≤ width }
    {
        part(self.rows, self.n, self.k)
    }
}

// Whether the sheet is admitted, or the first rule that it breaks and where.
pub fn admit<'a>(sheet: &Sheet<'a>) -> Result<Admitted<'a>, Refusal>
    ensures told { verdict result ≡ admits sheet.now }
    ensures same { IfOk result (λ s. s ≡ sheet.now) }
{
    if !is_shaped(sheet) {
        return Err(Refusal::Shape);
    }
    judge_rows(sheet)?;
    Ok(Admitted {
        n: sheet.n,
        k: sheet.k,
        l: sheet.l,
        rows: sheet.rows,
    })
}
