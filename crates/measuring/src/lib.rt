// Measuring the plate of an admitted sheet: the cap is judged, and the list is searched for the first word that has the distance's property.
// The sheet is not checked here: the caller has, so that one which does many jobs on a sheet checks it once.
#![tactic(auto)]

ghost use Rattle.std.specs.Prelude.{◌≡◌, ◌≤◌};
ghost use Rattle.paper.specs.Refusals.{measured_d0, measured_d1};
ghost use Rattle.paper.specs.Plate.{most_cap, capped, search_d0, search_d1, measures_admitted_d0, measures_admitted_d1};
ghost use Rattle.listing.specs.Searches.{searched};

use listing::{Found, search_weights};
use paper::{MOST_CAP, MeasuredD0, MeasuredD1, Refusal, Word};
use sheet::Admitted;
use words::weight_of;

// 11: a cap of 1 to 8. (`is_number` of opening is the same of a plate number, by another definition.)
fn is_cap(cap: u32) -> bool
    ensures { result ≡ capped cap }
{
    (1..=MOST_CAP).contains(&cap)
}

// The first listed word from weight 1 up to the cap "whose product with every row of G0 is 0".
fn find_masked(sheet: &Admitted, cap: u32) -> Found
    requires { cap ≤ most_cap }
    ensures { searched result ≡ search_d0 sheet.now cap }
{
    search_weights(sheet.g0(), &[], 0, sheet.n, 1, cap + 1)
}

// The first listed word from weight 1 up to the cap that is "a codeword with a message other than 0".
fn find_hidden(sheet: &Admitted, cap: u32) -> Found
    requires { cap ≤ most_cap }
    ensures { searched result ≡ search_d1 sheet.now cap }
{
    search_weights(sheet.h(), sheet.m(), 0, sheet.n, 1, cap + 1)
}

// 11, then "the distance, or "more than the cap", and the number tried".
pub fn measure_d0(sheet: &Admitted, cap: u32) -> MeasuredD0
    ensures { measured_d0 result ≡ measures_admitted_d0 sheet.now cap }
{
    if !is_cap(cap) {
        return MeasuredD0::Refused(Refusal::Limit);
    }
    let Found { z, tried } = find_masked(sheet, cap);
    match z {
        Some(z) => MeasuredD0::Distance {
            d: weight_of(z),
            tried,
        },
        None => MeasuredD0::More { tried },
    }
}

// The same of d1, with "the radius to print on the plate". It differs from that of d0 in the search, in what is answered and in its type, so that one function for both would be handed all three; and so it is with `find_masked` and `find_hidden`, and with the calls above.
pub fn measure_d1(sheet: &Admitted, cap: u32) -> MeasuredD1
    ensures { measured_d1 result ≡ measures_admitted_d1 sheet.now cap }
{
    if !is_cap(cap) {
        return MeasuredD1::Refused(Refusal::Limit);
    }
    let Found { z, tried } = find_hidden(sheet, cap);
    match z {
        Some(z) => {
            let d = weight_of(z);
            MeasuredD1::Distance {
                d,
                tried,
                radius: (d - 1) / 2,
            }
        }
        None => MeasuredD1::More {
            tried,
            radius: cap / 2,
        },
    }
}
