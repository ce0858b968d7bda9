// The terms of a site, year by year or one of all the years.
ghost use Rattle.std.specs.Prelude.{◌≡◌, cond, ◌∷◌, ◌≤◌, get_or, None};
ghost use Rattle.site.specs.Rules.{later_years};
ghost use Rattle.site.specs.Yearly.{later_slots};
ghost use Rattle.site.specs.Numbers as numbers;
ghost use Rattle.prediction.specs.Pair.{most_predicted, plus};

use bracket::Bounds;
use site::numbers::number;
use site::values::{Later, Slot, later_slots};

// The years of a term: one where there is a term for each year.
pub fn years_of(years: u64, yearly: bool) -> u64
    ensures { result ≡ cond yearly 1 years }
{
    if yearly { 1 } else { years }
}

// How many terms there are.
pub fn count_of(years: u64, yearly: bool) -> u64
    ensures { result ≡ cond yearly years 1 }
{
    if yearly { years } else { 1 }
}

// A traffic in a year, the first at place 0.
pub fn traffic_in(first: Slot, later: Later, year: u64) -> u64
    requires { year ≤ later_years }
    ensures { result ≡ numbers.number (get_or (first ∷ later_slots later) year None) }
{
    if year == 0 {
        return number(first);
    }
    let slots = later_slots(later);
    number(slots[year as usize - 1])
}

// The sum of two pairs.
pub fn add_pair(sum: Bounds, next: Bounds) -> Bounds
    requires { ((plus sum next).low ≤ most_predicted) × ((plus sum next).high ≤ most_predicted) }
    ensures { result ≡ plus sum next }
{
    Bounds {
        low: sum.low + next.low,
        high: sum.high + next.high,
    }
}
