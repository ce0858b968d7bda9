// The expected pair: a prediction weighed against the history.
ghost use Rattle.std.specs.Prelude.{◌≡◌, ◌≤◌};
ghost use Rattle.wide.specs.Scaling.{floor, ceiling};
ghost use Rattle.site.specs.Numbers.{number};
ghost use Rattle.prediction.specs.Pair.{most_predicted};
ghost use Rattle.line.specs.Dispersion.{Overdispersed};
ghost use Rattle.line.specs.Weighing.{over, under, Sizes, weighed_pair};

use bracket::{Bounds, Ratio};
use site::values::Slot;
use wide::scale::{times_down, times_up};

const MILLION: u64 = 1_000_000;

// A million times kd + kn O.
fn over_of(kn: u64, kd: u64, observed: u64) -> u64
    requires { Overdispersed kn kd × (observed ≤ 500) }
    ensures { result ≡ over kn kd observed }
{
    (kd + kn * observed) * MILLION
}

// kd million and kn n.
fn under_of(kn: u64, kd: u64, n: u64) -> u64
    requires { Overdispersed kn kd × (n ≤ most_predicted) }
    ensures { result ≡ under kn kd n }
{
    kd * MILLION + kn * n
}

// N (1 + kO) / (1 + kN) at a predicted low, rounded down.
fn weigh_low(k: Ratio, observed: u64, low: u64) -> u64
    requires { Sizes k.num k.den observed low }
    ensures { result ≡ floor low (over k.num k.den observed) (under k.num k.den low) }
{
    let over = over_of(k.num, k.den, observed);
    let under = under_of(k.num, k.den, low);
    times_down(low, over, under)
}

// And at a predicted high, rounded up.
fn weigh_high(k: Ratio, observed: u64, high: u64) -> u64
    requires { Sizes k.num k.den observed high }
    ensures { result ≡ ceiling high (over k.num k.den observed) (under k.num k.den high) }
{
    let over = over_of(k.num, k.den, observed);
    let under = under_of(k.num, k.den, high);
    times_up(high, over, under)
}

// The predicted pair itself where there is no history; a history of 0 is one.
pub fn weigh(k: Ratio, observed: Slot, predicted: Bounds) -> Bounds
    requires { Sizes k.num k.den (number observed) predicted.low × Sizes k.num k.den (number observed) predicted.high }
    ensures { result ≡ weighed_pair k.num k.den observed predicted }
{
    match observed {
        None => predicted,
        Some(crashes) => Bounds {
            low: weigh_low(k, crashes as u64, predicted.low),
            high: weigh_high(k, crashes as u64, predicted.high),
        },
    }
}
