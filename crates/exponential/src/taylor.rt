// e^f for a fraction f below 1, by the terms of its sum.
ghost use Rattle.std.specs.Prelude.{◌≡◌, ◌≤◌};
ghost use Rattle.exponential.specs.Taylor.{taylor_low, taylor_high};

use crate::SCALE;
use bracket::Bounds;

// Bounds of e^(f / 10000): the first term and 16 more, each rounded down in low and up in high, and the tail in high.
pub(crate) fn taylor(f: u64) -> Bounds
    requires { f ≤ 10000 }
    ensures { (result.low ≡ taylor_low f) × (result.high ≡ taylor_high f) }
{
    // e^0 is 1, and no term adds to it
    if f == 0 {
        return Bounds {
            low: SCALE,
            high: SCALE,
        };
    }
    let mut low_term = SCALE;
    let mut high_term = SCALE;
    let mut low = SCALE;
    let mut high = SCALE;
    for k in 1..17 {
        let d = 10000 * k;
        low_term = low_term * f / d;
        high_term = (high_term * f + (d - 1)) / d;
        low += low_term;
        high += high_term;
    }
    let tail = (high_term * f + 169999) / 170000;
    Bounds {
        low,
        high: high + 2 * tail,
    }
}
