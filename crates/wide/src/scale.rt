// a * n / d, rounded down and rounded up, with the product exact.
ghost use Rattle.std.specs.Prelude.{◌≡◌, ◌+◌, ◌*◌, ◌/◌, ◌%◌, ◌^◌, ◌<◌};
ghost use Rattle.wide.specs.Scaling.{floor, ceiling, answered, scaled_down, scaled_up};

use crate::division::quotient;
use crate::word::{plus, product};

// (a * n + more) / d, rounded down, or none where that does not fit 64 bits, for a `more` below d. A factor of 1 is as common as any other, and leaves a as it is.
fn scale(a: u64, n: u64, d: u64, more: u64) -> Option<u64>
    requires { more < d }
    ensures { result ≡ answered d ((a * n + more) / d) }
{
    if n == d {
        return Some(a);
    }
    let w = plus(product(a, n), more);
    if w.high < d {
        Some(quotient(w, d))
    } else {
        None
    }
}

// a * n / d, rounded down. There is none where it does not fit 64 bits, and none where d is 0.
pub fn scale_down(a: u64, n: u64, d: u64) -> Option<u64>
    ensures { result ≡ scaled_down a n d }
{
    if d == 0 {
        return None;
    }
    scale(a, n, d, 0)
}

// a * n / d, rounded up. There is none where it does not fit 64 bits, and none where d is 0.
pub fn scale_up(a: u64, n: u64, d: u64) -> Option<u64>
    ensures { result ≡ scaled_up a n d }
{
    if d == 0 {
        return None;
    }
    scale(a, n, d, d - 1)
}

// (a * n + more) / (part * other), rounded down, for a caller that has shown that it fits on the way. It is divided by `part` first,
// a's multiple of `part` and what is left of a each by itself, so that no product has two words.
pub fn scale_by_parts(a: u64, n: u64, more: u64, part: u64, other: u64) -> u64
    requires { (0 < part) × (0 < other) × (a % part * n + more < 2 ^ 64) × ((a * n + more) / part < 2 ^ 64) }
    ensures { result ≡ (a * n + more) / (part * other) }
{
    (a / part * n + (a % part * n + more) / part) / other
}

// a * n / d, rounded down, for a caller that has shown that it fits.
pub fn times_down(a: u64, n: u64, d: u64) -> u64
    requires { (0 < d) × (floor a n d < 2 ^ 64) }
    ensures { result ≡ floor a n d }
{
    scale_down(a, n, d).unwrap_or(0)
}

// a * n / d, rounded up, for a caller that has shown that it fits.
pub fn times_up(a: u64, n: u64, d: u64) -> u64
    requires { (0 < d) × (ceiling a n d < 2 ^ 64) }
    ensures { result ≡ ceiling a n d }
{
    scale_up(a, n, d).unwrap_or(0)
}
