// Brackets of base^(num / den), for a base from 1 to 20,000 and five exponents in hundredths. A base is split into n * m + r:
// its power is the stored power of n, times that of m, times the remainder's.
#![tactic(auto)]

pub mod stored;

ghost use Rattle.std.specs.Prelude.{◌≡◌, ◌≤◌, ◌<◌};
ghost use Rattle.wide.specs.Scaling.{rounded};
ghost use Rattle.remainder.specs.Remainder.{scale, NearOne};
ghost use Rattle.power.specs.Exponents.{exponent_at};
ghost use Rattle.power.specs.Stored.{billion};
ghost use Rattle.power.specs.Ends.{most_stored, most_product};
ghost use Rattle.power.specs.Power.{power_bracket, power_answer, PowerStands};

use crate::stored::{Powers, exponent_place, hundredths, stored_bounds, stored_powers};
use bracket::Bracket;
use remainder::{SCALE, remainder_bounds, split};
use wide::scale::scale_by_parts;

pub const BILLION: u64 = 1_000_000_000;

// The powers of two in the billion and in the scale, by which a division is a shift.
const BILLION_TWOS: u64 = 512;

const SCALE_TWOS: u64 = 4096;

// The product of two stored bounds, in billionths: rounded down for the low end, where `up` is 0, and up for the high one, where it
// is 1.
fn product_of(first: u64, second: u64, up: u64) -> u64
    requires { (up ≤ 1) × (first ≤ most_stored) × (second ≤ most_stored) }
    ensures value { result ≡ rounded up first second billion }
    ensures small { result ≤ most_product }
{
    scale_by_parts(
        first,
        second,
        up * (BILLION - 1),
        BILLION_TWOS,
        BILLION / BILLION_TWOS,
    )
}

// That product times a remainder, rounded the same way. A remainder is 1 and little more, and only the little is multiplied.
fn end_of(product: u64, remainder: u64, up: u64) -> u64
    requires { (up ≤ 1) × (product ≤ most_product) × NearOne remainder }
    ensures { result ≡ rounded up product remainder scale }
{
    let more = scale_by_parts(
        product,
        remainder - SCALE,
        up * (SCALE - 1),
        SCALE_TWOS,
        SCALE / SCALE_TWOS,
    );
    product + more
}

// Both ends, for the exponent at a place below 5. The remainder takes longest: base - r is there before n * m, and the products stand
// before it in the code (docs/DECISIONS.md#Arithmetic).
pub fn power_with(powers: &Powers, base: u64, exponent: u64) -> Bracket
    requires { (1 ≤ base) × (base ≤ 20000) × (exponent < 5) }
    ensures { result ≡ power_bracket base (exponent_at exponent) 100 }
{
    let s = split(base);
    let first = stored_bounds(powers, exponent, s.n);
    let second = stored_bounds(powers, exponent, s.m);
    let low = product_of(first.low, second.low, 0);
    let high = product_of(first.high, second.high, 1);
    let remainder = remainder_bounds(base - s.r, s.r, hundredths(exponent), 100);
    Bracket {
        low_num: end_of(low, remainder.low, 0),
        low_den: BILLION,
        high_num: end_of(high, remainder.high, 1),
        high_den: BILLION,
    }
}

// A bracket of base^(num / den), or that the base or the exponent is out of range.
pub fn power(base: u64, num: u64, den: u64) -> Option<Bracket>
    ensures value { result ≡ power_answer base num den }
    ensures stands { PowerStands base num den result }
{
    if base < 1 || 20000 < base || den != 100 {
        return None;
    }
    let exponent = exponent_place(num)?;
    Some(power_with(&stored_powers(), base, exponent))
}
