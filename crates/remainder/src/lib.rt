// A number up to 65536 as a product of two up to 256 and a small rest, and bounds of what the rest adds to its logarithm
// and to its powers, in whole numbers over 10^12.
#![tactic(auto)]

ghost use Rattle.std.specs.Prelude.{◌≡◌, ◌+◌, ◌*◌, ◌^◌, ◌≤◌, ◌<◌};
ghost use Rattle.laws.specs.Quotient.{quotient_down, quotient_up, RoundedUp};
ghost use Rattle.remainder.specs.Split.{split_of, Splits};
ghost use Rattle.remainder.specs.Remainder.{SmallRest, Exponent, NearOne, most_denominator, most_log, with_cube};
ghost use Rattle.remainder.specs.Remainder.{log_bounds_of, exponential_low, exponential_high, remainder_bounds_of};

use bracket::Bounds;

// The bounds' denominator.
pub const SCALE: u64 = 1_000_000_000_000;

// The number n * m + r.
#[derive(Clone, Copy)]
pub struct Parts {
    pub n: u64,
    pub m: u64,
    pub r: u64,
}

// a / d, rounded up.
fn up(a: u64, d: u64) -> u64
    requires { (0 < d) × (a + d < 2 ^ 64) }
    ensures value { result ≡ quotient_up a d }
    ensures rounded { RoundedUp a d result }
{
    (a + (d - 1)) / d
}

// The same, from the quotient rounded down.
fn up_from(a: u64, d: u64, q: u64) -> u64
    requires { (0 < d) × (q ≡ quotient_down a d) }
    ensures value { result ≡ quotient_up a d }
    ensures rounded { RoundedUp a d result }
{
    if q * d < a {
        return q + 1;
    }
    q
}

// a = n * m + r, with n and m at most 256 and r at most n * m / 255.
pub fn split(a: u64) -> Parts
    requires { (1 ≤ a) × (a ≤ 65536) }
    ensures value { result ≡ split_of a }
    ensures parts { Splits a result.n result.m result.r }
{
    let n = up(a, 256);
    let m = a / n;
    Parts { n, m, r: a % n }
}

// 2z + z^3, from 2z.
fn with_cube(twice: u64) -> u64
    requires { twice ≤ 3913900000 }
    ensures { result ≡ with_cube twice }
{
    let z = up(twice, 2);
    let square = up(z * z, SCALE);
    let cube = up(square * z, SCALE);
    twice + cube
}

// Bounds of ln((product + rest) / product), from one division.
pub fn log_bounds(product: u64, rest: u64) -> Bounds
    requires { SmallRest product rest }
    ensures value { result ≡ log_bounds_of product rest }
    ensures small { (result.low ≤ most_log) × (result.high ≤ most_log) }
{
    let dividend = 2 * rest * SCALE;
    let divisor = 2 * product + rest;
    let low = dividend / divisor;
    let twice = up_from(dividend, divisor, low);
    Bounds {
        low,
        high: with_cube(twice),
    }
}

// A number below e^x.
fn exponential_low(x: u64) -> u64
    requires { x ≤ 4000000000 }
    ensures { result ≡ exponential_low x }
{
    let square = x * x / (2 * SCALE);
    let cube = square * x / (3 * SCALE);
    SCALE + x + square + cube
}

// A number above e^x.
fn exponential_high(x: u64) -> u64
    requires { x ≤ 4000000000 }
    ensures { result ≡ exponential_high x }
{
    let square = up(x * x, 2 * SCALE);
    let cube = up(square * x, 3 * SCALE);
    let fourth = up(cube * x, 4 * SCALE);
    SCALE + x + square + cube + 2 * fourth
}

// A number below e^(log * num / den).
pub fn raised_low(log: u64, num: u64, den: u64) -> u64
    requires { (log ≤ most_log) × Exponent num den × (den ≤ most_denominator) }
    ensures value { result ≡ exponential_low (quotient_down (log * num) den) }
    ensures near_one { NearOne result }
{
    exponential_low(log * num / den)
}

// A number above it.
pub fn raised_high(log: u64, num: u64, den: u64) -> u64
    requires { (log ≤ most_log) × Exponent num den × (den ≤ most_denominator) }
    ensures value { result ≡ exponential_high (quotient_up (log * num) den) }
    ensures near_one { NearOne result }
{
    exponential_high(up(log * num, den))
}

// Bounds of ((product + rest) / product)^(num / den), from those of the logarithm.
pub fn remainder_bounds(product: u64, rest: u64, num: u64, den: u64) -> Bounds
    requires { SmallRest product rest × Exponent num den × (den ≤ most_denominator) }
    ensures value { result ≡ remainder_bounds_of product rest num den }
    ensures near_one { NearOne result.low × NearOne result.high }
{
    let log = log_bounds(product, rest);
    Bounds {
        low: raised_low(log.low, num, den),
        high: raised_high(log.high, num, den),
    }
}
