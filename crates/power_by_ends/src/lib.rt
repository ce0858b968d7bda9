// Brackets of powers with each end by a walk of its own and scaled in two words, and the call that answers them: `power` as it was
// before request 5. Two programs alone call it, beside the new form: `rounds` times both, and `power_forms` prints what both answer.
#![tactic(auto)]

ghost use Rattle.std.specs.Prelude.{◌≡◌, ◌≤◌, ◌<◌};
ghost use Rattle.power.specs.Exponents.{exponent_at};
ghost use Rattle.power.specs.Power.{power_low, power_high, power_bracket, power_answer, PowerStands};

use bracket::Bracket;
use power::BILLION;
use power::stored::{Powers, exponent_place, hundredths, stored_bounds, stored_powers};
use remainder::{SCALE, log_bounds, raised_high, raised_low, split};
use wide::scale::{times_down, times_up};

// The low end, in billionths, for the exponent at a place below 5.
fn power_low_with(powers: &Powers, base: u64, exponent: u64) -> u64
    requires { (1 ≤ base) × (base ≤ 20000) × (exponent < 5) }
    ensures { result ≡ power_low base (exponent_at exponent) 100 }
{
    let s = split(base);
    let first = stored_bounds(powers, exponent, s.n);
    let second = stored_bounds(powers, exponent, s.m);
    let log = log_bounds(s.n * s.m, s.r);
    let remainder = raised_low(log.low, hundredths(exponent), 100);
    times_down(times_down(first.low, second.low, BILLION), remainder, SCALE)
}

// The high end.
fn power_high_with(powers: &Powers, base: u64, exponent: u64) -> u64
    requires { (1 ≤ base) × (base ≤ 20000) × (exponent < 5) }
    ensures { result ≡ power_high base (exponent_at exponent) 100 }
{
    let s = split(base);
    let first = stored_bounds(powers, exponent, s.n);
    let second = stored_bounds(powers, exponent, s.m);
    let log = log_bounds(s.n * s.m, s.r);
    let remainder = raised_high(log.high, hundredths(exponent), 100);
    times_up(times_up(first.high, second.high, BILLION), remainder, SCALE)
}

// Both ends, the same as by `power_with`.
pub fn power_by_ends_with(powers: &Powers, base: u64, exponent: u64) -> Bracket
    requires { (1 ≤ base) × (base ≤ 20000) × (exponent < 5) }
    ensures { result ≡ power_bracket base (exponent_at exponent) 100 }
{
    Bracket {
        low_num: power_low_with(powers, base, exponent),
        low_den: BILLION,
        high_num: power_high_with(powers, base, exponent),
        high_den: BILLION,
    }
}

// A bracket of base^(num / den), or that the base or the exponent is out of range. What it ensures is what `power` ensures: both
// answers are `power_answer base num den`, and so the same for every argument, inside the range or out.
pub fn power_by_ends(base: u64, num: u64, den: u64) -> Option<Bracket>
    ensures value { result ≡ power_answer base num den }
    ensures stands { PowerStands base num den result }
{
    if base < 1 || 20000 < base || den != 100 {
        return None;
    }
    let exponent = exponent_place(num)?;
    Some(power_by_ends_with(&stored_powers(), base, exponent))
}
