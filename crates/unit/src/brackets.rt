// Brackets of powers, logarithms and exponentials, left in a lent run of numbers. Each call answers 0, with the low's numerator
// and denominator and the high's in ends[0] to ends[3] and the rest of ends as it was; or 8 where an argument is outside its
// range, then 10 where ends has fewer than four numbers, and ends as it was.
ghost use Rattle.power.specs.Power.{power_answer};
ghost use Rattle.logarithm.specs.Logarithm.{logarithm_answer};
ghost use Rattle.exponential.specs.Exponential.{exponential_answer, exponential_negative_answer};
ghost use Rattle.unit.specs.Lent.{Lends};

use crate::lent::lend_four;
use bracket::Bracket;

// Leaves a bracket's four numbers at the start of `ends`: 0; or 8 where there is no bracket, then 10 where `ends` is too
// short, with nothing written.
fn lend(answer: Option<Bracket>, ends: &mut [u64]) -> u64
    ensures { Lends answer ends.old ends.new result }
{
    match answer {
        None => 8,
        Some(b) => lend_four(b.low_num, b.low_den, b.high_num, b.high_den, ends),
    }
}

// base^(num / den): base from 1 to 20,000, den 100, and num one of 79, 49, 60, 61 and 20.
pub fn crash_power(base: u64, num: u64, den: u64, ends: &mut [u64]) -> u64
    ensures { Lends (power_answer base num den) ends.old ends.new result }
{
    lend(power::power(base, num, den), ends)
}

// ln argument: argument from 1 to 20,000.
pub fn crash_logarithm(argument: u64, ends: &mut [u64]) -> u64
    ensures { Lends (logarithm_answer argument) ends.old ends.new result }
{
    lend(logarithm::logarithm(argument), ends)
}

// e^x: x from 0 to 140,000 ten-thousandths.
pub fn crash_exponential(x: u64, ends: &mut [u64]) -> u64
    ensures { Lends (exponential_answer x) ends.old ends.new result }
{
    lend(exponential::exponential(x), ends)
}

// e^(-x): x from 0 to 140,000 ten-thousandths.
pub fn crash_exponential_negative(x: u64, ends: &mut [u64]) -> u64
    ensures { Lends (exponential_negative_answer x) ends.old ends.new result }
{
    lend(exponential::exponential_negative(x), ends)
}
