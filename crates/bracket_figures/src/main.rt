// Prints some brackets, the low and the high of each in whole millionths. The stored output was made by the reference.
#![tactic(auto)]

use bracket::Bracket;
use exponential::{exponential, exponential_negative};
use logarithm::logarithm;
use power::power;
use std::io;
use wide::scale::scale_down;

// num / den in whole millionths, rounded down.
fn print_millionths(rt: &impl Print, num: u64, den: u64) -> io::Result<()> {
    match scale_down(num, 1000000, den) {
        Some(v) => print!(rt; "{v}"),
        None => print!(rt; "too large"),
    }
}

fn print_bracket(rt: &impl Print, answer: Option<Bracket>) -> io::Result<()> {
    match answer {
        Some(b) => {
            print_millionths(rt, b.low_num, b.low_den)?;
            print!(rt; " ")?;
            print_millionths(rt, b.high_num, b.high_den)?;
            println!(rt; "")
        }
        None => println!(rt; "out of range"),
    }
}

fn print_powers(rt: &impl Print) -> io::Result<()> {
    print_bracket(rt, power(300, 79, 100))?;
    print_bracket(rt, power(1000, 49, 100))?;
    print_bracket(rt, power(1999, 60, 100))?;
    print_bracket(rt, power(257, 61, 100))?;
    print_bracket(rt, power(3, 20, 100))?;
    print_bracket(rt, power(19999, 20, 100))?;
    print_bracket(rt, power(0, 79, 100))?;
    print_bracket(rt, power(2, 3, 5))
}

fn print_logarithms(rt: &impl Print) -> io::Result<()> {
    print_bracket(rt, logarithm(2))?;
    print_bracket(rt, logarithm(257))?;
    print_bracket(rt, logarithm(9999))?;
    print_bracket(rt, logarithm(20000))?;
    print_bracket(rt, logarithm(20001))
}

fn print_exponentials(rt: &impl Print) -> io::Result<()> {
    print_bracket(rt, exponential(2672))?;
    print_bracket(rt, exponential(3240))?;
    print_bracket(rt, exponential_negative(4865))?;
    print_bracket(rt, exponential_negative(57300))?;
    print_bracket(rt, exponential_negative(93400))?;
    print_bracket(rt, exponential_negative(109000))?;
    print_bracket(rt, exponential_negative(140001))
}

fn main(rt: HostRuntime) -> io::Result<()> {
    print_powers(&rt)?;
    print_logarithms(&rt)?;
    print_exponentials(&rt)
}
