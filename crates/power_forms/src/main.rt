// What both forms of the call of a power answer. Standard input is arguments of the call, three eight-byte numbers each, high byte
// first: base, num and den. Prints two lines for each, what `power` answers and what `power_by_ends` does: the numerators and
// denominators of the bracket's ends, or that it is out of range. A rest of fewer bytes than three numbers is passed over.
#![tactic(auto)]

ghost use Rattle.std.specs.Prelude.{◌+◌, ◌<◌, ◌≤◌, length};

use bracket::Bracket;
use input::fill_buffer;
use power::power;
use power_by_ends::power_by_ends;
use std::{array, io};

// The bytes of three numbers.
const ARGUMENTS: usize = 24;

// What follows so many arguments is not read.
const INPUT_ROOM: usize = 4096 * ARGUMENTS;

// The eight-byte number at a place, high byte first.
fn number_at(input: &[u8], at: usize) -> u64
    requires { at + 8 ≤ length input.now }
{
    u64::from_be_bytes(array::from_fn(|i| input[at + i]))
}

fn print_answer(rt: &impl Print, answer: Option<Bracket>) -> io::Result<()> {
    match answer {
        Some(b) => println!(rt; "{} {} {} {}", b.low_num, b.low_den, b.high_num, b.high_den),
        None => println!(rt; "out of range"),
    }
}

fn print_answers(rt: &impl Print, input: &[u8]) -> io::Result<()> {
    let (calls, _) = input.as_chunks::<ARGUMENTS>();
    for call in calls {
        let base = number_at(call, 0);
        let num = number_at(call, 8);
        let den = number_at(call, 16);
        print_answer(rt, power(base, num, den))?;
        print_answer(rt, power_by_ends(base, num, den))?;
    }
    Ok(())
}

fn main(rt: HostRuntime) -> io::Result<()> {
    let mut input = [0u8; INPUT_ROOM];
    let n = fill_buffer(&mut rt.stdin(), &mut input)?;
    print_answers(&rt, &input[..n])
}
