// Rounds with the stored numbers lent, for the benchmark. Standard input is seven two-byte numbers, high byte first, and the
// records of the sites of a project of five years. Six numbers ask for so many rounds: of powers, of powers whose ends are found
// one by one, of logarithms and of exponentials at every argument, of lines, each with its record read, and of records that are only
// read; the seventh is the edition of the records. Prints a sum over all ends of the brackets, and one over all numbers of the lines
// and the kinds of what was only read, so that none is left out.
#![tactic(auto)]

ghost use Rattle.std.specs.Prelude.{◌≤◌, ◌<◌, length};
ghost use Rattle.site.specs.Writing.{Valid};

use bracket::Bracket;
use exponential::exponential_with;
use exponential::stored::Exponentials;
use header::{Header, MOST_SITES};
use input::fill_buffer;
use line::line_with;
use logarithm::logarithm_with;
use logarithm::stored::Logarithms;
use power::power_with;
use power::stored::Powers;
use power_by_ends::power_by_ends_with;
use prediction::tables::{Tables, stored_tables};
use site::rules::LONGEST_RECORD;
use site::values::Site;
use site::words::word_at;
use site_reader::read_site;
use std::io;

const MODULUS: u64 = 4294967296;

// The header of every round: five years, and calibrations in thousandths.
const YEARS: u64 = 5;

const SEGMENTS: u64 = 1100;

const CROSSINGS: u64 = 900;

// The bytes before the records.
const HEAD: usize = 14;

// Where the edition stands.
const EDITION_AT: usize = 12;

// With the longest records of the most sites.
const INPUT_ROOM: usize = HEAD + MOST_SITES * LONGEST_RECORD;

// A sum and a pair, modulo 2^32 each, so that no sum overflows.
fn added(sum: u64, low: u64, high: u64) -> u64 {
    sum % MODULUS + low % MODULUS + high % MODULUS
}

// A power by one walk, or with each end by a walk of its own.
fn power_by(stored: &Powers, base: u64, exponent: u64, by_ends: bool) -> Bracket
    requires { (1 ≤ base) × (base ≤ 20000) × (exponent < 5) }
{
    if by_ends {
        power_by_ends_with(stored, base, exponent)
    } else {
        power_with(stored, base, exponent)
    }
}

// Every base at the exponent of a place.
fn powers_at(stored: &Powers, exponent: u64, by_ends: bool, start: u64) -> u64
    requires { exponent < 5 }
{
    let mut sum = start;
    for base in 1..20001 {
        let b = power_by(stored, base, exponent, by_ends);
        sum = added(sum, b.low_num, b.high_num);
    }
    sum
}

fn powers(stored: &Powers, by_ends: bool, start: u64) -> u64 {
    let first = powers_at(stored, 0, by_ends, start);
    let second = powers_at(stored, 1, by_ends, first);
    let third = powers_at(stored, 2, by_ends, second);
    let fourth = powers_at(stored, 3, by_ends, third);
    powers_at(stored, 4, by_ends, fourth)
}

fn logarithms(stored: &Logarithms, start: u64) -> u64 {
    let mut sum = start;
    for a in 1..20001 {
        let b = logarithm_with(stored, a);
        sum = added(sum, b.low_num, b.high_num);
    }
    sum
}

fn exponentials(stored: &Exponentials, start: u64) -> u64 {
    let mut sum = start;
    for x in 0..140001 {
        let b = exponential_with(stored, x);
        sum = added(sum, b.low_num, b.high_num);
    }
    sum
}

// A site's line, or the kind alone.
fn site_added(tables: &Tables, lines: bool, edition: u64, site: Site, sum: u64) -> u64
    requires { Valid edition 5 site }
{
    if !lines {
        return added(sum, u64::from(site.kind), 0);
    }
    let header = Header {
        edition,
        years: YEARS,
        segments: SEGMENTS,
        crossings: CROSSINGS,
    };
    let line = line_with(tables, header, site);
    let predicted = added(sum, line.predicted_low, line.predicted_high);
    added(predicted, line.expected_low, line.expected_high)
}

// Every record, read and added.
fn records(tables: &Tables, lines: bool, edition: u64, records: &[u8], start: u64) -> u64 {
    let mut sum = start;
    let mut rest = records;
    while let Ok((site, n)) = read_site(edition, YEARS, rest) {
        sum = site_added(tables, lines, edition, site, sum);
        rest = &rest[n..];
    }
    sum
}

// The rounds that a number of the input asks for, each from the sum so far.
fn rounds<F: Fn(u64) -> u64>(input: &[u8], job: usize, start: u64, round: F) -> u64
    requires { (job < 6) × (14 ≤ length input.now) × F.IsAlwaysCallable round }
{
    let mut sum = start;
    for _ in 0..word_at(input, 2 * job) {
        sum = round(sum);
    }
    sum
}

fn print_sum(rt: &impl Print, sum: u64) -> io::Result<()> {
    println!(rt; "{}", sum % MODULUS)
}

fn print_sums(rt: &impl Print, input: &[u8]) -> io::Result<()> {
    if input.len() < HEAD {
        return Ok(());
    }
    let tables = stored_tables();
    let edition = u64::from(word_at(input, EDITION_AT));
    let sites = &input[HEAD..];
    let sum = rounds(input, 0, 0, |sum| powers(&tables.powers, false, sum));
    let sum = rounds(input, 1, sum, |sum| powers(&tables.powers, true, sum));
    let sum = rounds(input, 2, sum, |sum| logarithms(&tables.logarithms, sum));
    let sum = rounds(input, 3, sum, |sum| exponentials(&tables.exponentials, sum));
    print_sum(rt, sum)?;
    let sum = rounds(
        input,
        4,
        0,
        |sum| records(&tables, true, edition, sites, sum),
    );
    print_sum(
        rt,
        rounds(
            input,
            5,
            sum,
            |sum| records(&tables, false, edition, sites, sum),
        ),
    )
}

fn main(rt: HostRuntime) -> io::Result<()> {
    let mut input = [0u8; INPUT_ROOM];
    let n = fill_buffer(&mut rt.stdin(), &mut input)?;
    print_sums(&rt, &input[..n])
}
