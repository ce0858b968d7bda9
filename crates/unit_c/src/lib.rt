// The calls that C and Rust link. Each hands its arguments on to the function of `unit` that has its name, and promises the same.
// Numbers and lent runs of numbers alone cross, and no call has a precondition.
#![tactic(auto)]

ghost use Rattle.power.specs.Power.{power_answer};
ghost use Rattle.logarithm.specs.Logarithm.{logarithm_answer};
ghost use Rattle.exponential.specs.Exponential.{exponential_answer, exponential_negative_answer};
ghost use Rattle.header.specs.Header.{header_of};
ghost use Rattle.unit.specs.FileNumbers.{WritesFile};
ghost use Rattle.unit.specs.Lent.{Lends};
ghost use Rattle.unit.specs.LineNumbers.{LinesNumbers};
ghost use Rattle.unit.specs.ProjectNumbers.{ReadsProject};
ghost use Rattle.unit.specs.SiteNumbers.{ReadsNumbers, WritesNumbers};

use unit::{brackets, lines, projects, sites, writing};

// Reads a project file and makes its report.
#[unsafe(no_mangle)]
pub extern "C" fn crash_project(file: &[u8], report: &mut [u64], value: &mut u64) -> u64
    ensures { ReadsProject file.now report.old report.new value.new result }
{
    projects::crash_project(file, report, value)
}

// Reads the record that a part starts with.
#[unsafe(no_mangle)]
pub extern "C" fn crash_site_read(edition: u64, years: u64, part: &[u8], values: &mut [u64]) -> u64
    ensures { ReadsNumbers edition years part.now values.old values.new result }
{
    sites::crash_site_read(edition, years, part, values)
}

// Writes a site's record.
#[unsafe(no_mangle)]
pub extern "C" fn crash_site_write(
    edition: u64,
    years: u64,
    values: &[u64],
    buffer: &mut [u8],
    written: &mut u64,
) -> u64
    ensures { WritesNumbers edition years values.now buffer.old buffer.new written.old written.new result }
{
    sites::crash_site_write(edition, years, values, buffer, written)
}

// Writes the project file of a header's values and a run of sites.
#[unsafe(no_mangle)]
pub extern "C" fn crash_project_write(
    edition: u64,
    years: u64,
    segments: u64,
    crossings: u64,
    sites: &[u64],
    buffer: &mut [u8],
    value: &mut u64,
) -> u64
    ensures { WritesFile (header_of edition years segments crossings) sites.now buffer.old buffer.new value.new result }
{
    writing::crash_project_write(edition, years, segments, crossings, sites, buffer, value)
}

// The line of a site.
#[unsafe(no_mangle)]
pub extern "C" fn crash_line(
    edition: u64,
    years: u64,
    segments: u64,
    crossings: u64,
    values: &[u64],
    line: &mut [u64],
) -> u64
    ensures { LinesNumbers (header_of edition years segments crossings) values.now line.old line.new result }
{
    lines::crash_line(edition, years, segments, crossings, values, line)
}

// base^(num / den).
#[unsafe(no_mangle)]
pub extern "C" fn crash_power(base: u64, num: u64, den: u64, ends: &mut [u64]) -> u64
    ensures { Lends (power_answer base num den) ends.old ends.new result }
{
    brackets::crash_power(base, num, den, ends)
}

// ln argument.
#[unsafe(no_mangle)]
pub extern "C" fn crash_logarithm(argument: u64, ends: &mut [u64]) -> u64
    ensures { Lends (logarithm_answer argument) ends.old ends.new result }
{
    brackets::crash_logarithm(argument, ends)
}

// e^x, x in ten-thousandths.
#[unsafe(no_mangle)]
pub extern "C" fn crash_exponential(x: u64, ends: &mut [u64]) -> u64
    ensures { Lends (exponential_answer x) ends.old ends.new result }
{
    brackets::crash_exponential(x, ends)
}

// e^(-x), x in ten-thousandths.
#[unsafe(no_mangle)]
pub extern "C" fn crash_exponential_negative(x: u64, ends: &mut [u64]) -> u64
    ensures { Lends (exponential_negative_answer x) ends.old ends.new result }
{
    brackets::crash_exponential_negative(x, ends)
}
