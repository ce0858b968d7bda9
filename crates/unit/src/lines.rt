// The line of a site for programs in other languages, left in a lent run of numbers.
ghost use Rattle.header.specs.Header.{header_of};
ghost use Rattle.unit.specs.LineNumbers.{LinesNumbers};

use crate::lent::lend_four;
use crate::sites::site_from;
use header::Header;
use line::{LineRefusal, line_of};

// The line of a site in an edition, over years and calibrations: 0, with predicted low, predicted high, expected low and expected
// high, whole numbers of millionths, in line[0] to line[3] and the rest of line as it was; or 3 where there is no such edition, then
// 4 where years or a calibration is outside its limits, then 8 where the site is outside its range, then 10 where line has fewer than
// four numbers, and line as it was. The site is the first 39 numbers of values, as crash_site_write takes it, and what follows them
// bears on nothing.
pub fn crash_line(
    edition: u64,
    years: u64,
    segments: u64,
    crossings: u64,
    values: &[u64],
    line: &mut [u64],
) -> u64
    ensures { LinesNumbers (header_of edition years segments crossings) values.now line.old line.new result }
{
    let header = Header {
        edition,
        years,
        segments,
        crossings,
    };
    match line_of(header, site_from(values)) {
        Err(LineRefusal::EditionUnknown) => 3,
        Err(LineRefusal::OutsideLimits) => 4,
        Err(LineRefusal::OutsideRange) => 8,
        Ok(made) => lend_four(
            made.predicted_low,
            made.predicted_high,
            made.expected_low,
            made.expected_high,
            line,
        ),
    }
}
