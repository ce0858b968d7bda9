// The project writer for programs in other languages. The sites are one run of numbers, each site's 39 behind the last's, as
// crash_site_write takes them.
ghost use Rattle.std.specs.Prelude.{◌≡◌, length};
ghost use Rattle.header.specs.Header.{header_of};
ghost use Rattle.project_writer.specs.Course.{walk_course, walk_buffer, Walks};
ghost use Rattle.project_writer.specs.Promise.{WritesProject};
ghost use Rattle.unit.specs.FileNumbers.{site_count, sites_given, WritesFile};

use crate::sites::{SITE_NUMBERS, site_from};
use header::{HEADER_LENGTH, Header, does_admit};
use project_writer::course::{Course, FileRefusal, answer_of, begin_writing, step};
use site::rules::is_edition_known;

// A site for each 39 numbers, and one for a rest of fewer.
fn count_sites(numbers: usize) -> usize
    ensures { result ≡ site_count numbers }
{
    numbers.div_ceil(SITE_NUMBERS)
}

// The one walk over the sites of a project of an edition and of so many years: each is taken out of the numbers, and the course goes
// on with it.
fn walk_numbers(
    edition: u64,
    years: u64,
    numbers: &[u64],
    buffer: &mut [u8],
    start: Course,
) -> Course
    requires { Walks edition years (sites_given numbers.now) start (length buffer.old) }
    ensures value { result ≡ walk_course edition years (sites_given numbers.now) start }
    ensures buffer_after { buffer.new ≡ walk_buffer edition years (sites_given numbers.now) start buffer.old }
{
    let mut course = start;
    for site in numbers.chunks(SITE_NUMBERS) {
        course = step(edition, years, site_from(site), buffer, course);
    }
    course
}

// The edition, header limits, each site, then the space; then the file is written.
fn write_numbers(header: Header, numbers: &[u64], buffer: &mut [u8]) -> Result<usize, FileRefusal>
    ensures { WritesProject header (sites_given numbers.now) buffer.old buffer.new result }
{
    let edition = header.edition;
    let years = header.years;
    let sites = count_sites(numbers.len());
    if !is_edition_known(edition) {
        return Err(FileRefusal::EditionUnknown);
    }
    if !does_admit(header, sites) {
        return Err(FileRefusal::OutsideLimits);
    }
    let measured = walk_numbers(
        edition,
        years,
        numbers,
        buffer,
        Course::Measured(0, HEADER_LENGTH),
    );
    let begun = begin_writing(header, sites, buffer, measured);
    answer_of(walk_numbers(edition, years, numbers, buffer, begun))
}

// Writes the project file of a header's values and a run of sites from the start of the buffer: 0, with the count of its bytes
// in value and the rest of the buffer as it was; or 3 where there is no such edition, then 4 where years, a calibration or the count
// of sites is outside its limits, then 8 where a site is outside its range, with the index of the first such site in value, then 10
// where the buffer is shorter than the file, and the buffer as it was. With 3, 4 and 10 value is 0. A site is 39 numbers of sites, as
// crash_site_write takes it, and a rest of fewer is a site outside its range.
pub fn crash_project_write(
    edition: u64,
    years: u64,
    segments: u64,
    crossings: u64,
    sites: &[u64],
    buffer: &mut [u8],
    value: &mut u64,
) -> u64
    ensures { WritesFile (header_of edition years segments crossings) sites.now buffer.old buffer.new value.new result }
{
    let header = Header {
        edition,
        years,
        segments,
        crossings,
    };
    match write_numbers(header, sites, buffer) {
        Ok(n) => {
            *value = n as u64;
            0
        }
        Err(FileRefusal::EditionUnknown) => {
            *value = 0;
            3
        }
        Err(FileRefusal::OutsideLimits) => {
            *value = 0;
            4
        }
        Err(FileRefusal::OutsideRange(index)) => {
            *value = index as u64;
            8
        }
        Err(FileRefusal::TooShort) => {
            *value = 0;
            10
        }
    }
}
