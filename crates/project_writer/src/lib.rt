// The writer of a whole project file from a lent list of sites.
#![tactic(auto)]

pub mod course;

ghost use Rattle.std.specs.Prelude.{◌≡◌, length};
ghost use Rattle.header.specs.Header.{header_of};
ghost use Rattle.project_writer.specs.Course.{walk_course, walk_buffer, Walks};
ghost use Rattle.project_writer.specs.Promise.{WritesProject};

use crate::course::{Course, FileRefusal, answer_of, begin_writing, step};
use header::{HEADER_LENGTH, Header, does_admit};
use site::rules::is_edition_known;
use site::values::Site;

// The one walk over the sites: each is taken out, and the course goes on with it.
fn walk(edition: u64, years: u64, sites: &[Site], buffer: &mut [u8], start: Course) -> Course
    requires { Walks edition years sites.now start (length buffer.old) }
    ensures { (result ≡ walk_course edition years sites.now start) × (buffer.new ≡ walk_buffer edition years sites.now start buffer.old) }
{
    let mut course = start;
    for &site in sites {
        course = step(edition, years, site, buffer, course);
    }
    course
}

// Writes the project file of a header's values and a list of sites from the start of the buffer: the count of its bytes. The
// rest of the buffer, and all of it where the file is refused, stays as it was.
pub fn write_project(
    edition: u64,
    years: u64,
    segments: u64,
    crossings: u64,
    sites: &[Site],
    buffer: &mut [u8],
) -> Result<usize, FileRefusal>
    ensures { WritesProject (header_of edition years segments crossings) sites.now buffer.old buffer.new result }
{
    let header = Header {
        edition,
        years,
        segments,
        crossings,
    };
    if !is_edition_known(edition) {
        return Err(FileRefusal::EditionUnknown);
    }
    if !does_admit(header, sites.len()) {
        return Err(FileRefusal::OutsideLimits);
    }
    let measured = walk(
        edition,
        years,
        sites,
        buffer,
        Course::Measured(0, HEADER_LENGTH),
    );
    let begun = begin_writing(header, sites.len(), buffer, measured);
    answer_of(walk(edition, years, sites, buffer, begun))
}
