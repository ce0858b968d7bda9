// The course of a walk over the sites: the file is measured, then written, and each site is one step of either.
ghost use Rattle.std.specs.Prelude.{◌≡◌, [], ◌∷◌, length};
ghost use Rattle.project_writer.specs.Course.{step_course, step_buffer, begun_course, begun_buffer, course_answer, Walks, Begins};

use header::{HEADER_LENGTH, Header, put_header};
use site::values::Site;
use site_writer::{measure_site, put_record};

// Why nothing is written: an edition that is not known, a header value or the count of sites outside its limits, the index of the
// first site outside its range, or a buffer shorter than the file.
#[derive(Clone, Copy, PartialEq, Eq)]
pub enum FileRefusal {
    EditionUnknown,
    OutsideLimits,
    OutsideRange(usize),
    TooShort,
}

// How far a walk has come: the sites that are measured and the length of the file so far; the place after what is written;
// or the answer that it stopped with.
#[derive(Clone, Copy)]
pub enum Course {
    Measured(usize, usize),
    Placed(usize),
    Stopped(Result<usize, FileRefusal>),
}

// One site more of a project of an edition and of so many years: its record is measured, or written at the place reached.
pub fn step(edition: u64, years: u64, site: Site, buffer: &mut [u8], course: Course) -> Course
    requires { Walks edition years (site ∷ []) course (length buffer.old) }
    ensures { (result ≡ step_course edition years site course) × (buffer.new ≡ step_buffer edition site course buffer.old) }
{
    match course {
        Course::Stopped(answer) => Course::Stopped(answer),
        Course::Measured(sites, n) => {
            let measure = measure_site(edition, years, site);
            match measure {
                None => Course::Stopped(Err(FileRefusal::OutsideRange(sites))),
                Some(more) => Course::Measured(sites + 1, n + more),
            }
        }
        Course::Placed(at) => {
            let n = put_record(edition, years, site, &mut buffer[at..]);
            Course::Placed(at + n)
        }
    }
}

// The space test of a file that is measured, and its header written where there is space.
pub fn begin_writing(header: Header, sites: usize, buffer: &mut [u8], course: Course) -> Course
    requires { Begins header sites course }
    ensures { (result ≡ begun_course course (length buffer.old)) × (buffer.new ≡ begun_buffer header sites course buffer.old) }
{
    match course {
        Course::Stopped(answer) => Course::Stopped(answer),
        Course::Placed(at) => Course::Placed(at),
        Course::Measured(_, n) => {
            if buffer.len() < n {
                return Course::Stopped(Err(FileRefusal::TooShort));
            }
            put_header(header, sites, buffer);
            Course::Placed(HEADER_LENGTH)
        }
    }
}

// The answer at the end of the course. A file that was measured and not written lacked the space.
pub fn answer_of(course: Course) -> Result<usize, FileRefusal>
    ensures { result ≡ course_answer course }
{
    match course {
        Course::Stopped(answer) => answer,
        Course::Placed(n) => Ok(n),
        Course::Measured(_, _) => Err(FileRefusal::TooShort),
    }
}
