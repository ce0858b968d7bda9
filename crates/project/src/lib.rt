// The project file: the scan that finds the first cause to refuse it, from the bytes alone.
#![tactic(auto)]

ghost use Rattle.std.specs.Prelude.{◌≡◌, ◌≤◌, length};
ghost use Rattle.header.specs.Header.{header_length};
ghost use Rattle.project.specs.File.{scan_records};
ghost use Rattle.project.specs.Promise.{ScansFile};

use header::{HEADER_LENGTH, check_header, count_in, header_in};
use site::refusal::Refusal;
use site_reader::read_site;

// Why a project is refused, and the place of it: a byte of the file, or 0.
#[derive(Clone, Copy)]
pub struct Refused {
    pub refusal: Refusal,
    pub place: usize,
}

// What the header is refused for has place 0.
impl From<Refusal> for Refused {
    ghost from_gives = { λ refusal refused. refused ≡ record { refusal = refusal; place = 0 } };

    fn from(refusal: Refusal) -> Refused {
        Refused { refusal, place: 0 }
    }
}

// The records in turn, each by the part that starts at its kind byte, in a project of an edition and of so many years, then the
// bytes after the last.
fn scan_records(file: &[u8], edition: u64, years: u64, sites: usize) -> Result<usize, Refused>
    requires { header_length ≤ length file.now }
    ensures { result ≡ scan_records edition years sites sites header_length file.now }
{
    let mut at = HEADER_LENGTH;
    for _ in 0..sites {
        match read_site(edition, years, &file[at..]) {
            Ok((_, n)) => at += n,
            Err(refusal) => return Err(Refused { refusal, place: at }),
        }
    }
    if at < file.len() {
        return Err(Refused {
            refusal: Refusal::BytesAfter,
            place: at,
        });
    }
    Ok(sites)
}

// The first cause to refuse a file that its bytes show, and its place, or the count of its sites.
pub fn scan(file: &[u8]) -> Result<usize, Refused>
    ensures { ScansFile file.now result }
{
    check_header(file)?;
    let header = header_in(file);
    scan_records(file, header.edition, header.years, count_in(file))
}
