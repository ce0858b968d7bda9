// The header of a project file: what it says of every site, the count of sites, their limits, and the first cause to refuse it.
#![tactic(auto)]

ghost use Rattle.std.specs.Prelude.{◌≡◌, ◌≤◌, true, length};
ghost use Rattle.std.proofs.lemmas.List.Edits.{sets};
ghost use Rattle.site.specs.Rules.{edition_known};
ghost use Rattle.site.specs.Refusals.{checked};
ghost use Rattle.header.specs.Header.{header_length, header_in, count_in, in_limits, admits, header_bytes, header_number};

use site::refusal::Refusal;
use site::rules::{are_years_known, is_edition_known};
use site::words::{put_word, word_at};

// What holds for every site: the edition, the years, and the calibrations in thousandths.
#[derive(Clone, Copy)]
pub struct Header {
    pub edition: u64,
    pub years: u64,
    pub segments: u64,
    pub crossings: u64,
}

pub const HEADER_LENGTH: usize = 8;

const MOST_CALIBRATION: u64 = 9999;

pub const MOST_SITES: usize = 1200;

// The edition, years and calibrations of a file that is long enough for a header.
pub fn header_in(file: &[u8]) -> Header
    requires { header_length ≤ length file.now }
    ensures { result ≡ header_in file.now }
{
    Header {
        edition: u64::from(file[0]),
        years: u64::from(file[1]),
        segments: u64::from(word_at(file, 2)),
        crossings: u64::from(word_at(file, 4)),
    }
}

// The count of sites of such a file.
pub fn count_in(file: &[u8]) -> usize
    requires { header_length ≤ length file.now }
    ensures { result ≡ count_in file.now }
{
    usize::from(word_at(file, 6))
}

// Whether years and calibrations are within their limits.
#[tactic(auto, unfolding(crate::specs::Header::in_limits))]
pub fn is_in_limits(header: Header) -> bool
    ensures { result ≡ in_limits header }
{
    are_years_known(header.years)
        && (1..=MOST_CALIBRATION).contains(&header.segments)
        && (1..=MOST_CALIBRATION).contains(&header.crossings)
}

// Whether years, calibrations and the count of sites are within their limits.
pub fn does_admit(header: Header, sites: usize) -> bool
    ensures { result ≡ admits header sites }
{
    is_in_limits(header) && sites <= MOST_SITES
}

// Writes a header of a known edition, within its limits, at the start of a buffer that has space for it.
pub fn put_header(header: Header, sites: usize, buffer: &mut [u8])
    requires { (edition_known header.edition ≡ true) × (admits header sites ≡ true) × (header_length ≤ length buffer.old) }
    ensures { buffer.new ≡ sets buffer.old 0 (header_bytes header sites) }
{
    buffer[0] = header.edition as u8;
    buffer[1] = header.years as u8;
    put_word(header.segments as u16, buffer, 2);
    put_word(header.crossings as u16, buffer, 4);
    put_word(sites as u16, buffer, 6);
}

// The header's refusal: a file too short for one, an edition that is not known, or a value outside its limits.
#[tactic(auto, unfolding(crate::specs::Header::header_number))]
pub fn check_header(file: &[u8]) -> Result<(), Refusal>
    ensures { result ≡ checked (header_number file.now) }
{
    if file.len() < HEADER_LENGTH {
        return Err(Refusal::TooShort);
    }
    let header = header_in(file);
    if !is_edition_known(header.edition) {
        return Err(Refusal::EditionUnknown);
    }
    if !does_admit(header, count_in(file)) {
        return Err(Refusal::OutsideLimits);
    }
    Ok(())
}
