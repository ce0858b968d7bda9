// The site reader and the site writer for programs in other languages. A site is a run of 39 numbers: the kind, then its twenty
// slots in the order of the struct, nine for the later years of its traffic and nine for those of its minor traffic, an absent one
// coded as 65,536. The reader leaves the record's length after them; the calls that take a site read the first 39 numbers, so that
// a run is handed on as it was left.
ghost use Rattle.std.specs.Prelude.{◌≡◌, ◌+◌, ◌≤◌, map, length, Ok};
ghost use Rattle.std.proofs.lemmas.List.Edits.{sets};
ghost use Rattle.unit.specs.SiteNumbers.{all_slots, all_count, code, read_values, slot_from, kind_from, site_from, site_numbers, answer_numbers};
ghost use Rattle.unit.specs.SiteNumbers.{ReadsNumbers, WritesNumbers};

use crate::slots::{ALL_SLOTS, site_of_all};
use site::rules::{LATER_YEARS, SLOTS};
use site::values;
use site::values::{Site, Slot};
use std::array;

const ABSENT: u64 = 65536;

pub(crate) const SITE_NUMBERS: usize = ALL_SLOTS + 1;

const ANSWER_NUMBERS: usize = ALL_SLOTS + 2;

fn code_of(slot: Slot) -> u64
    ensures { result ≡ code slot }
{
    slot.map_or(ABSENT, u64::from)
}

// Stores the codes of a run of slots from a place on.
fn put_codes(slots: &[Slot], values: &mut [u64], at: usize)
    requires { at + length slots.now ≤ length values.old }
    ensures { values.new ≡ sets values.old at (map code slots.now) }
{
    for (i, &slot) in slots.iter().enumerate() {
        values[at + i] = code_of(slot);
    }
}

// Stores the codes of all the slots after the kind.
fn put_slots(site: Site, values: &mut [u64])
    requires { site_numbers ≤ length values.old }
    ensures { values.new ≡ sets values.old 1 (map code (all_slots site)) }
{
    let slots = values::slots_of(site);
    let traffic = values::later_slots(site.later_traffic);
    let minor = values::later_slots(site.later_minor);
    put_codes(&slots, values, 1);
    put_codes(&traffic, values, 1 + SLOTS);
    put_codes(&minor, values, 1 + SLOTS + LATER_YEARS);
}

// Stores the kind, the slots and the record's length.
fn put_site(site: Site, n: usize, values: &mut [u64])
    requires { answer_numbers ≤ length values.old }
    ensures { values.new ≡ sets values.old 0 (read_values (Ok (site, n))) }
{
    values[0] = u64::from(site.kind);
    put_slots(site, values);
    values[SITE_NUMBERS] = n as u64;
}

// Reads the record that a part starts with, in a project of an edition and of so many years: 0, with the site in values[0] to
// values[38], the record's length in values[39] and the rest of values as it was; or 3 where there is no such edition, then 4 where
// years is outside its limits, or 1 or 5 to 9, then 10 where values has fewer than 40 numbers, and values as it was.
pub fn crash_site_read(edition: u64, years: u64, part: &[u8], values: &mut [u64]) -> u64
    ensures { ReadsNumbers edition years part.now values.old values.new result }
{
    match site_reader::read_site(edition, years, part) {
        Err(refusal) => u64::from(refusal),
        Ok((site, n)) => {
            if values.len() < ANSWER_NUMBERS {
                return 10;
            }
            put_site(site, n, values);
            0
        }
    }
}

// A number that is no code is taken for 65,535, which no rule allows.
fn slot_from(number: u64) -> Slot
    ensures { result ≡ slot_from number }
{
    if number < ABSENT {
        Some(number as u16)
    } else if number == ABSENT {
        None
    } else {
        Some(65535)
    }
}

const NO_KIND: u8 = 255;

// A number that is no byte is taken for 255, which is no kind.
fn kind_from(number: u64) -> u8
    ensures { result ≡ kind_from number }
{
    u8::try_from(number).unwrap_or(NO_KIND)
}

fn slots_from(numbers: &[u64]) -> [Slot; ALL_SLOTS]
    requires { length numbers.now ≡ all_count }
    ensures { result ≡ map slot_from numbers.now }
{
    array::from_fn(|i| slot_from(numbers[i]))
}

// The site of the first 39 numbers; fewer are taken for a site of the kind 255.
pub fn site_from(values: &[u64]) -> Site
    ensures { result ≡ site_from values.now }
{
    if values.len() < SITE_NUMBERS {
        return site_of_all(NO_KIND, [None; ALL_SLOTS]);
    }
    let kind = kind_from(values[0]);
    site_of_all(kind, slots_from(&values[1..SITE_NUMBERS]))
}

// Writes the record of a site from the start of the buffer, in a project of an edition and of so many years: 0, with the record's
// length in written and the rest of the buffer as it was; or 3 where there is no such edition, then 4 where years is outside its
// limits, then 8 where the site is outside its range, then 10 where the buffer is shorter than the record, and buffer and written as
// they were. The site is the first 39 numbers of values, and what follows them bears on nothing; fewer numbers, a kind above 255 or a
// slot above 65,536 are outside their range: 8.
pub fn crash_site_write(
    edition: u64,
    years: u64,
    values: &[u64],
    buffer: &mut [u8],
    written: &mut u64,
) -> u64
    ensures { WritesNumbers edition years values.now buffer.old buffer.new written.old written.new result }
{
    match site_writer::write_site(edition, years, site_from(values), buffer) {
        Err(refusal) => u64::from(refusal), // written as it was
        Ok(n) => {
            *written = n as u64;
            0
        }
    }
}
