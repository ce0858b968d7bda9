// The reader of one site's record.
#![tactic(auto)]

ghost use Rattle.std.specs.Prelude.{◌≡◌, ◌+◌, ◌-◌, ◌*◌, ◌≤◌, ◌<◌, true, cond, ◌&&◌, length, drop, eqb};
ghost use Rattle.site.specs.Rules.{slot_count, later_years, years_known};
ghost use Rattle.site.specs.Kinds.{number_of_kind};
ghost use Rattle.site.specs.Refusals.{answer_by, checked};
ghost use Rattle.site.specs.Answers.{read_answer};
ghost use Rattle.site.specs.Record.{stands, lacked_bit_stands, lacks, needed_bit_absent, misses, curve_bit_stands, curved, rules_read};
ghost use Rattle.site.specs.Record.{field_words, words, value_number, field_number, field_value, fields_number, fields_values, site_of};
ghost use Rattle.site.specs.Record.{yearly_bit, field_map, gathered, later_read, later_allowed};
ghost use Rattle.site.specs.Record.{site_in, length_in, record_number};
ghost use Rattle.site.specs.Yearly.{later_from_slots, later_minor};
ghost use Rattle.site.specs.LaterLaws.{place_after};
ghost use Rattle.site.specs.Accepted.{Parts};
ghost use Rattle.site.specs.Promises.{ReadsSite};

use site::kind::Kind;
use site::refusal::Refusal;
use site::rules::{Entry, LATER_YEARS, Rule, SLOTS};
use site::values::{Later, Site, Slot};
use site::words::{bit_of, count_words, field_words, rest_of, word_at};
use site::{rules, values};

fn does_stand(rule: Rule, map: u16) -> bool
    ensures { result ≡ stands rule map }
{
    bit_of(rule, map) == 1
}

fn lacked_bit_stands(rule: Rule, map: u16) -> bool
    ensures { result ≡ lacked_bit_stands rule map }
{
    rules::is_lacking(rule) && does_stand(rule, map)
}

fn needed_bit_absent(rule: Rule, map: u16) -> bool
    ensures { result ≡ needed_bit_absent rule map }
{
    rules::is_needed(rule) && !does_stand(rule, map)
}

fn curve_bit_stands(entry: Entry, map: u16) -> bool
    ensures { result ≡ curve_bit_stands entry map }
{
    rules::is_on_curve(entry) && does_stand(rules::rule_of(entry), map)
}

// Whether a bit of the curve stands.
fn is_curved(entries: [Entry; SLOTS], map: u16) -> bool
    ensures { result ≡ curved entries map }
{
    let mut rest = map;
    for entry in entries {
        if curve_bit_stands(entry, rest) {
            return true;
        }
        rest = rest_of(rules::rule_of(entry), rest);
    }
    false
}

// Refuses a map with a bit that the kind lacks, else one that misses a needed bit.
fn check_map(rules: [Rule; SLOTS], map: u16) -> Result<(), Refusal>
    ensures { result ≡ checked (cond (lacks rules map) 6 (cond (misses rules map) 7 0)) }
{
    let mut rest = map;
    let mut missing = false;
    for rule in rules {
        if lacked_bit_stands(rule, rest) {
            return Err(Refusal::BitLacked);
        }
        missing |= needed_bit_absent(rule, rest);
        rest = rest_of(rule, rest);
    }
    if 0 < rest {
        return Err(Refusal::BitLacked);
    }
    if missing {
        return Err(Refusal::BitMissing);
    }
    Ok(())
}

// Refuses a value outside its range, then a default that is spelled out.
fn check_value(rule: Rule, value: u16) -> Result<(), Refusal>
    ensures { result ≡ checked (value_number rule value) }
{
    if !rules::does_allow(rule, value) {
        return Err(Refusal::OutsideRange);
    }
    if rules::absent_of(rule) == Some(value) {
        return Err(Refusal::DefaultSpelledOut);
    }
    Ok(())
}

// A field by its bit: its value where it stands, and else what it is read as.
fn read_field(rule: Rule, map: u16, s: &[u8], at: usize) -> Result<Slot, Refusal>
    requires { at + 2 * field_words rule map ≤ length s.now }
    ensures { result ≡ answer_by (field_number rule map (drop at s.now)) (field_value rule map (drop at s.now)) }
{
    if !does_stand(rule, map) {
        return Ok(rules::absent_of(rule));
    }
    let value = word_at(s, at);
    check_value(rule, value)?;
    Ok(Some(value))
}

// Bit 15 of a map, and the map of the fields without it.
fn yearly_bit(map: u16) -> usize
    ensures { (result ≡ yearly_bit map) × (result ≤ 1) }
{
    usize::from(32768 <= map)
}

fn field_map(map: u16) -> u16
    ensures { result ≡ field_map map }
{
    if map < 32768 { map } else { map - 32768 }
}

// Whether so many values from a place on are in the range of a traffic.
fn are_later_allowed(later: usize, s: &[u8], at: usize) -> bool
    requires { at + 2 * later ≤ length s.now }
    ensures { result ≡ later_allowed later (drop at s.now) }
{
    (0..later).all(|i| rules::does_allow(rules::TRAFFIC, word_at(s, at + 2 * i)))
}

// So many later years from a place on; the years after them hold no number.
fn later_at(later: usize, s: &[u8], at: usize) -> Later
    requires { (later ≤ later_years) × (at + 2 * later ≤ length s.now) }
    ensures { result ≡ later_from_slots (later_read later_years later (drop at s.now)) }
{
    let mut slots = [None; LATER_YEARS];
    for i in 0..later {
        slots[i] = Some(word_at(s, at + 2 * i));
    }
    values::later_of(slots)
}

// Where the next number of the fields stands behind the map, after so many: the later values stand behind the first two.
fn place_of(count: usize, later: usize, minor: usize) -> usize
    requires { (count ≤ slot_count) × (later ≤ later_years) × (minor ≤ later_years) }
    ensures { (result ≡ place_after later minor count) × (result ≤ 2 * count + (2 * later + 2 * minor)) }
{
    if count == 0 {
        0
    } else if count == 1 {
        2 + 2 * later
    } else {
        2 * count + 2 * (later + minor)
    }
}

// The fields one by one: the first refusal, or the site of those that stand and of those that do not, with these later years and
// its record's length. s is what follows the map, with the later values behind the traffics.
fn read_values(
    kind: Kind,
    rules: [Rule; SLOTS],
    map: u16,
    s: &[u8],
    later: usize,
    minor: usize,
    traffic: Later,
    minor_traffic: Later,
) -> Result<(Site, usize), Refusal>
    requires later_few { (later ≤ later_years) × (minor ≤ later_years) }
    requires minor_in_bounds { (4 + 2 * later + 2 * minor ≤ length s.now) × (2 * (words rules map + (later + minor)) ≤ length s.now) }
    ensures { result ≡ read_answer (fields_number rules map (gathered later minor s.now))
        (site_of (number_of_kind kind) (fields_values rules map (gathered later minor s.now)) traffic minor_traffic)
        (3 + 2 * (words rules map + (later + minor))) }
{
    let mut slots = [None; SLOTS];
    let mut rest = map;
    let mut count = 0;
    for (i, &rule) in rules.iter().enumerate() {
        let place = place_of(count, later, minor);
        slots[i] = read_field(rule, rest, s, place)?;
        count += field_words(rule, rest);
        rest = rest_of(rule, rest);
    }
    Ok((
        values::site_of(u8::from(kind), slots, traffic, minor_traffic),
        3 + 2 * (count + (later + minor)),
    ))
}

// A record whose map is right and whose fields are all there: the later values are tried, then the fields one by one.
fn read_present(
    kind: Kind,
    rules: [Rule; SLOTS],
    map: u16,
    part: &[u8],
    later: usize,
) -> Result<(Site, usize), Refusal>
    requires later_few { later ≤ later_years }
    requires later_in_bounds { (7 + 2 * later + 2 * later_minor (number_of_kind kind) later ≤ length part.now) × (3 + 2 * (words rules map + (later + later_minor (number_of_kind kind) later)) ≤ length part.now) }
    ensures { result ≡ read_answer
        (cond (later_allowed later (drop 5 part.now) && later_allowed (later_minor (number_of_kind kind) later) (drop (7 + 2 * later) part.now))
        (fields_number rules map (gathered later (later_minor (number_of_kind kind) later) (drop 3 part.now))) 8)
        (site_of (number_of_kind kind) (fields_values rules map (gathered later (later_minor (number_of_kind kind) later) (drop 3 part.now)))
        (later_from_slots (later_read later_years later (drop 5 part.now)))
        (later_from_slots (later_read later_years (later_minor (number_of_kind kind) later) (drop (7 + 2 * later) part.now))))
        (3 + 2 * (words rules map + (later + later_minor (number_of_kind kind) later))) }
{
    let minor = values::minor_later(u8::from(kind), later);
    let behind = 7 + 2 * later;
    if !are_later_allowed(later, part, 5) || !are_later_allowed(minor, part, behind) {
        return Err(Refusal::OutsideRange);
    }
    let traffic = later_at(later, part, 5);
    let minor_traffic = later_at(minor, part, behind);
    read_values(
        kind,
        rules,
        map,
        &part[3..],
        later,
        minor,
        traffic,
        minor_traffic,
    )
}

// Whether later values are told of in a project of one year.
fn is_yearly_in_one(years: u64, yearly: usize) -> bool
    ensures { result ≡ (eqb yearly 1 && eqb years 1) }
{
    yearly == 1 && years == 1
}

// How many later values follow the traffic.
fn later_in(years: u64, yearly: usize) -> usize
    requires { (years_known years ≡ true) × (yearly ≤ 1) }
    ensures { (result ≡ yearly * (years - 1)) × (result ≤ later_years) }
{
    if yearly == 0 { 0 } else { years as usize - 1 }
}

// The rules by which a kind and a map are read in an edition.
fn rules_read(edition: u64, kind: Kind, map: u16) -> [Rule; SLOTS]
    ensures { result ≡ rules_read edition (number_of_kind kind) map }
{
    let entries = rules::entries_of(edition, kind);
    rules::settle_rules(is_curved(entries, map), entries)
}

// A record whose kind and map are there, by the rules that they choose.
fn read_record(
    edition: u64,
    years: u64,
    kind: Kind,
    map: u16,
    yearly: usize,
    part: &[u8],
) -> Result<(Site, usize), Refusal>
    requires { (years_known years ≡ true) × (yearly ≤ 1) × Parts part.now (number_of_kind kind) map yearly }
    ensures { result ≡ read_answer (record_number edition years part.now) (site_in edition years part.now)
        (length_in edition years part.now) }
{
    let rules = rules_read(edition, kind, map);
    check_map(rules, map)?;
    if is_yearly_in_one(years, yearly) {
        return Err(Refusal::BitMissing);
    }
    let later = later_in(years, yearly);
    let minor = values::minor_later(u8::from(kind), later);
    if part.len() < 3 + 2 * (count_words(rules, map) + (later + minor)) {
        return Err(Refusal::TooShort);
    }
    read_present(kind, rules, map, part, later)
}

// The record that a part starts with, in a project of an edition and of so many years: its site and its length, or why it is
// refused.
pub fn read_site(edition: u64, years: u64, part: &[u8]) -> Result<(Site, usize), Refusal>
    ensures { ReadsSite edition years part.now result }
{
    rules::check_project(edition, years)?;
    if part.len() < 3 {
        return Err(Refusal::TooShort);
    }
    let kind = Kind::try_from(part[0])?;
    let whole = word_at(part, 1);
    read_record(
        edition,
        years,
        kind,
        field_map(whole),
        yearly_bit(whole),
        part,
    )
}
