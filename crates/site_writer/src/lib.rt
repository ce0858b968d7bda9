// The writer of one site's record.
#![tactic(auto)]

ghost use Rattle.std.specs.Prelude.{◌≡◌, ◌+◌, ◌*◌, ◌≤◌, ◌<◌, length, drop, true, cond, ◌&&◌, not, ◌∷◌, Some, None};
ghost use Rattle.std.proofs.lemmas.List.Edits.{sets};
ghost use Rattle.site.specs.Kinds.{number_of_kind};
ghost use Rattle.site.specs.Rules.{later_years, years_known, traffic, bits, on_curve, absent};
ghost use Rattle.site.specs.Yearly.{later_given};
ghost use Rattle.laws.specs.Stores.{Puts};
ghost use Rattle.site.specs.Writing.{curve_held, rules_held, fits, all_fit, slot_bit, map_of, two_bytes, slot_bytes, field_bytes, bytes_of};
ghost use Rattle.site.specs.Writing.{later_bytes, spread_bytes, record_of, later_fits, later_sound, sound, Valid};
ghost use Rattle.site.specs.Tested.{bit_count};
ghost use Rattle.site.specs.Promises.{MeasuresSite, WritesSite};

use site::kind::Kind;
use site::refusal::Refusal;
use site::rules::{Entry, LATER_YEARS, Rule, SLOTS};
use site::values::{Site, Slot};
use site::words::put_word;
use site::{rules, values};

fn is_held(entry: Entry, slot: Slot) -> bool
    ensures { result ≡ (on_curve entry && not (absent slot)) }
{
    rules::is_on_curve(entry) && slot.is_some()
}

// Whether a slot of the curve holds a number.
fn holds_curve(entries: [Entry; SLOTS], slots: [Slot; SLOTS]) -> bool
    ensures { result ≡ curve_held entries slots }
{
    entries
        .iter()
        .zip(slots.iter())
        .any(|(entry, slot)| is_held(*entry, *slot))
}

// The rules by which a site is written in an edition.
fn rules_held(edition: u64, kind: Kind, slots: [Slot; SLOTS]) -> [Rule; SLOTS]
    ensures { result ≡ rules_held edition (number_of_kind kind) slots }
{
    let entries = rules::entries_of(edition, kind);
    rules::settle_rules(holds_curve(entries, slots), entries)
}

// Whether a slot is within its rule.
fn does_fit(rule: Rule, slot: Slot) -> bool
    ensures { result ≡ fits rule slot }
{
    match slot {
        None => !rules::is_needed(rule) && rules::absent_of(rule).is_none(),
        Some(value) => rules::does_allow(rule, value),
    }
}

// The bit of a slot: 0 where it is absent or its rule's default.
fn slot_bit(rule: Rule, slot: Slot) -> u16
    ensures { result ≡ slot_bit rule slot }
{
    match slot {
        Some(value) if rules::absent_of(rule) != Some(value) => rules::bits_of(rule),
        _ => 0,
    }
}

// The bit of a slot before the bits of the slots after it.
fn map_with(rule: Rule, slot: Slot, later: u16) -> u16
    requires { later < 32768 }
    ensures { result ≡ slot_bit rule slot + (1 + bits rule) * later }
{
    slot_bit(rule, slot) + (1 + rules::bits_of(rule)) * later
}

fn map_of(rules: [Rule; SLOTS], slots: [Slot; SLOTS]) -> u16
    requires { bit_count rules ≤ 15 }
    ensures { result ≡ map_of rules slots }
{
    let mut map = 0;
    for i in (0..SLOTS).rev() {
        map = map_with(rules[i], slots[i], map);
    }
    map
}

// Writes a slot's number at a place, where it holds one, and answers the place after it.
fn put_slot(slot: Slot, buffer: &mut [u8], at: usize) -> usize
    requires { at + length (slot_bytes slot) ≤ length buffer.old }
    ensures { Puts buffer.old at (slot_bytes slot) result buffer.new }
{
    match slot {
        None => at,
        Some(value) => {
            put_word(value, buffer, at);
            at + 2
        }
    }
}

// Writes a field at a place, where its bit stands, and answers the place after it.
fn put_field(rule: Rule, slot: Slot, buffer: &mut [u8], at: usize) -> usize
    requires { at + length (field_bytes rule slot) ≤ length buffer.old }
    ensures { Puts buffer.old at (field_bytes rule slot) result buffer.new }
{
    if slot_bit(rule, slot) == 1 {
        put_slot(slot, buffer, at)
    } else {
        at
    }
}

// Writes the later values of a traffic at a place, and answers the place after them. A year that is not given takes no bytes.
fn put_later(slots: &[Slot], buffer: &mut [u8], at: usize) -> usize
    requires { at + length (later_bytes slots.now) ≤ length buffer.old }
    ensures { Puts buffer.old at (later_bytes slots.now) result buffer.new }
{
    let mut place = at;
    for &slot in slots {
        place = put_slot(slot, buffer, place);
    }
    place
}

// Writes the fields of the slots after the minor traffic at a place, in rising order, and answers the place after them.
fn put_fields(rules: [Rule; SLOTS], slots: [Slot; SLOTS], buffer: &mut [u8], at: usize) -> usize
    requires { at + length (bytes_of (drop 3 rules) (drop 3 slots)) ≤ length buffer.old }
    ensures { Puts buffer.old at (bytes_of (drop 3 rules) (drop 3 slots)) result buffer.new }
{
    let mut place = at;
    for (rule, slot) in rules[3..].iter().zip(slots[3..].iter()) {
        place = put_field(*rule, *slot, buffer, place);
    }
    place
}

// Writes all fields after the kind and the map, with the later values behind their traffics, and answers the place after them.
fn put_spread(
    rules: [Rule; SLOTS],
    slots: [Slot; SLOTS],
    traffic: [Slot; LATER_YEARS],
    minor: [Slot; LATER_YEARS],
    buffer: &mut [u8],
) -> usize
    requires { 3 + length (spread_bytes rules slots (later_bytes traffic) (later_bytes minor)) ≤ length buffer.old }
    ensures { Puts buffer.old 3 (spread_bytes rules slots (later_bytes traffic) (later_bytes minor)) result buffer.new }
{
    let after_traffic = put_field(rules[0], slots[0], buffer, 3);
    let after_later = put_later(&traffic, buffer, after_traffic);
    let after_length = put_field(rules[1], slots[1], buffer, after_later);
    let after_minor = put_field(rules[2], slots[2], buffer, after_length);
    let after_later_minor = put_later(&minor, buffer, after_minor);
    put_fields(rules, slots, buffer, after_later_minor)
}

// How many bytes a slot takes in the record.
fn field_length(rule: Rule, slot: Slot) -> usize
    ensures { (result ≡ length (field_bytes rule slot)) × (result ≤ 2) }
{
    2 * usize::from(slot_bit(rule, slot))
}

// The length of the record with so many bytes more for later values, where every slot is within its rule.
fn measure_slots(rules: [Rule; SLOTS], slots: [Slot; SLOTS], more: usize) -> Option<usize>
    requires { more ≤ 4 * later_years }
    ensures { result ≡ cond (all_fit rules slots) (Some (3 + more + length (bytes_of rules slots))) None }
{
    let mut n = 3 + more;
    for (rule, slot) in rules.iter().zip(slots.iter()) {
        if !does_fit(*rule, *slot) {
            return None;
        }
        n += field_length(*rule, *slot);
    }
    Some(n)
}

// Whether a later year's slot is right: a traffic within its range where the year is given, and no number where it is not.
fn is_later_right(given: bool, slot: Slot) -> bool
    ensures { result ≡ cond given (fits traffic slot) (absent slot) }
{
    if given {
        does_fit(rules::TRAFFIC, slot)
    } else {
        slot.is_none()
    }
}

// Whether just so many later years are given.
fn does_later_fit(later: usize, slots: [Slot; LATER_YEARS]) -> bool
    requires { later ≤ later_years }
    ensures { result ≡ later_fits later slots }
{
    slots
        .iter()
        .enumerate()
        .all(|(i, slot)| is_later_right(i < later, *slot))
}

// How many later values follow the traffic of a site.
fn later_given(years: u64, site: Site) -> usize
    requires { years_known years ≡ true }
    ensures { (result ≡ later_given years site) × (result ≤ later_years) }
{
    if values::is_yearly(site) {
        years as usize - 1
    } else {
        0
    }
}

// Whether the later years of both traffics are those of the project, or none.
fn is_later_sound(years: u64, site: Site) -> bool
    requires { years_known years ≡ true }
    ensures { result ≡ later_sound years site }
{
    let later = later_given(years, site);
    does_later_fit(later, values::later_slots(site.later_traffic))
        && does_later_fit(
            values::minor_later(site.kind, later),
            values::later_slots(site.later_minor),
        )
}

// The length of a site's record, where nothing of it is outside its range.
pub fn measure_site(edition: u64, years: u64, site: Site) -> Option<usize>
    ensures { MeasuresSite edition years site result }
{
    rules::check_project(edition, years).ok()?;
    let Ok(kind) = Kind::try_from(site.kind) else {
        return None;
    };
    if !is_later_sound(years, site) {
        return None;
    }
    let slots = values::slots_of(site);
    let later = later_given(years, site);
    let more = 2 * (later + values::minor_later(site.kind, later));
    measure_slots(rules_held(edition, kind, slots), slots, more)
}

// Whether nothing of a site is outside its range.
pub fn is_sound(edition: u64, years: u64, site: Site) -> bool
    ensures { result ≡ sound edition years site }
{
    measure_site(edition, years, site).is_some()
}

// Bit 15 of a map, which stands where there are later values.
fn bit_of_years(yearly: bool) -> u16
    ensures { result ≡ cond yearly 32768 0 }
{
    if yearly { 32768 } else { 0 }
}

// Writes the kind and the map of a record.
fn put_head(kind: Kind, map: u16, buffer: &mut [u8])
    requires { 3 ≤ length buffer.old }
    ensures { buffer.new ≡ sets buffer.old 0 (number_of_kind kind ∷ two_bytes map) }
{
    buffer[0] = u8::from(kind);
    put_word(map, buffer, 1);
}

// Writes the record of a valid site from the start of a buffer that has space for it, and answers its length.
pub fn put_record(edition: u64, years: u64, site: Site, buffer: &mut [u8]) -> usize
    requires { Valid edition years site × (length (record_of edition site) ≤ length buffer.old) }
    ensures { (result ≡ length (record_of edition site)) × (buffer.new ≡ sets buffer.old 0 (record_of edition site)) }
{
    let Ok(kind) = Kind::try_from(site.kind) else {
        unreachable!()
    };
    let slots = values::slots_of(site);
    let rules = rules_held(edition, kind, slots);
    put_head(
        kind,
        map_of(rules, slots) + bit_of_years(values::is_yearly(site)),
        buffer,
    );
    put_spread(
        rules,
        slots,
        values::later_slots(site.later_traffic),
        values::later_slots(site.later_minor),
        buffer,
    )
}

// Writes the record of a site from the start of the buffer, and answers its length, or the first refusal: the edition, the years, a
// value outside its range, or a buffer that is shorter than the record, which stays as it was.
pub fn write_site(edition: u64, years: u64, site: Site, buffer: &mut [u8]) -> Result<usize, Refusal>
    ensures { WritesSite edition years site buffer.old buffer.new result }
{
    rules::check_project(edition, years)?;
    let n = measure_site(edition, years, site).ok_or(Refusal::OutsideRange)?;
    if buffer.len() < n {
        return Err(Refusal::NoSpace);
    }
    Ok(put_record(edition, years, site, buffer))
}
