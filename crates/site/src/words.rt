// What the reader, the writer and the header share of bytes: two-byte numbers, and how many a record's fields take by its map.
ghost use Rattle.std.specs.Prelude.{◌≡◌, ◌+◌, ◌≤◌, ◌<◌, length, drop};
ghost use Rattle.std.proofs.lemmas.List.Edits.{sets};
ghost use Rattle.site.specs.Rules.{slot_count};
ghost use Rattle.site.specs.Record.{word, bit_of, rest_of, field_words, words};
ghost use Rattle.site.specs.Writing.{two_bytes};

use crate::rules::{Rule, SLOTS, bits_of};

// The two-byte number at a place, high byte first.
pub fn word_at(s: &[u8], at: usize) -> u16
    requires { at + 1 < length s.now }
    ensures { result ≡ word (drop at s.now) }
{
    let low = at + 1;
    u16::from(s[at]) * 256 + u16::from(s[low])
}

// Writes a two-byte number at a place.
pub fn put_word(value: u16, buffer: &mut [u8], at: usize)
    requires { at + 2 ≤ length buffer.old }
    ensures { buffer.new ≡ sets buffer.old at (two_bytes value) }
{
    buffer[at] = (value / 256) as u8;
    buffer[at + 1] = (value % 256) as u8;
}

// The bit of the next field.
pub fn bit_of(rule: Rule, map: u16) -> u16
    ensures { (result ≡ bit_of rule map) × (result ≤ 1) }
{
    map % (1 + bits_of(rule))
}

// What is left of the map after the next field.
pub fn rest_of(rule: Rule, map: u16) -> u16
    ensures { result ≡ rest_of rule map }
{
    map / (1 + bits_of(rule))
}

// How many two-byte numbers a field has in the record.
pub fn field_words(rule: Rule, map: u16) -> usize
    ensures { (result ≡ field_words rule map) × (result ≤ 1) }
{
    usize::from(bit_of(rule, map))
}

// How many two-byte numbers follow the map.
pub fn count_words(rules: [Rule; SLOTS], map: u16) -> usize
    ensures { (result ≡ words rules map) × (result ≤ slot_count) }
{
    let mut rest = map;
    let mut count = 0;
    for rule in rules {
        count += field_words(rule, rest);
        rest = rest_of(rule, rest);
    }
    count
}
