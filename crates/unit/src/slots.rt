// All the slots of a site as one list: its twenty, then the later years of its traffic and of its minor traffic.
ghost use Rattle.std.specs.Prelude.{◌≡◌, ◌+◌, ◌≤◌, drop};
ghost use Rattle.site.specs.Rules.{later_years};
ghost use Rattle.site.specs.Yearly.{later_from_slots};
ghost use Rattle.unit.specs.SiteNumbers.{site_of_all, all_count};

use site::rules::{LATER_YEARS, SLOTS};
use site::values;
use site::values::{Later, Site, Slot};
use std::array;

pub(crate) const ALL_SLOTS: usize = SLOTS + 2 * LATER_YEARS;

// The later years from a place on.
fn later_at(slots: [Slot; ALL_SLOTS], at: usize) -> Later
    requires { at + later_years ≤ all_count }
    ensures { result ≡ later_from_slots (drop at slots) }
{
    values::later_of(array::from_fn(|i| slots[at + i]))
}

// The site of its kind and of all its slots.
pub(crate) fn site_of_all(kind: u8, slots: [Slot; ALL_SLOTS]) -> Site
    ensures { result ≡ site_of_all kind slots }
{
    let first = array::from_fn(|i| slots[i]);
    let traffic = later_at(slots, SLOTS);
    let minor = later_at(slots, SLOTS + LATER_YEARS);
    values::site_of(kind, first, traffic, minor)
}
