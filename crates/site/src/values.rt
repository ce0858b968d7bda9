// A site's values, what it is made of, and what the reader and the writer answer.
ghost use Rattle.std.specs.Prelude.{◌≡◌, ◌≤◌};
ghost use Rattle.site.specs.Yearly.{later_from_slots, later_slots, yearly, later_minor};
ghost use Rattle.site.specs.Record.{site_of};
ghost use Rattle.site.specs.Writing.{slots_of};

use crate::rules::{LATER_YEARS, SLOTS};

// What a field holds. An absent history, the curve of a straight road, and a field that the kind
// lacks hold no number.
pub type Slot = Option<u16>;

// A traffic in each year after the first; a year that is not given holds no number.
#[derive(Clone, Copy)]
pub struct Later {
    pub second: Slot,
    pub third: Slot,
    pub fourth: Slot,
    pub fifth: Slot,
    pub sixth: Slot,
    pub seventh: Slot,
    pub eighth: Slot,
    pub ninth: Slot,
    pub tenth: Slot,
}

// One site. The slots stand in the rising order of the bits of each kind: a segment's bits skip
// minor_traffic and end at hazard_rating, a crossing's are traffic, minor_traffic, observed and
// skew to limited_sight. Kinds above 3 can be held, and no record has one. The later years of each
// traffic stand last.
#[derive(Clone, Copy)]
pub struct Site {
    pub kind: u8,
    pub traffic: Slot,
    pub length: Slot,
    pub minor_traffic: Slot,
    pub observed: Slot,
    pub lane_width: Slot,
    pub shoulder_width: Slot,
    pub shoulder_type: Slot,
    pub curve_length: Slot,
    pub radius: Slot,
    pub spiral_ends: Slot,
    pub deficiency: Slot,
    pub grade: Slot,
    pub driveways: Slot,
    pub two_way_lane: Slot,
    pub passing: Slot,
    pub hazard_rating: Slot,
    pub skew: Slot,
    pub left_lanes: Slot,
    pub right_lanes: Slot,
    pub limited_sight: Slot,
    pub later_traffic: Later,
    pub later_minor: Later,
}

// The later years of nine slots, year by year.
pub fn later_of(slots: [Slot; LATER_YEARS]) -> Later
    ensures { result ≡ later_from_slots slots }
{
    Later {
        second: slots[0],
        third: slots[1],
        fourth: slots[2],
        fifth: slots[3],
        sixth: slots[4],
        seventh: slots[5],
        eighth: slots[6],
        ninth: slots[7],
        tenth: slots[8],
    }
}

// And their slots.
pub fn later_slots(later: Later) -> [Slot; LATER_YEARS]
    ensures { result ≡ later_slots later }
{
    let second = later.second;
    let third = later.third;
    let fourth = later.fourth;
    let fifth = later.fifth;
    let sixth = later.sixth;
    let seventh = later.seventh;
    let eighth = later.eighth;
    let ninth = later.ninth;
    let tenth = later.tenth;
    [
        second, third, fourth, fifth, sixth, seventh, eighth, ninth, tenth,
    ]
}

// Whether a site has a traffic for each year.
pub fn is_yearly(site: Site) -> bool
    ensures { result ≡ yearly site }
{
    let later = site.later_traffic;
    let second = later.second;
    second.is_some()
}

// How many later values follow the minor traffic: as many as the traffic's; a segment has no minor traffic.
pub fn minor_later(kind: u8, later: usize) -> usize
    ensures { (result ≡ later_minor kind later) × (result ≤ later) }
{
    if kind == 0 { 0 } else { later }
}

// A site of its kind, its slots and the later years of its traffics.
pub fn site_of(kind: u8, slots: [Slot; SLOTS], traffic: Later, minor: Later) -> Site
    ensures { result ≡ site_of kind slots traffic minor }
{
    Site {
        kind,
        traffic: slots[0],
        length: slots[1],
        minor_traffic: slots[2],
        observed: slots[3],
        lane_width: slots[4],
        shoulder_width: slots[5],
        shoulder_type: slots[6],
        curve_length: slots[7],
        radius: slots[8],
        spiral_ends: slots[9],
        deficiency: slots[10],
        grade: slots[11],
        driveways: slots[12],
        two_way_lane: slots[13],
        passing: slots[14],
        hazard_rating: slots[15],
        skew: slots[16],
        left_lanes: slots[17],
        right_lanes: slots[18],
        limited_sight: slots[19],
        later_traffic: traffic,
        later_minor: minor,
    }
}

// The slots of a site, in the order of the rules.
pub fn slots_of(site: Site) -> [Slot; SLOTS]
    ensures { result ≡ slots_of site }
{
    let traffic = site.traffic;
    let length = site.length;
    let minor_traffic = site.minor_traffic;
    let observed = site.observed;
    let lane_width = site.lane_width;
    let shoulder_width = site.shoulder_width;
    let shoulder_type = site.shoulder_type;
    let curve_length = site.curve_length;
    let radius = site.radius;
    let spiral_ends = site.spiral_ends;
    let deficiency = site.deficiency;
    let grade = site.grade;
    let driveways = site.driveways;
    let two_way_lane = site.two_way_lane;
    let passing = site.passing;
    let hazard_rating = site.hazard_rating;
    let skew = site.skew;
    let left_lanes = site.left_lanes;
    let right_lanes = site.right_lanes;
    let limited_sight = site.limited_sight;
    [
        traffic,
        length,
        minor_traffic,
        observed,
        lane_width,
        shoulder_width,
        shoulder_type,
        curve_length,
        radius,
        spiral_ends,
        deficiency,
        grade,
        driveways,
        two_way_lane,
        passing,
        hazard_rating,
        skew,
        left_lanes,
        right_lanes,
        limited_sight,
    ]
}
