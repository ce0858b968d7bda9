// The numbers of a site by its kind, as the model takes them.
ghost use Rattle.std.specs.Prelude.{◌≡◌};
ghost use Rattle.site.specs.Numbers.{segment_of, crossing_of};
ghost use Rattle.site.specs.Numbers as numbers;

use crate::values::{Site, Slot};

// The number in a slot, 0 where there is none.
pub fn number(slot: Slot) -> u64
    ensures { result ≡ numbers.number slot }
{
    slot.map_or(0, u64::from)
}

// The numbers that a segment's factors are made of, and whether its road has a curve.
#[derive(Clone, Copy)]
pub struct Segment {
    pub traffic: u64,
    pub length: u64,
    pub lane_width: u64,
    pub shoulder_width: u64,
    pub shoulder_type: u64,
    pub curve_length: u64,
    pub radius: u64,
    pub spiral_ends: u64,
    pub deficiency: u64,
    pub grade: u64,
    pub driveways: u64,
    pub two_way_lane: u64,
    pub passing: u64,
    pub hazard_rating: u64,
    pub curved: bool,
}

// The numbers of a site that is a segment, at a traffic; a straight road has no curve length.
pub fn segment_of(site: Site, traffic: u64) -> Segment
    ensures { result ≡ segment_of traffic site }
{
    let length = site.length;
    let lane_width = site.lane_width;
    let shoulder_width = site.shoulder_width;
    let shoulder_type = site.shoulder_type;
    let curve_length = site.curve_length;
    let radius = site.radius;
    let spiral_ends = site.spiral_ends;
    let deficiency = site.deficiency;
    let grade = site.grade;
    let driveways = site.driveways;
    let two_way_lane = site.two_way_lane;
    let passing = site.passing;
    let hazard_rating = site.hazard_rating;
    Segment {
        traffic,
        length: number(length),
        lane_width: number(lane_width),
        shoulder_width: number(shoulder_width),
        shoulder_type: number(shoulder_type),
        curve_length: number(curve_length),
        radius: number(radius),
        spiral_ends: number(spiral_ends),
        deficiency: number(deficiency),
        grade: number(grade),
        driveways: number(driveways),
        two_way_lane: number(two_way_lane),
        passing: number(passing),
        hazard_rating: number(hazard_rating),
        curved: curve_length.is_some(),
    }
}

// The numbers that a crossing's factors are made of.
#[derive(Clone, Copy)]
pub struct Crossing {
    pub kind: u8,
    pub traffic: u64,
    pub minor: u64,
    pub skew: u64,
    pub left_lanes: u64,
    pub right_lanes: u64,
    pub limited_sight: u64,
}

// The numbers of a site that is a crossing, at a traffic of the major and of the minor road.
pub fn crossing_of(site: Site, traffic: u64, minor: u64) -> Crossing
    ensures { result ≡ crossing_of traffic minor site }
{
    let skew = site.skew;
    let left_lanes = site.left_lanes;
    let right_lanes = site.right_lanes;
    let limited_sight = site.limited_sight;
    Crossing {
        kind: site.kind,
        traffic,
        minor,
        skew: number(skew),
        left_lanes: number(left_lanes),
        right_lanes: number(right_lanes),
        limited_sight: number(limited_sight),
    }
}
