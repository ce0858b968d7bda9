// A segment's start carried through the brackets of its factors.
ghost use Rattle.std.specs.Prelude.{◌≡◌, ◌≤◌};
ghost use Rattle.bracket.specs.Carry.{carried, carried_on};
ghost use Rattle.site.specs.Rules.{most_years};
ghost use Rattle.site.specs.Numbers.{SegmentSizes, CurveSizes};
ghost use Rattle.header.specs.Header.{most_calibration};
ghost use Rattle.model.specs.Coefficients.{Coefficients, coefficients_of};
ghost use Rattle.model.specs.Parts.{straight_factors, curve_factors, segment_factors};
ghost use Rattle.prediction.specs.Factors.{brackets_of};
ghost use Rattle.prediction.specs.Pair.{segment_units};

use crate::stored::{base_factor, hazard_factor};
use bracket::carry::{through, through_exact};
use driveways::driveways_with;
use factors::access::{passing, two_way_lane};
use factors::alignment::{curve, grade, steep_grade, superelevation};
use factors::coefficients::coefficients_of;
use factors::widths::{lane, shoulder};
use logarithm::stored::Logarithms;
use site::numbers::Segment;

// Y × calibration × A × L × 0.000365, in units.
fn segment_start(years: u64, calibration: u64, v: Segment) -> u64
    requires { (years ≤ most_years) × (calibration ≤ most_calibration) × SegmentSizes v }
    ensures { result ≡ segment_units years calibration v }
{
    years * calibration * v.traffic * v.length * 73
}

// The start through the factors of every road.
fn carry_straight(
    logarithms: &Logarithms,
    edition: u64,
    start: u64,
    v: Segment,
) -> Option<(u64, u64)>
    requires { SegmentSizes v }
    ensures { result ≡ carried start start (brackets_of (coefficients_of edition) (straight_factors v)) }
{
    let k = coefficients_of(edition);
    let ends = Some((start, start));
    let after_base = through(ends, base_factor(edition, 0));
    let lane_factor = lane(k.related_share, v.lane_width, v.traffic);
    let after_lane = through_exact(after_base, lane_factor);
    let shoulder_factor = shoulder(
        k.related_share,
        v.shoulder_width,
        v.shoulder_type,
        v.traffic,
    );
    let after_shoulder = through_exact(after_lane, shoulder_factor);
    let after_grade = through_exact(after_shoulder, grade(edition, v.grade));
    let after_steep_grade = through_exact(after_grade, steep_grade(edition, v.grade));
    let after_two_way = through_exact(after_steep_grade, two_way_lane(v.two_way_lane, v.driveways));
    let after_passing = through_exact(after_two_way, passing(v.passing));
    let after_hazard = through(after_passing, hazard_factor(v.hazard_rating));
    let driveway_factor = driveways_with(
        logarithms,
        k.driveway_constant,
        k.fewest_driveways,
        v.driveways,
        v.traffic,
    );
    through(after_hazard, driveway_factor)
}

// A straight road's answer through the curve's two factors, which are the same in every edition.
fn carry_curve(straight: Option<(u64, u64)>, v: Segment) -> Option<(u64, u64)>
    requires { CurveSizes v }
    ensures { (k : Coefficients) → result ≡ carried_on straight (brackets_of k (curve_factors v)) }
{
    let after_curve = through_exact(straight, curve(v.curve_length, v.radius, v.spiral_ends));
    through_exact(after_curve, superelevation(v.deficiency))
}

// The start through the factors of every road and then the curve's.
pub fn carry_segment(
    logarithms: &Logarithms,
    edition: u64,
    years: u64,
    calibration: u64,
    v: Segment,
) -> Option<(u64, u64)>
    requires { (years ≤ most_years) × (calibration ≤ most_calibration) × SegmentSizes v }
    ensures { result ≡ carried (segment_units years calibration v) (segment_units years calibration v) (brackets_of (coefficients_of edition) (segment_factors v)) }
{
    let start = segment_start(years, calibration, v);
    let straight = carry_straight(logarithms, edition, start, v);
    if v.curved {
        return carry_curve(straight, v);
    }
    straight
}
