// A crossing's start carried through the brackets of its factors.
ghost use Rattle.std.specs.Prelude.{◌≡◌, ◌*◌, ◌≤◌};
ghost use Rattle.exponential.specs.Exponential.{exp_bracket};
ghost use Rattle.bracket.specs.Carry.{carried};
ghost use Rattle.site.specs.Rules.{most_years};
ghost use Rattle.site.specs.Numbers.{CrossingSizes};
ghost use Rattle.header.specs.Header.{most_calibration};
ghost use Rattle.model.specs.Coefficients.{coefficients_of};
ghost use Rattle.model.specs.Crossings.{skew_exponent};
ghost use Rattle.model.specs.Parts.{crossing_factors};
ghost use Rattle.prediction.specs.Factors.{brackets_of};
ghost use Rattle.prediction.specs.Pair.{crossing_units};
ghost use Rattle.prediction.specs.Carrying.{major_place, minor_place};

use crate::stored::base_factor;
use bracket::Bracket;
use bracket::carry::{through, through_exact};
use exponential::exponential_with;
use exponential::stored::Exponentials;
use factors::crossings::{left_turn, right_turn, sight};
use power::power_with;
use power::stored::Powers;
use site::numbers::Crossing;

// What a crossing's kind sets.
#[derive(Clone, Copy)]
struct KindNumbers {
    // The places of the exponents of major and minor traffic among the powers' five.
    major_place: u64,
    minor_place: u64,
    // What a degree of skew adds to the exponent of e, in ten-thousandths.
    skew_exponent: u64,
}

// By kind, the places of 0.79 and 0.49, of 0.60 and 0.61, and of 0.60 and 0.20; a segment has none.
const KIND_NUMBERS: [KindNumbers; 4] = [
    KindNumbers {
        major_place: 5,
        minor_place: 5,
        skew_exponent: 0,
    },
    KindNumbers {
        major_place: 0,
        minor_place: 1,
        skew_exponent: 40,
    },
    KindNumbers {
        major_place: 2,
        minor_place: 3,
        skew_exponent: 54,
    },
    KindNumbers {
        major_place: 2,
        minor_place: 4,
        skew_exponent: 0,
    },
];

fn kind_numbers(kind: u8) -> KindNumbers
    requires { kind ≤ 3 }
    ensures major { result.major_place ≡ major_place kind }
    ensures minor { result.minor_place ≡ minor_place kind }
    ensures skew { result.skew_exponent ≡ skew_exponent kind }
{
    KIND_NUMBERS[kind as usize]
}

// The skew's factor.
fn skew_factor(exponentials: &Exponentials, v: Crossing) -> Bracket
    requires { CrossingSizes v }
    ensures { result ≡ exp_bracket (skew_exponent v.kind * v.skew) }
{
    exponential_with(exponentials, kind_numbers(v.kind).skew_exponent * v.skew)
}

// The start through the factors.
pub fn carry_crossing(
    powers: &Powers,
    exponentials: &Exponentials,
    edition: u64,
    years: u64,
    calibration: u64,
    v: Crossing,
) -> Option<(u64, u64)>
    requires { (years ≤ most_years) × (calibration ≤ most_calibration) × CrossingSizes v }
    ensures { result ≡ carried (crossing_units years calibration) (crossing_units years calibration) (brackets_of (coefficients_of edition) (crossing_factors v)) }
{
    let start = years * calibration * 200_000_000;
    let ends = Some((start, start));
    let by_kind = kind_numbers(v.kind);
    let major = power_with(powers, v.traffic, by_kind.major_place);
    let after_major = through(ends, major);
    let minor = power_with(powers, v.minor, by_kind.minor_place);
    let after_minor = through(after_major, minor);
    let after_left = through_exact(after_minor, left_turn(edition, v.kind, v.left_lanes));
    let after_right = through_exact(after_left, right_turn(edition, v.kind, v.right_lanes));
    let after_sight = through_exact(after_right, sight(v.limited_sight));
    let after_skew = through(after_sight, skew_factor(exponentials, v));
    through(after_skew, base_factor(edition, v.kind))
}
