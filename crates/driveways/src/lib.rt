// Brackets of a segment's driveway part, (0.2 + c·DD)/(0.2 + 5c) with c = 0.05 - 0.005 ln A, an edition's constant in place of 0.2,
// from the bracket of ln A. The part falls as ln A rises from 5 driveways a mile on and rises below, so its ends are its values at
// the ends of ln A.
#![tactic(auto)]

ghost use Rattle.std.specs.Prelude.{◌≡◌, ◌*◌, ◌≤◌, ◌<◌};
ghost use Rattle.estimate.specs.Fraction.{◌÷◌};
ghost use Rattle.model.specs.Access.{driveway_at};
ghost use Rattle.bracket.specs.Ratio.{coded};
ghost use Rattle.driveways.specs.Driveways.{driveways_of};

use bracket::{Bracket, Ratio, span};
use logarithm::logarithm_with;
use logarithm::stored::Logarithms;

// The part where ln A is num / den, at most 10. The sizes are those of an edition and of a bracket of ln A.
fn value_at(constant: u64, driveways: u64, num: u64, den: u64) -> Ratio
    requires { (0 < constant) × (constant ≤ 1000) × (driveways ≤ 50) × (0 < den) × (den ≤ 1000000000000) × (num ≤ 10 * den) }
    ensures { result ≡ coded (driveway_at constant driveways (num ÷ den)) }
{
    let slope = 50 * den - 5 * num;
    let fixed = constant * den;
    Ratio {
        num: fixed + driveways * slope,
        den: fixed + 5 * slope,
    }
}

// The part's bracket at a traffic, with the stored logarithms lent: 1 below the edition's fewest driveways.
pub fn driveways_with(
    logarithms: &Logarithms,
    constant: u64,
    fewest: u64,
    driveways: u64,
    traffic: u64,
) -> Bracket
    requires { (constant ≤ 1000) × (0 < constant) × (driveways ≤ 50) × (1 ≤ traffic) × (traffic ≤ 20000) }
    ensures { result ≡ driveways_of constant fewest driveways traffic }
{
    if driveways < fewest {
        return span(Ratio { num: 1, den: 1 }, Ratio { num: 1, den: 1 });
    }
    let ln = logarithm_with(logarithms, traffic);
    let at_low = value_at(constant, driveways, ln.low_num, ln.low_den);
    let at_high = value_at(constant, driveways, ln.high_num, ln.high_den);
    if driveways < 5 {
        return span(at_low, at_high);
    }
    span(at_high, at_low)
}
