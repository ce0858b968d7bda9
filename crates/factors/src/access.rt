// Two-way left-turn lane and passing lane of a segment.
ghost use Rattle.std.specs.Prelude.{◌≡◌, ◌≤◌};
ghost use Rattle.model.specs.Access as access;
ghost use Rattle.bracket.specs.Ratio.{coded};

use bracket::Ratio;

// None, a passing lane, a short four-lane section, in hundredths.
const PASSING: [u64; 3] = [100, 75, 65];

// The factor of a two-way left-turn lane: 1 without one, and below 5 driveways per mile.
pub fn two_way_lane(present: u64, driveways: u64) -> Ratio
    requires { driveways ≤ 50 }
    ensures { result ≡ coded (access.two_way_lane present driveways) }
{
    if present == 1 {
        if 5 <= driveways {
            let density = 47 * driveways + 24 * (driveways * driveways);
            return Ratio {
                num: 1_199_000 + 65 * density,
                den: 1_199_000 + 100 * density,
            };
        }
    }
    Ratio { num: 1, den: 1 }
}

// The factor of a passing lane or a short four-lane section.
pub fn passing(kind: u64) -> Ratio
    requires { kind ≤ 2 }
    ensures { result ≡ coded (access.passing kind) }
{
    Ratio {
        num: PASSING[kind as usize],
        den: 100,
    }
}
