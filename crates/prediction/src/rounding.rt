// A carried bracket in whole millionths.
ghost use Rattle.std.specs.Prelude.{◌≡◌};
ghost use Rattle.prediction.specs.Pair.{outward};

use bracket::Bounds;

// Units to a millionth.
const UNIT: u64 = 200_000;

// A carried bracket, rounded outward. A site that is in its range is never too large.
pub fn round_outward(answer: Option<(u64, u64)>) -> Bounds
    ensures { result ≡ outward answer }
{
    match answer {
        Some((low, high)) => Bounds {
            low: low / UNIT,
            high: high.div_ceil(UNIT),
        },
        None => Bounds { low: 0, high: 0 },
    }
}
