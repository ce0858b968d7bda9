// A bracket of e^x for an exponent that is known beforehand: two numbers of a table, which are the estimates rounded outward.
ghost use Rattle.std.specs.Prelude.{◌≡◌};
ghost use Rattle.exponential.specs.StoredBrackets.{over_stored_scale};

use bracket::Bracket;

// What a stored number is over.
const STORED_SCALE: u64 = 10_000_000_000_000;

// The bracket of two stored numbers.
pub fn stored_bracket(low: u64, high: u64) -> Bracket
    ensures { result ≡ over_stored_scale low high }
{
    Bracket {
        low_num: low,
        low_den: STORED_SCALE,
        high_num: high,
        high_den: STORED_SCALE,
    }
}
