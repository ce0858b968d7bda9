// A bracket of whole numbers carried through factors one after another, each known by a bracket of its own.
ghost use Rattle.std.specs.Prelude.{◌≡◌, [], ◌∷◌};
ghost use Rattle.bracket.specs.Carry.{carried_on};
ghost use Rattle.bracket.specs.Ratio.{spanned};

use crate::{Bracket, Ratio, span};
use wide::scale::{scale_down, scale_up};

// One factor further, from the two ends after the factors so far: the low is rounded down and the high is rounded up. There are none
// once an end did not fit 64 bits. A factor at a time lets the compiler see a denominator that is a constant.
pub fn through(answer: Option<(u64, u64)>, factor: Bracket) -> Option<(u64, u64)>
    ensures { result ≡ carried_on answer (factor ∷ []) }
{
    let (low, high) = answer?;
    let l = scale_down(low, factor.low_num, factor.low_den)?;
    let h = scale_up(high, factor.high_num, factor.high_den)?;
    Some((l, h))
}

// An exact factor further: both its ends are the same.
pub fn through_exact(answer: Option<(u64, u64)>, factor: Ratio) -> Option<(u64, u64)>
    ensures { result ≡ carried_on answer (spanned factor factor ∷ []) }
{
    through(answer, span(factor, factor))
}
