// Brackets of ln a, for an a from 1 to 20,000. It is split into n * m + r: its logarithm is the stored one of n, and that of m,
// and the remainder's.
#![tactic(auto)]

pub mod stored;

ghost use Rattle.std.specs.Prelude.{◌≡◌, ◌≤◌};
ghost use Rattle.logarithm.specs.Logarithm.{logarithm_bracket, logarithm_answer, LogarithmStands};

use crate::stored::{Logarithms, stored_bounds, stored_logarithms};
use bracket::Bracket;
use remainder::{SCALE, log_bounds, split};

// Both ends in units of 10^-12, with the stored numbers lent.
pub fn logarithm_with(logarithms: &Logarithms, a: u64) -> Bracket
    requires { (1 ≤ a) × (a ≤ 20000) }
    ensures { result ≡ logarithm_bracket a }
{
    let s = split(a);
    let rest = log_bounds(s.n * s.m, s.r);
    let first = stored_bounds(logarithms, s.n);
    let second = stored_bounds(logarithms, s.m);
    Bracket {
        low_num: first.low + second.low + rest.low,
        low_den: SCALE,
        high_num: first.high + second.high + rest.high,
        high_den: SCALE,
    }
}

// A bracket of ln a, or that a is out of range.
pub fn logarithm(a: u64) -> Option<Bracket>
    ensures value { result ≡ logarithm_answer a }
    ensures stands { LogarithmStands a result }
{
    if a < 1 || 20000 < a {
        return None;
    }
    Some(logarithm_with(&stored_logarithms(), a))
}
