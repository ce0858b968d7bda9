// Brackets of e^(x / 10000) and e^(-x / 10000), x from 0 to 14: the stored e^i of the whole part times e^f of the rest.
#![tactic(auto)]

pub mod stored;
pub mod stored_bracket;
pub mod taylor;

ghost use Rattle.std.specs.Prelude.{◌≡◌, ◌≤◌};
ghost use Rattle.bracket.specs.Reciprocal.{reciprocal};
ghost use Rattle.exponential.specs.Exponential.{exponential_limit, exp_bracket, exponential_answer};
ghost use Rattle.exponential.specs.Exponential.{exponential_negative_answer, ExponentialStands, ExponentialNegativeStands};

use crate::stored::{Exponentials, stored_exp, stored_exponentials};
use crate::taylor::taylor;
use bracket::Bracket;
use wide::scale::{times_down, times_up};

// A whole number w stands for w / SCALE.
pub const SCALE: u64 = 1000000000000;

// The largest argument: 14, in ten-thousandths.
const LIMIT: u64 = 140000;

// e^(x / 10000), with the stored numbers lent.
pub fn exponential_with(exponentials: &Exponentials, x: u64) -> Bracket
    requires { x ≤ exponential_limit }
    ensures { result ≡ exp_bracket x }
{
    let e = stored_exp(exponentials, x / 10000);
    let t = taylor(x % 10000);
    Bracket {
        low_num: times_down(e, t.low, SCALE),
        low_den: SCALE,
        high_num: times_up(e + 1, t.high, SCALE),
        high_den: SCALE,
    }
}

// The reciprocals of a bracket's ends, exchanged.
fn reciprocal(b: Bracket) -> Bracket
    ensures { result ≡ reciprocal b }
{
    Bracket {
        low_num: b.high_den,
        low_den: b.high_num,
        high_num: b.low_den,
        high_den: b.low_num,
    }
}

// e^(x / 10000), for x up to 140,000: it stands to the estimates at every depth and has the stated width.
pub fn exponential(x: u64) -> Option<Bracket>
    ensures value { result ≡ exponential_answer x }
    ensures stands { ExponentialStands x result }
{
    if LIMIT < x {
        return None;
    }
    Some(exponential_with(&stored_exponentials(), x))
}

// e^(-x / 10000), for x up to 140,000: it stands to the estimates at every depth and has the stated width.
pub fn exponential_negative(x: u64) -> Option<Bracket>
    ensures value { result ≡ exponential_negative_answer x }
    ensures stands { ExponentialNegativeStands x result }
{
    let b = exponential(x)?;
    Some(reciprocal(b))
}
