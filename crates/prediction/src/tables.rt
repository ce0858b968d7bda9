// The stored numbers of powers, logarithms and exponentials: made once, and lent to the calls that read them.
ghost use Rattle.exponential.specs.Stored.{StoredExponentials};
ghost use Rattle.logarithm.specs.Stored.{StoredLogarithms};
ghost use Rattle.power.specs.Stored.{StoredPowers};

use exponential::stored::{Exponentials, stored_exponentials};
use logarithm::stored::{Logarithms, stored_logarithms};
use power::stored::{Powers, stored_powers};

#[derive(Clone, Copy)]
pub struct Tables {
    pub powers: Powers,
    pub logarithms: Logarithms,
    pub exponentials: Exponentials,
}

pub fn stored_tables() -> Tables
    ensures powers { StoredPowers result.powers.numbers }
    ensures logarithms { StoredLogarithms result.logarithms.numbers }
    ensures exponentials { StoredExponentials result.exponentials.numbers }
{
    Tables {
        powers: stored_powers(),
        logarithms: stored_logarithms(),
        exponentials: stored_exponentials(),
    }
}
