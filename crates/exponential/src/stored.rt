// The stored e^i for whole i, to be made once and lent: a constant is written out anew wherever it is read.
ghost use Rattle.std.specs.Prelude.{◌≡◌, ◌<◌};
ghost use Rattle.exponential.specs.Stored.{stored_exp, StoredExponentials};

// e^i for i from 0 to 14, each rounded down at the scale.
#[derive(Clone, Copy)]
pub struct Exponentials {
    pub numbers: [u64; 15],
    ghost stored: { StoredExponentials numbers },
}

const EXPONENTIALS: [u64; 15] = [
    1000000000000,
    2718281828459,
    7389056098930,
    20085536923187,
    54598150033144,
    148413159102576,
    403428793492735,
    1096633158428458,
    2980957987041728,
    8103083927575384,
    22026465794806716,
    59874141715197818,
    162754791419003920,
    442413392008920503,
    1202604284164776777,
];

// The stored e^i.
pub fn stored_exponentials() -> Exponentials
    ensures { StoredExponentials result.numbers }
{
    Exponentials {
        numbers: EXPONENTIALS,
    }
}

// The stored e^i of one i.
pub(crate) fn stored_exp(exponentials: &Exponentials, i: u64) -> u64
    requires { i < 15 }
    ensures { result ≡ stored_exp i }
{
    exponentials.numbers[i as usize]
}
