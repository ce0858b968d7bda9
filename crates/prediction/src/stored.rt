// The factors that are a power of e at a few exponents only: their brackets are stored, proved by a test to be those of their exponents.
ghost use Rattle.std.specs.Prelude.{◌≡◌, ◌≤◌};
ghost use Rattle.model.specs.Coefficients.{coefficients_of};
ghost use Rattle.model.specs.Parts.{Base, hazard_exponent};
ghost use Rattle.exponential.specs.StoredBrackets.{stored_bracket};
ghost use Rattle.prediction.specs.Stored.{StoredBases, StoredHazards};
ghost use Rattle.prediction.specs.Factors.{bracket_of};

use bracket::Bracket;
use exponential::stored_bracket::stored_bracket;

// By kind, the low and the high of edition 1's e^(-0.4865), e^(-10.9), e^(-9.34) and e^(-5.73).
const BASES_ONE: [u64; 8] = [
    6147743432822,
    6147743432823,
    184582339,
    184582340,
    878394360,
    878394361,
    32470772336,
    32470772337,
];

// Of edition 2's e^(-0.312), e^(-9.86), e^(-8.56) and e^(-5.13).
const BASES_TWO: [u64; 8] = [
    7319815282283,
    7319815282284,
    522223496,
    522223497,
    1916192936,
    1916192937,
    59165604736,
    59165604737,
];

// By hazard rating from 1 to 7, the low and the high of e^(0.0668 (rating - 3)).
const HAZARDS: [u64; 14] = [
    8749399706057,
    8749399706058,
    9353822590821,
    9353822590822,
    10000000000000,
    10000000000000,
    10690816404634,
    10690816404635,
    11429355539760,
    11429355539761,
    12218914169886,
    12218914169887,
    13063016805424,
    13063016805425,
];

fn stored_bases(edition: u64) -> [u64; 8]
    ensures { StoredBases (coefficients_of edition) result }
{
    if edition <= 1 {
        return BASES_ONE;
    }
    BASES_TWO
}

fn stored_hazards() -> [u64; 14]
    ensures { StoredHazards result }
{
    HAZARDS
}

// The base factor of a kind, e^(-0.4865) for a segment of edition 1.
pub fn base_factor(edition: u64, kind: u8) -> Bracket
    requires { kind ≤ 3 }
    ensures { result ≡ bracket_of (coefficients_of edition) (Base kind) }
{
    let ends = stored_bases(edition);
    let at = 2 * (kind as usize);
    stored_bracket(ends[at], ends[at + 1])
}

// e^(0.0668 (rating - 3)).
pub fn hazard_factor(rating: u64) -> Bracket
    requires { (1 ≤ rating) × (rating ≤ 7) }
    ensures { result ≡ stored_bracket (hazard_exponent rating) }
{
    let ends = stored_hazards();
    let at = 2 * ((rating - 1) as usize);
    stored_bracket(ends[at], ends[at + 1])
}
