// Turn lanes and limited sight at a crossing: 1 3ST, 2 4ST, 3 4SG.
ghost use Rattle.std.specs.Prelude.{◌≡◌, ◌≤◌};
ghost use Rattle.model.specs.Coefficients.{coefficients_of};
ghost use Rattle.model.specs.Crossings as crossings;
ghost use Rattle.bracket.specs.Ratio.{coded};
ghost use Rattle.factors.specs.TurnLanes.{ratio_in};

use bracket::Ratio;

// Factors in thousandths, a row for each kind, by none, one and two lanes. A segment has none, and a 3ST at most one.
const LEFT_TURN_ONE: [[u64; 3]; 4] = [
    [1000, 1000, 1000],
    [1000, 780, 1000],
    [1000, 760, 580],
    [1000, 820, 670],
];

const LEFT_TURN_TWO: [[u64; 3]; 4] = [
    [1000, 1000, 1000],
    [1000, 560, 1000],
    [1000, 720, 520],
    [1000, 820, 670],
];

const RIGHT_TURN_ONE: [[u64; 3]; 4] = [
    [1000, 1000, 1000],
    [1000, 950, 1000],
    [1000, 950, 900],
    [1000, 975, 950],
];

const RIGHT_TURN_TWO: [[u64; 3]; 4] = [
    [1000, 1000, 1000],
    [1000, 860, 1000],
    [1000, 860, 740],
    [1000, 960, 920],
];

// The factor of so many lanes at a kind, by an edition's table.
fn turn_lanes(table: &[[u64; 3]; 4], kind: u8, lanes: u64) -> Ratio
    requires { (kind ≤ 3) × (lanes ≤ 2) }
    ensures { result ≡ ratio_in table.now kind lanes }
{
    Ratio {
        num: table[kind as usize][lanes as usize],
        den: 1000,
    }
}

// The factor of the major road's left-turn lanes. A table is written out where it is read, so the edition's own alone is.
pub fn left_turn(edition: u64, kind: u8, lanes: u64) -> Ratio
    requires { (kind ≤ 3) × (lanes ≤ 2) }
    ensures { result ≡ coded (crossings.left_turn (coefficients_of edition) kind lanes) }
{
    if edition <= 1 {
        return turn_lanes(&LEFT_TURN_ONE, kind, lanes);
    }
    turn_lanes(&LEFT_TURN_TWO, kind, lanes)
}

// The factor of its right-turn lanes.
pub fn right_turn(edition: u64, kind: u8, lanes: u64) -> Ratio
    requires { (kind ≤ 3) × (lanes ≤ 2) }
    ensures { result ≡ coded (crossings.right_turn (coefficients_of edition) kind lanes) }
{
    if edition <= 1 {
        return turn_lanes(&RIGHT_TURN_ONE, kind, lanes);
    }
    turn_lanes(&RIGHT_TURN_TWO, kind, lanes)
}

// The factor of quadrants with limited sight.
pub fn sight(quadrants: u64) -> Ratio
    requires { quadrants ≤ 4 }
    ensures { result ≡ coded (crossings.sight quadrants) }
{
    Ratio {
        num: 100 + 5 * quadrants,
        den: 100,
    }
}
