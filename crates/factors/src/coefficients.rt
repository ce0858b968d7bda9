// The numbers of an edition, each once: constants, and a table by kind (0 segment, 1 3ST, 2 4ST, 3 4SG). The base factors are
// stored in `prediction`.
ghost use Rattle.std.specs.Prelude.{◌≡◌, ◌≤◌};
ghost use Rattle.model.specs.Coefficients.{dispersion_by_kind, coefficients_of};
ghost use Rattle.bracket.specs.Ratio.{coded};
ghost use Rattle.factors.specs.Edition.{Held};

use bracket::Ratio;

// What an edition sets and no kind changes.
#[derive(Clone, Copy)]
pub struct Coefficients {
    // The share of a segment's crashes that lane and shoulder bear on, in thousandths.
    pub related_share: u64,
    // The constant of the driveway part, in thousandths.
    pub driveway_constant: u64,
    // The driveways per mile below which that part is 1.
    pub fewest_driveways: u64,
}

// Overdispersion k, in hundredths.
const OVERDISPERSIONS: [u64; 4] = [31, 54, 24, 11];

// The numbers that are the same for every kind, of edition 1 and of edition 2.
pub fn coefficients_of(edition: u64) -> Coefficients
    ensures { Held (coefficients_of edition) result }
{
    if edition <= 1 {
        return Coefficients {
            related_share: 350,
            driveway_constant: 200,
            fewest_driveways: 0,
        };
    }
    Coefficients {
        related_share: 574,
        driveway_constant: 322,
        fewest_driveways: 5,
    }
}

// Overdispersion by kind alone.
fn dispersion_by_kind(kind: u8) -> Ratio
    requires { kind ≤ 3 }
    ensures { result ≡ coded (dispersion_by_kind kind) }
{
    Ratio {
        num: OVERDISPERSIONS[kind as usize],
        den: 100,
    }
}

// A site's overdispersion, by which its history is weighed: in edition 2 a segment's goes by its length.
pub fn overdispersion(edition: u64, kind: u8, length: u64) -> Ratio
    requires { (kind ≤ 3) × (kind ≡ 0 → 1 ≤ length) }
    ensures { result ≡ coded ((coefficients_of edition).overdispersion kind length) }
{
    if edition <= 1 {
        return dispersion_by_kind(kind);
    }
    if kind == 0 {
        return Ratio {
            num: 236,
            den: length,
        };
    }
    dispersion_by_kind(kind)
}
