// The kind of a site that a record can have.
ghost use Rattle.std.specs.Prelude.{◌≡◌};
ghost use Rattle.site.specs.Kinds.{number_of_kind, KindOfNumber};

use crate::refusal::Refusal;

// Each kind with document 01's number, the byte that its record starts with.
#[derive(Clone, Copy, PartialEq, Eq)]
pub enum Kind {
    Segment = 0,
    // A crossing of three legs, with stop control on the minor road (3ST).
    ThreeLegStop = 1,
    // Of four legs, with stop control on the minor road (4ST).
    FourLegStop = 2,
    // Of four legs, with signals (4SG).
    FourLegSignal = 3,
}

impl TryFrom<u8> for Kind {
    type Error = Refusal;

    ghost try_from_gives = { KindOfNumber };

    fn try_from(number: u8) -> Result<Self, Refusal> {
        match number {
            0 => Ok(Kind::Segment),
            1 => Ok(Kind::ThreeLegStop),
            2 => Ok(Kind::FourLegStop),
            3 => Ok(Kind::FourLegSignal),
            _ => Err(Refusal::KindUnknown),
        }
    }
}

impl From<Kind> for u8 {
    ghost from_gives = { λ kind number. number ≡ number_of_kind kind };

    fn from(kind: Kind) -> u8 {
        kind as u8
    }
}
