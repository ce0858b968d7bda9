// Why a file, a record or a site is refused.
ghost use Rattle.std.specs.Prelude.{◌≡◌};
ghost use Rattle.site.specs.Refusals.{number_of};

// Each refusal with document 01's number.
#[derive(Clone, Copy, PartialEq, Eq)]
pub enum Refusal {
    // The bytes end before the header or a record does.
    TooShort = 1,
    // Bytes are left after the last record.
    BytesAfter = 2,
    EditionUnknown = 3,
    // A header value is outside its limits.
    OutsideLimits = 4,
    KindUnknown = 5,
    // A bit of the map stands that the kind lacks.
    BitLacked = 6,
    // A needed bit of the map is absent.
    BitMissing = 7,
    OutsideRange = 8,
    // A default is spelled out.
    DefaultSpelledOut = 9,
    // What is lent is too short for what is to be written.
    NoSpace = 10,
}

impl From<Refusal> for u64 {
    ghost from_gives = { λ refusal number. number ≡ number_of refusal };

    fn from(refusal: Refusal) -> u64 {
        refusal as u64
    }
}
