// Brackets: two fractions that an exact figure stands between, and a bracket carried through a list of factors.
#![tactic(auto)]

pub mod carry;

ghost use Rattle.std.specs.Prelude.{◌≡◌};
ghost use Rattle.bracket.specs.Ratio.{spanned};

// The fraction num / den.
#[derive(Clone, Copy)]
pub struct Ratio {
    pub num: u64,
    pub den: u64,
}

// The fractions low_num / low_den and high_num / high_den.
#[derive(Clone, Copy)]
pub struct Bracket {
    pub low_num: u64,
    pub low_den: u64,
    pub high_num: u64,
    pub high_den: u64,
}

// Two whole numbers between which a value is.
#[derive(Clone, Copy)]
pub struct Bounds {
    pub low: u64,
    pub high: u64,
}

// The bracket with these ends.
pub fn span(low: Ratio, high: Ratio) -> Bracket
    ensures { result ≡ spanned low high }
{
    Bracket {
        low_num: low.num,
        low_den: low.den,
        high_num: high.num,
        high_den: high.den,
    }
}
