// Curve, superelevation and grade of a segment.
ghost use Rattle.std.specs.Prelude.{◌≡◌, ◌≤◌};
ghost use Rattle.estimate.specs.Fraction.{◌÷◌, ◌^ᶠ◌};
ghost use Rattle.model.specs.Alignment as alignment;
ghost use Rattle.model.specs.Coefficients.{edition_one, edition_two, coefficients_of};
ghost use Rattle.bracket.specs.Ratio.{coded};

use bracket::Ratio;

// 1.016, which is 127 / 125, to the powers 0 to 6.
const GRADE_POWERS: [Ratio; 7] = [
    Ratio { num: 1, den: 1 },
    Ratio { num: 127, den: 125 },
    Ratio {
        num: 16129,
        den: 15625,
    },
    Ratio {
        num: 2048383,
        den: 1953125,
    },
    Ratio {
        num: 260144641,
        den: 244140625,
    },
    Ratio {
        num: 33038369407,
        den: 30517578125,
    },
    Ratio {
        num: 4195872914689,
        den: 3814697265625,
    },
];

// The factor of a curve, which is never below 1.
pub fn curve(length: u64, radius: u64, spirals: u64) -> Ratio
    requires { (1 ≤ length) × (length ≤ 20000) × (1 ≤ radius) × (radius ≤ 30000) × (spirals ≤ 2) }
    ensures { result ≡ coded (alignment.curve length radius spirals) }
{
    let spiral = 600 * spirals * radius;
    if 8_020_000 < spiral {
        return Ratio { num: 1, den: 1 };
    }
    let straight = 155 * length * radius;
    Ratio {
        num: straight + (8_020_000 - spiral),
        den: straight,
    }
}

// The factor of a curve's superelevation deficiency, in thousandths.
pub fn superelevation(deficiency: u64) -> Ratio
    requires { deficiency ≤ 100 }
    ensures { result ≡ coded (alignment.superelevation deficiency) }
{
    if deficiency < 10 {
        return Ratio { num: 1, den: 1 };
    }
    if deficiency <= 20 {
        return Ratio {
            num: 940 + 6 * deficiency,
            den: 1000,
        };
    }
    Ratio {
        num: 1000 + 3 * deficiency,
        den: 1000,
    }
}

// 1.016 to a power of at most 6.
fn grade_power(exponent: u64) -> Ratio
    requires { exponent ≤ 6 }
    ensures { result ≡ coded ((127 ÷ 125) ^ᶠ exponent) }
{
    GRADE_POWERS[exponent as usize]
}

// Edition 1's factor of a grade, for up to 6 percent: the whole would not fit 64 bits.
fn power_to_six(percent: u64) -> Ratio
    ensures { result ≡ coded (edition_one.grade percent) }
{
    grade_power(percent.min(6))
}

// And for what is above 6.
fn power_above_six(percent: u64) -> Ratio
    requires { percent ≤ 12 }
    ensures { result ≡ coded (edition_one.steep_grade percent) }
{
    grade_power(percent.saturating_sub(6))
}

// Edition 2's factor of a grade: level, moderate or steep.
fn grade_class(percent: u64) -> Ratio
    ensures { result ≡ coded (edition_two.grade percent) }
{
    if percent <= 3 {
        return Ratio { num: 100, den: 100 };
    }
    if percent <= 6 {
        return Ratio { num: 110, den: 100 };
    }
    Ratio { num: 116, den: 100 }
}

// The factor of a grade, in edition 1 for up to 6 percent.
pub fn grade(edition: u64, percent: u64) -> Ratio
    ensures { result ≡ coded ((coefficients_of edition).grade percent) }
{
    if edition <= 1 {
        return power_to_six(percent);
    }
    grade_class(percent)
}

// And in edition 1 for what is above 6.
pub fn steep_grade(edition: u64, percent: u64) -> Ratio
    requires { percent ≤ 12 }
    ensures { result ≡ coded ((coefficients_of edition).steep_grade percent) }
{
    if edition <= 1 {
        return power_above_six(percent);
    }
    Ratio { num: 1, den: 1 }
}
