// The rules of each kind and field, in one table. Loops go by the rules of a kind and know no
// field.
ghost use Rattle.std.specs.Prelude.{◌≡◌, ◌≤◌, cond};
ghost use Rattle.site.specs.Rules.{segment, crossing, entries_of, inside, allows, absent_of};
ghost use Rattle.site.specs.Rules.{needed, lacking, bits, rule_of, on_curve, settled, settle, absent, holds, edition_known, years_known};
ghost use Rattle.site.specs.Rules.{has_sight};
ghost use Rattle.site.specs.Kinds.{number_of_kind};
ghost use Rattle.site.specs.Refusals.{checked};
ghost use Rattle.site.specs.declared.rules.Rule.TheVariants as rule;

use crate::kind::Kind;
use crate::refusal::Refusal;
use crate::values::Slot;
use std::array;

// What a kind says of a field. Ranges are from the first number to the second; the third is the
// default.
#[derive(Clone, Copy)]
pub enum Rule {
    // The kind has no such field, and no bit for it.
    Foreign,
    // The kind's map has the bit, which may not stand.
    Lacking,
    // The field always stands.
    Needed(u16, u16),
    // The field may be absent, and then holds no number.
    Optional(u16, u16),
    // The field may be absent, and then has its default, which may not be spelled out.
    Default(u16, u16, u16),
}

// Whether a rule is that of every site of the kind, or of a site with a curve: a straight road
// lacks the fields of a curve.
#[derive(Clone, Copy)]
pub enum Entry {
    Always(Rule),
    OnCurve(Rule),
}

use Entry::{Always, OnCurve};
use Rule::{Default, Lacking, Needed, Optional};

pub const SLOTS: usize = 20;

const LAST_EDITION: u64 = 2;

const MOST_YEARS: u64 = 10;

// Years two to ten.
pub const LATER_YEARS: usize = 9;

// Kind, map and the 7 fields of a crossing, with the later years of both traffics, in bytes.
pub const LONGEST_RECORD: usize = 53;

// Document 01's ranges and defaults, each once.
pub const TRAFFIC: Rule = Needed(1, 20000);

const LENGTH: Rule = Needed(1, 20000);

const OBSERVED: Rule = Optional(0, 500);

const LANE_WIDTH: Rule = Default(8, 14, 12);

const SHOULDER_WIDTH: Rule = Default(0, 10, 6);

const SHOULDER_TYPE: Rule = Default(0, 3, 0);

const CURVE_LENGTH: Rule = Needed(1, 20000);

const RADIUS: Rule = Needed(100, 30000);

const SPIRAL_ENDS: Rule = Default(0, 2, 0);

const DEFICIENCY: Rule = Default(0, 100, 0);

const GRADE: Rule = Default(0, 12, 0);

const DRIVEWAYS: Rule = Default(0, 50, 5);

const TWO_WAY_LANE: Rule = Default(0, 1, 0);

const PASSING: Rule = Default(0, 2, 0);

const HAZARD_RATING: Rule = Default(1, 7, 3);

const SKEW: Rule = Default(0, 60, 0);

const ONE_LANE: Rule = Default(0, 1, 0);

const TWO_LANES: Rule = Default(0, 2, 0);

const TWO_QUADRANTS: Rule = Default(0, 2, 0);

const FOUR_QUADRANTS: Rule = Default(0, 4, 0);

// The rules of a segment, by the slots of a site.
fn segment_entries() -> [Entry; SLOTS]
    ensures { result ≡ segment }
{
    let none = Always(Rule::Foreign);
    [
        Always(TRAFFIC),
        Always(LENGTH),
        none,
        Always(OBSERVED),
        Always(LANE_WIDTH),
        Always(SHOULDER_WIDTH),
        Always(SHOULDER_TYPE),
        OnCurve(CURVE_LENGTH),
        OnCurve(RADIUS),
        OnCurve(SPIRAL_ENDS),
        OnCurve(DEFICIENCY),
        Always(GRADE),
        Always(DRIVEWAYS),
        Always(TWO_WAY_LANE),
        Always(PASSING),
        Always(HAZARD_RATING),
        none,
        none,
        none,
        none,
    ]
}

// The rules of a crossing, by the slots of a site: the kinds differ in these four.
fn crossing_entries(angle: Rule, left: Rule, right: Rule, sight: Rule) -> [Entry; SLOTS]
    ensures { result ≡ crossing angle left right sight }
{
    let none = Always(Rule::Foreign);
    let mut entries = [none; SLOTS];
    entries[0] = Always(TRAFFIC);
    entries[2] = Always(TRAFFIC);
    entries[3] = Always(OBSERVED);
    entries[16] = Always(angle);
    entries[17] = Always(left);
    entries[18] = Always(right);
    entries[19] = Always(sight);
    entries
}

// A stop crossing's rule of limited sight, which edition 1 alone has.
fn sight_rule(edition: u64, quadrants: Rule) -> Rule
    ensures { result ≡ cond (has_sight edition) quadrants rule.Lacking }
{
    if edition <= 1 { quadrants } else { Lacking }
}

// The table of rules in an edition.
#[tactic(auto, unfolding(crate::specs::Rules::entries_of))]
pub fn entries_of(edition: u64, kind: Kind) -> [Entry; SLOTS]
    ensures { result ≡ entries_of edition (number_of_kind kind) }
{
    match kind {
        Kind::Segment => segment_entries(),
        Kind::ThreeLegStop => crossing_entries(
            SKEW,
            ONE_LANE,
            ONE_LANE,
            sight_rule(edition, TWO_QUADRANTS),
        ),
        Kind::FourLegStop => crossing_entries(
            SKEW,
            TWO_LANES,
            TWO_LANES,
            sight_rule(edition, FOUR_QUADRANTS),
        ),
        Kind::FourLegSignal => crossing_entries(Lacking, TWO_LANES, TWO_LANES, Lacking),
    }
}

fn is_inside(low: u16, high: u16, value: u16) -> bool
    ensures { result ≡ inside low high value }
{
    (low..=high).contains(&value)
}

// Whether there is such an edition.
pub fn is_edition_known(edition: u64) -> bool
    ensures { result ≡ edition_known edition }
{
    (1..=LAST_EDITION).contains(&edition)
}

// Whether a project can have so many years.
pub fn are_years_known(years: u64) -> bool
    ensures { result ≡ years_known years }
{
    (1..=MOST_YEARS).contains(&years)
}

// Tries the edition, then the years of a project.
pub fn check_project(edition: u64, years: u64) -> Result<(), Refusal>
    ensures { result ≡ checked (cond (edition_known edition) (cond (years_known years) 0 4) 3) }
{
    if !is_edition_known(edition) {
        return Err(Refusal::EditionUnknown);
    }
    if !are_years_known(years) {
        return Err(Refusal::OutsideLimits);
    }
    Ok(())
}

// A number that the rule takes.
pub fn does_allow(rule: Rule, value: u16) -> bool
    ensures { result ≡ allows rule value }
{
    match rule {
        Rule::Foreign | Rule::Lacking => false,
        Rule::Needed(low, high) | Rule::Optional(low, high) | Rule::Default(low, high, _) => {
            is_inside(low, high, value)
        }
    }
}

// What a field that does not stand is read as.
pub fn absent_of(rule: Rule) -> Slot
    ensures { result ≡ absent_of rule }
{
    match rule {
        Rule::Foreign | Rule::Lacking | Rule::Needed(_, _) | Rule::Optional(_, _) => None,
        Rule::Default(_, _, usual) => Some(usual),
    }
}

pub fn is_needed(rule: Rule) -> bool
    ensures { result ≡ needed rule }
{
    matches!(rule, Rule::Needed(_, _))
}

pub fn is_lacking(rule: Rule) -> bool
    ensures { result ≡ lacking rule }
{
    matches!(rule, Rule::Lacking)
}

// How many bits of the map a field has: one, or none where it is foreign.
pub fn bits_of(rule: Rule) -> u16
    ensures { (result ≡ bits rule) × (result ≤ 1) }
{
    match rule {
        Rule::Foreign => 0,
        _ => 1,
    }
}

// The rule of a field on a curve.
pub fn rule_of(entry: Entry) -> Rule
    ensures { result ≡ rule_of entry }
{
    match entry {
        Entry::Always(rule) | Entry::OnCurve(rule) => rule,
    }
}

pub fn is_on_curve(entry: Entry) -> bool
    ensures { result ≡ on_curve entry }
{
    matches!(entry, Entry::OnCurve(_))
}

// The rule of a field on this road.
fn settled_rule(curved: bool, entry: Entry) -> Rule
    ensures { result ≡ settled curved entry }
{
    match entry {
        Entry::Always(rule) => rule,
        Entry::OnCurve(rule) => if curved { rule } else { Rule::Lacking },
    }
}

// The rules of a road with a curve, or of a straight one.
pub fn settle_rules(curved: bool, entries: [Entry; SLOTS]) -> [Rule; SLOTS]
    ensures { result ≡ settle curved entries }
{
    array::from_fn(|i| settled_rule(curved, entries[i]))
}
