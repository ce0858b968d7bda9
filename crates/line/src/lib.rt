// The line of a site: its predicted and expected pairs, four whole numbers of millionths.
#![tactic(auto)]

pub mod expected;

ghost use Rattle.std.specs.Prelude.{◌≡◌};
ghost use Rattle.site.specs.Writing.{Valid};
ghost use Rattle.header.specs.HeaderLaws.{HeaderWithin};
ghost use Rattle.model.specs.Coefficients.{coefficients_of};
ghost use Rattle.line.specs.Line.{site_line, line_answer, line_number, line_refusal};
ghost use Rattle.line.specs.Stands.{AnswerStands};

use crate::expected::weigh;
use factors::coefficients::overdispersion;
use header::{Header, is_in_limits};
use prediction::predicted_with;
use prediction::tables::{Tables, stored_tables};
use site::numbers::number;
use site::rules::is_edition_known;
use site::values::Site;
use site_writer::is_sound;

// What a report has for one site.
#[derive(Clone, Copy)]
pub struct Line {
    pub predicted_low: u64,
    pub predicted_high: u64,
    pub expected_low: u64,
    pub expected_high: u64,
}

// Why there is no line: there is no such edition, a header value is outside its limits, or the site is outside its range.
#[derive(Clone, Copy, PartialEq, Eq)]
pub enum LineRefusal {
    EditionUnknown,
    OutsideLimits,
    OutsideRange,
}

// The line of a valid site, with the stored numbers lent.
pub fn line_with(tables: &Tables, header: Header, site: Site) -> Line
    requires { HeaderWithin header × Valid header.edition header.years site }
    ensures { result ≡ site_line (coefficients_of header.edition) header site }
{
    let kind = site.kind;
    let observed = site.observed;
    let length = site.length;
    let k = overdispersion(header.edition, kind, number(length));
    let predicted = predicted_with(tables, header, site);
    let expected = weigh(k, observed, predicted);
    Line {
        predicted_low: predicted.low,
        predicted_high: predicted.high,
        expected_low: expected.low,
        expected_high: expected.high,
    }
}

// The line of a site, or the first refusal: the edition, then a header value outside its limits, then the site outside its range.
pub fn line_of(header: Header, site: Site) -> Result<Line, LineRefusal>
    ensures value { result ≡ line_answer (coefficients_of header.edition) header site }
    ensures number { line_number result ≡ line_refusal header site }
    ensures stands { AnswerStands (coefficients_of header.edition) header site result }
{
    if !is_edition_known(header.edition) {
        return Err(LineRefusal::EditionUnknown);
    }
    if !is_in_limits(header) {
        return Err(LineRefusal::OutsideLimits);
    }
    if !is_sound(header.edition, header.years, site) {
        return Err(LineRefusal::OutsideRange);
    }
    Ok(line_with(&stored_tables(), header, site))
}
