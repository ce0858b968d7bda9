// The pair of one term of a site: years at one traffic.
ghost use Rattle.std.specs.Prelude.{◌≡◌};
ghost use Rattle.site.specs.Writing.{Valid};
ghost use Rattle.header.specs.HeaderLaws.{HeaderWithin};
ghost use Rattle.model.specs.Coefficients.{coefficients_of};
ghost use Rattle.model.specs.Parts.{term_at};
ghost use Rattle.prediction.specs.Pair.{term_pair};
ghost use Rattle.prediction.specs.Terms.{TermSizes};

use crate::crossing::carry_crossing;
use crate::rounding::round_outward;
use crate::segment::carry_segment;
use crate::tables::Tables;
use bracket::Bounds;
use header::Header;
use site::numbers::{crossing_of, segment_of};
use site::values::Site;

// By the site's kind, with a header's edition and calibrations.
pub fn term_pair(
    tables: &Tables,
    header: Header,
    site: Site,
    years: u64,
    traffic: u64,
    minor: u64,
) -> Bounds
    requires { HeaderWithin header × Valid header.edition header.years site × TermSizes site (term_at years traffic minor) }
    ensures { result ≡ term_pair (coefficients_of header.edition) header site (term_at years traffic minor) }
{
    if site.kind == 0 {
        let road = segment_of(site, traffic);
        return round_outward(carry_segment(
            &tables.logarithms,
            header.edition,
            years,
            header.segments,
            road,
        ));
    }
    let crossing = crossing_of(site, traffic, minor);
    round_outward(carry_crossing(
        &tables.powers,
        &tables.exponentials,
        header.edition,
        years,
        header.crossings,
        crossing,
    ))
}
