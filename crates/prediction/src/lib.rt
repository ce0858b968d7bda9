// The predicted pair of a site, in millionths of a crash: for each of its terms an exact start carried through the brackets of the
// site's factors, and rounded outward. The stored numbers of powers, logarithms and exponentials are lent.
#![tactic(auto)]

pub mod crossing;
pub mod rounding;
pub mod segment;
pub mod stored;
pub mod tables;
pub mod term;
pub mod yearly;

ghost use Rattle.std.specs.Prelude.{◌≡◌};
ghost use Rattle.site.specs.Writing.{Valid};
ghost use Rattle.header.specs.HeaderLaws.{HeaderWithin};
ghost use Rattle.model.specs.Coefficients.{coefficients_of};
ghost use Rattle.prediction.specs.Pair.{predicted_pair};

use crate::tables::Tables;
use crate::term::term_pair;
use crate::yearly::{add_pair, count_of, traffic_in, years_of};
use bracket::Bounds;
use header::Header;
use site::values::{Site, is_yearly};

// The pair of a valid site in a header's edition, over its years and calibrations: the sum over its terms, one of all the years or
// one for each.
pub fn predicted_with(tables: &Tables, header: Header, site: Site) -> Bounds
    requires { HeaderWithin header × Valid header.edition header.years site }
    ensures { result ≡ predicted_pair (coefficients_of header.edition) header site }
{
    let traffic = site.traffic;
    let minor = site.minor_traffic;
    let later = site.later_traffic;
    let later_minor = site.later_minor;
    let yearly = is_yearly(site);
    let years = years_of(header.years, yearly);
    let count = count_of(header.years, yearly);
    let mut sum = Bounds { low: 0, high: 0 };
    for year in 0..count {
        let next = term_pair(
            tables,
            header,
            site,
            years,
            traffic_in(traffic, later, year),
            traffic_in(minor, later_minor, year),
        );
        sum = add_pair(sum, next);
    }
    sum
}
