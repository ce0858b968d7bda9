// The report of a project: a line for each site, and the totals. All records are read before the first number is written.
#![tactic(auto)]

pub mod fill;

ghost use Rattle.std.specs.Prelude.{◌≡◌, ◌≤◌, Ok};
ghost use Rattle.header.specs.Header.{most_sites};
ghost use Rattle.report.specs.Report.{spaced};
ghost use Rattle.report.specs.Demand.{ReportsProject};

use crate::fill::fill;
use project::{Refused, scan};
use site::refusal::Refusal;

// The space test: the count of a report's numbers, four for each site and four totals, where the run has room for them.
fn space(sites: usize, room: usize) -> Result<usize, Refused>
    requires { sites ≤ most_sites }
    ensures { result ≡ spaced (Ok sites) room }
{
    let count = 4 * (sites + 1);
    if room < count {
        return Err(Refused {
            refusal: Refusal::NoSpace,
            place: 0,
        });
    }
    Ok(count)
}

// Reads a project and makes its report from the start of a lent run: the count of numbers written. The rest of the run, and all of it where the project is
// refused, stays as it was.
pub fn read_project(file: &[u8], report: &mut [u64]) -> Result<usize, Refused>
    ensures { ReportsProject file.now report.old report.new result }
{
    let sites = scan(file)?;
    let count = space(sites, report.len())?;
    fill(file, report);
    Ok(count)
}
