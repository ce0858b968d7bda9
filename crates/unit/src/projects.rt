// The project reader for programs in other languages.
ghost use Rattle.unit.specs.ProjectNumbers.{ReadsProject};

use report::read_project;

// Reads a project file and makes its report from the start of report: 0, with 4(sites + 1), the count of numbers written, in
// value and the rest of report as it was; or document 01's number, 1 to 10, with its place in value, and report as it was.
pub fn crash_project(file: &[u8], report: &mut [u64], value: &mut u64) -> u64
    ensures { ReadsProject file.now report.old report.new value.new result }
{
    match read_project(file, report) {
        Err(refused) => {
            *value = refused.place as u64;
            u64::from(refused.refusal)
        }
        Ok(count) => {
            *value = count as u64;
            0
        }
    }
}
