// The numbers of a report, filled in from the records of an accepted file.
ghost use Rattle.std.specs.Prelude.{◌≡◌, ◌+◌, ◌≤◌, length, drop};
ghost use Rattle.std.proofs.lemmas.List.Edits.{sets};
ghost use Rattle.site.specs.Record.{read_site};
ghost use Rattle.laws.specs.Lent.{laid_over};
ghost use Rattle.header.specs.Header.{header_length};
ghost use Rattle.header.specs.HeaderLaws.{HeaderWithin};
ghost use Rattle.model.specs.Coefficients.{coefficients_of};
ghost use Rattle.line.specs.Weighing.{LineAtMost};
ghost use Rattle.report.specs.Report.{numbers_of, no_line, add_line, report_numbers, lines_in};
ghost use Rattle.report.specs.Demand.{Demand};
ghost use Rattle.report.specs.Fill.{fill_from, record_line, most_total, Fillable, Acceptable};

use header::{HEADER_LENGTH, Header, count_in, header_in};
use line::{Line, line_with};
use prediction::tables::{Tables, stored_tables};
use site_reader::read_site;

// The line of the record that starts at a place and the record's length in bytes, where a record is read there.
fn line_at(tables: &Tables, file: &[u8], at: usize, header: Header) -> Option<(Line, usize)>
    requires { (at ≤ length file.now) × HeaderWithin header }
    ensures { result ≡ record_line (coefficients_of header.edition) header (read_site header.edition header.years (drop at file.now)) }
{
    let Ok((site, n)) = read_site(header.edition, header.years, &file[at..]) else {
        return None;
    };
    let line = line_with(tables, header, site);
    Some((line, n))
}

// Stores a line's four numbers from a place on.
fn put_line(line: Line, report: &mut [u64], at: usize)
    requires { at + 4 ≤ length report.old }
    ensures { report.new ≡ sets report.old at (numbers_of line) }
{
    report[at] = line.predicted_low;
    report[at + 1] = line.predicted_high;
    report[at + 2] = line.expected_low;
    report[at + 3] = line.expected_high;
}

// Totals with one line more.
fn add_line(total: Line, line: Line) -> Line
    requires { LineAtMost most_total total × LineAtMost most_total line }
    ensures { result ≡ add_line total line }
{
    Line {
        predicted_low: total.predicted_low + line.predicted_low,
        predicted_high: total.predicted_high + line.predicted_high,
        expected_low: total.expected_low + line.expected_low,
        expected_high: total.expected_high + line.expected_high,
    }
}

// The lines of the records one after another, and the totals after them.
fn fill_lines(tables: &Tables, file: &[u8], header: Header, sites: usize, report: &mut [u64])
    requires { Fillable (coefficients_of header.edition) file.now header sites (length report.old) }
    ensures { report.new ≡ sets report.old 0 (fill_from (coefficients_of header.edition) header sites header_length no_line file.now) }
{
    let mut total = Line {
        predicted_low: 0,
        predicted_high: 0,
        expected_low: 0,
        expected_high: 0,
    };
    let mut at = HEADER_LENGTH;
    for i in 0..sites {
        let next = line_at(tables, file, at, header);
        let Some((line, n)) = next else {
            return;
        };
        put_line(line, report, 4 * i);
        total = add_line(total, line);
        at += n;
    }
    put_line(total, report, 4 * sites);
}

// The report of an accepted file, from the start of a run that has room for it; the stored numbers are made once.
pub(crate) fn fill(file: &[u8], report: &mut [u64])
    requires { Acceptable file.now (length report.old) }
    ensures report_after { report.new ≡ laid_over (report_numbers (lines_in file.now)) report.old }
    ensures demand { Demand file.now report.new }
{
    let tables = stored_tables();
    let header = header_in(file);
    let sites = count_in(file);
    fill_lines(&tables, file, header, sites, report);
}
