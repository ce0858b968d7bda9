// The text of a report and of a refusal, written into a lent buffer. Each function answers the place after what it wrote.
#![tactic(auto)]

ghost use Rattle.std.specs.Prelude.{◌≡◌, ◌+◌, ◌*◌, ◌≤◌, length};
ghost use Rattle.std.proofs.lemmas.List.Edits.{sets};
ghost use Rattle.report_text.specs.Text.{decimal_text, ended_text, line_text, report_text, refusal_text};
ghost use Rattle.laws.specs.Stores.{Puts};

// How many digits a number has.
fn digit_count(n: u64) -> usize
    ensures { result ≡ length (decimal_text n) }
{
    n.checked_ilog10().unwrap_or(0) as usize + 1
}

// Stores the digits of a number before a place, the last first.
fn put_digits(n: u64, out: &mut [u8], at: usize, end: usize)
    requires { (end ≡ at + length (decimal_text n)) × (end ≤ length out.old) }
    ensures { out.new ≡ sets out.old at (decimal_text n) }
{
    let mut rest = n;
    for i in (at + 1..end).rev() {
        out[i] = 48 + (rest % 10) as u8;
        rest /= 10;
    }
    out[at] = 48 + rest as u8;
}

// A number and the byte that ends it.
fn put_ended(n: u64, last: u8, out: &mut [u8], at: usize) -> usize
    requires { at + 21 ≤ length out.old }
    ensures { Puts out.old at (ended_text n last) result out.new × (result ≤ at + 21) }
{
    let end = at + digit_count(n);
    put_digits(n, out, at, end);
    out[end] = last;
    end + 1
}

// Four numbers as a line.
fn put_line(a: u64, b: u64, c: u64, d: u64, out: &mut [u8], at: usize) -> usize
    requires { at + 84 ≤ length out.old }
    ensures { Puts out.old at (line_text a b c d) result out.new × (result ≤ at + 84) }
{
    let first = put_ended(a, b' ', out, at);
    let second = put_ended(b, b' ', out, first);
    let third = put_ended(c, b' ', out, second);
    put_ended(d, b'\n', out, third)
}

// The lines of a report from the start of a buffer: a number takes at most 20 bytes and the one that ends it.
pub fn put_report(numbers: &[u64], out: &mut [u8]) -> usize
    requires { 21 * length numbers.now ≤ length out.old }
    ensures { Puts out.old 0 (report_text numbers.now) result out.new × (result ≤ length out.old) }
{
    let (lines, _) = numbers.as_chunks::<4>();
    let mut at = 0;
    for &[a, b, c, d] in lines {
        at = put_line(a, b, c, d, out, at);
    }
    at
}

// Bytes as they are.
fn put_bytes(bytes: &[u8], out: &mut [u8], at: usize) -> usize
    requires { at + length bytes.now ≤ length out.old }
    ensures { Puts out.old at bytes.now result out.new }
{
    let end = at + bytes.len();
    out[at..end].copy_from_slice(bytes);
    end
}

// The line of a refusal from the start of a buffer.
pub fn put_refusal(number: u64, place: usize, out: &mut [u8]) -> usize
    requires { 64 ≤ length out.old }
    ensures { Puts out.old 0 (refusal_text number place) result out.new × (result ≤ length out.old) }
{
    let first = put_bytes(b"refused ", out, 0);
    let second = put_ended(number, b' ', out, first);
    let third = put_bytes(b"at ", out, second);
    put_ended(place as u64, b'\n', out, third)
}
