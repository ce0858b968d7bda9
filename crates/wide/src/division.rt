// Division of a number of two words by a word, in two digits of 32 bits (Knuth's algorithm D).
ghost use Rattle.std.specs.Prelude.{◌≡◌, ◌+◌, ◌*◌, ◌/◌, ◌^◌, ◌≤◌, ◌<◌};

use crate::word::{Wide, product};

const BASE: u64 = 0x1_0000_0000;

// The power of two that brings d's top bit to bit 63.
fn norm(d: u64) -> u64
    requires { 0 < d }
    ensures { (2 ^ 63 ≤ d * result) × (d * result < 2 ^ 64) }
{
    1u64 << u64::leading_zeros(d)
}

// One digit of a quotient: the estimate from d's upper digit, lowered while it is too large.
fn digit(rest: u64, next: u64, d: u64) -> u64
    requires { (2 ^ 63 ≤ d) × (rest < d) × (next < 2 ^ 32) }
    ensures { (result * d ≤ rest * 2 ^ 32 + next) × (rest * 2 ^ 32 + next < result * d + d) × (result < 2 ^ 32) }
{
    let d1 = d / BASE;
    let d0 = d % BASE;
    let mut q = rest / d1;
    let mut r = rest % d1;
    while r < BASE {
        if q < BASE {
            if q * d0 <= r * BASE + next {
                return q;
            }
        }
        q -= 1;
        r += d1;
    }
    q
}

// What that digit leaves. The sum may pass 2^64 on the way, what is left does not.
fn left_over(rest: u64, next: u64, d: u64, q: u64) -> u64
    requires { (rest < d) × (next < 2 ^ 32) × (q * d ≤ rest * 2 ^ 32 + next) × (rest * 2 ^ 32 + next < q * d + d) × (q < 2 ^ 32) }
    ensures { q * d + result ≡ rest * 2 ^ 32 + next }
{
    let d1 = d / BASE;
    let d0 = d % BASE;
    let r = rest - q * d1;
    let t = r % BASE * BASE + next;
    let w = q * d0;
    if w <= t {
        t - w
    } else {
        t + (0xffff_ffff_ffff_ffff - w) + 1
    }
}

// w / d, for w.high < d.
fn divide(w: Wide, d: u64) -> u64
    requires { w.high < d }
    ensures { result ≡ (w.high * 2 ^ 64 + w.low) / d }
{
    let p = norm(d);
    let dn = d * p;
    let t = product(w.low, p);
    let low = t.low;
    let top = w.high * p + t.high;
    let q1 = digit(top, low / BASE, dn);
    let r1 = left_over(top, low / BASE, dn, q1);
    let q0 = digit(r1, low % BASE, dn);
    q1 * BASE + q0
}

// w / d for d below 2^32, in two digits: neither needs a correction.
fn short(w: Wide, d: u64) -> u64
    requires { (w.high < d) × (d < 2 ^ 32) }
    ensures { result ≡ (w.high * 2 ^ 64 + w.low) / d }
{
    let top = w.high * BASE + w.low / BASE;
    let next = top % d * BASE + w.low % BASE;
    top / d * BASE + next / d
}

// w / 2^s.
fn shift(w: Wide, s: u32) -> Wide
    requires { s < 64 }
    ensures { (result.high ≡ w.high / 2 ^ s) × (result.high * 2 ^ 64 + result.low ≡ (w.high * 2 ^ 64 + w.low) / 2 ^ s) }
{
    Wide {
        high: w.high >> s,
        low: (w.high << 1 << (63 - s)) + (w.low >> s),
    }
}

// How often d can be halved.
fn twos(d: u64) -> u32
    requires { 0 < d }
    ensures { (result < 64) × (d / 2 ^ result * 2 ^ result ≡ d) }
{
    u64::trailing_zeros(d)
}

// w / d: in short digits where d is below 2^32 without its twos, as the powers of ten up to 10^13 are.
fn divide_by(w: Wide, d: u64) -> u64
    requires { w.high < d }
    ensures { result ≡ (w.high * 2 ^ 64 + w.low) / d }
{
    let s = twos(d);
    let odd = d >> s;
    if odd >= BASE {
        return divide(w, d);
    }
    short(shift(w, s), odd)
}

// The same, by one hardware division where the number has one word.
pub(crate) fn quotient(w: Wide, d: u64) -> u64
    requires { w.high < d }
    ensures { result ≡ (w.high * 2 ^ 64 + w.low) / d }
{
    if w.high == 0 {
        return w.low / d;
    }
    divide_by(w, d)
}
