// The order of two products, each exact in two words.
ghost use Rattle.std.specs.Prelude.{◌≡◌, ◌+◌, ◌*◌, ◌^◌};
ghost use Rattle.std.proofs.Math.Dec.{ltb};

use crate::word::{Wide, product};

// Whether v < w.
fn is_below(v: Wide, w: Wide) -> bool
    ensures { result ≡ ltb (v.high * 2 ^ 64 + v.low) (w.high * 2 ^ 64 + w.low) }
{
    v < w
}

// Whether a * b < c * d. With b and d not 0 it is whether a / d < c / b.
pub fn is_product_below(a: u64, b: u64, c: u64, d: u64) -> bool
    ensures { result ≡ ltb (a * b) (c * d) }
{
    is_below(product(a, b), product(c, d))
}
