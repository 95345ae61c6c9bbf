//! The places of a product by limbs.

ghost use Rattle.air_core.specs.Ring.{field};
ghost use Rattle.std.specs.Prelude.{◌≡◌};
ghost use Rattle.gadget_products.specs.Product.{place, places};

use vm_field::Fe;

/// Place `i` of the product: the sum of b_j * c_(i - j).
pub fn place(b: &[Fe], c: &[Fe], i: usize) -> Fe
    ensures { result ≡ (place field) b.now c.now i }
{
    let mut sum = Fe::ZERO;
    for j in 0..b.len() {
        if j > i {
            return sum;
        }
        if i - j < c.len() {
            sum = sum.add(b[j].mul(c[i - j]));
        }
    }
    sum
}

/// The places of the product from the lowest on.
pub fn places<const N: usize>(b: &[Fe], c: &[Fe]) -> [Fe; N]
    ensures { result ≡ places field b.now c.now 0 N }
{
    let mut sums = [Fe::ZERO; N];
    for i in 0..N {
        sums[i] = place(b, c, i);
    }
    sums
}
