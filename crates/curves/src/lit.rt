// A row of reflected light under an illuminant, weighed by the curves. The two rows that it is held in are lent: as a struct's
// own they would be cleared and copied at each call, which takes longer than the sums.
ghost use Rattle.std.specs.Prelude.{◌≡◌, ◌≤◌, ◌^◌, length};
ghost use Rattle.grid.specs.Check.{Within};
ghost use Rattle.mixing.specs.Sum.{weighted};
ghost use Rattle.tables.specs.Curves.{weight_of};
ghost use Rattle.curves.specs.Lit.{IsLit, lit_line};

use crate::weigh::weigh;
use tables::{Curve, Illuminant};

/// Power times row at each place, which passes 32 bits: how often it has 2^21, and in the row's place the 21 bits that are left.
/// The row holds a step of at most 10 times a reflectance of at most 10,000 at each place.
pub fn light(illuminant: Illuminant, high: &mut [u64; 471], low: &mut [u64; 471])
    requires { Within 100000 low.old }
    ensures lit { IsLit illuminant low.old high.new low.new }
    ensures high_small { Within 10000000 high.new }
    ensures low_small { Within 2097151 low.new }
    ensures long { (length high.new ≡ 471) × (length low.new ≡ 471) }
{
    let powers = illuminant.powers();
    // By place: of two rows that are changed through one chain nothing is known behind it.
    for k in 0..471 {
        // The row is below 2^32 as it stands, and the remainder says so to the compiler.
        let product = powers[k] as u64 * (low[k] % 4294967296);
        high[k] = product / 2097152;
        low[k] = product % 2097152;
    }
}

/// The weighted sum of such a row. Each of the two is weighed as light is.
pub fn weigh_lit(curve: Curve, high: &[u64; 471], low: &[u64; 471]) -> u128
    requires high { Within 10000000 high.now }
    requires low { Within 2097151 low.now }
    ensures sum { result ≡ weighted 471 (weight_of curve) (lit_line high.now low.now) }
    ensures most { result ≤ 2 ^ 96 }
{
    2097152 * weigh(curve, high) + weigh(curve, low)
}
