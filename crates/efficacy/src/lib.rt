// The efficacy of each curve as it is worked: 683 for all, over the value of V, V10 or V′ at 555.017 nm, since their peaks are 1,
// and over that of a cone-fundamental curve, which has no peak factor.
#![tactic(auto)]

ghost use Rattle.std.specs.Prelude.{◌≡◌, ◌*◌};
ghost use Rattle.efficacy.specs.Divisors.{divisor_of};

use tables::Curve;

/// What a sum is multiplied by.
pub const FACTOR: u32 = 683;

// The values at 555.017 nm, at 10^16 to one.
const V: u64 = 9999975639000000;

const V_10: u64 = 9991212200000000;

const V_PRIME: u64 = 4017348000000000;

const V_F: u64 = 9994698474000000;

const V_F_10: u64 = 9997803305000000;

/// What it is divided by: s times the value at 555.017 nm.
pub fn divisor(curve: Curve, step: u32) -> u128
    ensures { result ≡ step * divisor_of curve }
{
    step as u128 * at_reference(curve) as u128
}

// x̄ and z̄ have that of ȳ, which is V or V10.
fn at_reference(curve: Curve) -> u64
    ensures { result ≡ divisor_of curve }
{
    match curve {
        Curve::XBar | Curve::YBar | Curve::ZBar => V,
        Curve::XBar10 | Curve::YBar10 | Curve::ZBar10 => V_10,
        Curve::VPrime => V_PRIME,
        Curve::VF => V_F,
        Curve::VF10 => V_F_10,
    }
}
