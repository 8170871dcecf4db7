// The white sum of each illuminant and observer, worked out beforehand: each is proved to be its sum over 360 to 830 nm.
ghost use Rattle.std.specs.Prelude.{◌≡◌, ◌*◌};
ghost use Rattle.panel.specs.Panel.{white_sum};

use tables::Illuminant;
use tables::settings::Observer;

/// s times the white sum.
#[tactic(auto, using(crate::proofs::Sized::white_small))]
pub fn divisor(observer: Observer, illuminant: Illuminant, step: u32) -> u128
    ensures { result ≡ step * white_sum observer illuminant }
{
    step as u128 * white(observer, illuminant)
}

#[tactic(auto, using(tables::proofs::Lit::lit_sum_lem), unfolding(crate::specs::Panel::white_sum))]
fn white(observer: Observer, illuminant: Illuminant) -> u128
    ensures { result ≡ white_sum observer illuminant }
{
    match (observer, illuminant) {
        (Observer::Two, Illuminant::A) => 10789559695313886949330,
        (Observer::Two, Illuminant::D65) => 10567081666988122222240,
        (Observer::Ten, Illuminant::A) => 11379260143253935908460,
        (Observer::Ten, Illuminant::D65) => 11620348647650694114000,
    }
}
