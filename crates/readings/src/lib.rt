// Every reading of a light. The illuminances are here. Who looks is asked for by number, not by `Observer`: any number has its
// answer, and its refusal its place in the order.
#![tactic(auto)]

pub mod colour;
pub mod figures;
mod sums;

ghost use Rattle.std.specs.Prelude.{◌≡◌, ◌≤◌};
ghost use Rattle.readings.specs.Readings.{illuminance_of, photopic_of, scotopic_of, photopic10_of, research_of, millilux, mesopic_of, mesopic_millilux};

use crate::sums::at_setting;
use curves::weigh::weigh;
use efficacy::{FACTOR, divisor};
use exact::nearest;
use grid::{Kind, Refusal, require};
use spectrum::Spectrum;
use tables::Curve;

/// Samples whose refusals are behind them.
pub type Light<'a> = Spectrum<'a, u32>;

/// Photopic illuminance in millilux: STEP, START, COUNT, SAMPLE.
pub fn photopic(start: u32, step: u32, samples: &[u32]) -> Result<u32, Refusal>
    ensures { result ≡ photopic_of start step samples.now }
{
    illuminance(Curve::YBar, start, step, samples)
}

/// Scotopic illuminance in millilux: STEP, START, COUNT, SAMPLE.
pub fn scotopic(start: u32, step: u32, samples: &[u32]) -> Result<u32, Refusal>
    ensures { result ≡ scotopic_of start step samples.now }
{
    illuminance(Curve::VPrime, start, step, samples)
}

/// 10° photopic illuminance in millilux: STEP, START, COUNT, SAMPLE.
pub fn photopic_10(start: u32, step: u32, samples: &[u32]) -> Result<u32, Refusal>
    ensures { result ≡ photopic10_of start step samples.now }
{
    illuminance(Curve::YBar10, start, step, samples)
}

/// Illuminance in millilux by a cone-fundamental curve, of 2° for the number 32 and of 10° for 40: OBSERVER, STEP, START, COUNT,
/// SAMPLE.
pub fn research(observer: u32, start: u32, step: u32, samples: &[u32]) -> Result<u32, Refusal>
    ensures { result ≡ research_of observer start step samples.now }
{
    match observer {
        32 => illuminance(Curve::VF, start, step, samples),
        40 => illuminance(Curve::VF10, start, step, samples),
        _ => Err(Kind::Observer.into()),
    }
}

#[tactic(auto, unfolding(crate::specs::Readings::illuminance_of))]
fn illuminance(curve: Curve, start: u32, step: u32, samples: &[u32]) -> Result<u32, Refusal>
    ensures { result ≡ illuminance_of curve start step samples.now }
{
    let light = Light::new(start, step, samples)?;
    Ok(millilux(curve, &light))
}

// By a curve, in millilux.
#[tactic(auto, using(crate::proofs::Rows::row_small, crate::proofs::Rows::row_millilux, crate::proofs::Rows::row_fits))]
fn millilux(curve: Curve, light: &Light) -> u32
    ensures { result ≡ millilux curve light.now.start light.now.step light.now.samples }
{
    let mut row = [0u64; 471];
    light.lay(&mut row);
    nearest(
        FACTOR as u128 * weigh(curve, &row),
        divisor(curve, light.step()),
    )
}

/// The illuminance between day and night vision, at k thousandths, in millilux: MESOPIC, STEP, START, COUNT, SAMPLE.
#[tactic(auto, unfolding(crate::specs::Readings::mesopic_of))]
pub fn mesopic(k: u32, start: u32, step: u32, samples: &[u32]) -> Result<u32, Refusal>
    ensures { result ≡ mesopic_of k start step samples.now }
{
    require(k <= 1000, Kind::Mesopic)?;
    let light = Light::new(start, step, samples)?;
    Ok(mesopic_millilux(k, &light))
}

#[tactic(auto, using(crate::proofs::Rows::row_small, crate::proofs::Rows::row_mesopic, crate::proofs::Rows::row_mesopic_fits))]
fn mesopic_millilux(k: u32, light: &Light) -> u32
    requires { k ≤ 1000 }
    ensures { result ≡ mesopic_millilux k light.now.start light.now.step light.now.samples }
{
    let mut row = [0u64; 471];
    light.lay(&mut row);
    let sum = at_setting(k, weigh(Curve::YBar, &row), weigh(Curve::VPrime, &row));
    let step = light.step();
    let divisor = at_setting(k, divisor(Curve::YBar, step), divisor(Curve::VPrime, step));
    nearest(FACTOR as u128 * sum, divisor)
}
