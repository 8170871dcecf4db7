// The figures of the report, at observer 2, in one call: the row is laid once, and each sum is made once.
ghost use Rattle.std.specs.Prelude.{◌≡◌};
ghost use Rattle.readings.specs.Readings.{light_figures, figures_of};

use crate::Light;
use crate::sums::row_sums;
use answers::{Xy, Xyz};
use curves::weigh::weigh;
use efficacy::{FACTOR, divisor};
use exact::nearest;
use grid::Refusal;
use tables::Curve;
use tables::settings::Observer;

/// x and y may be refused as dark.
#[derive(Clone, Copy, Debug, PartialEq, Eq)]
pub struct ReportFigures {
    pub photopic: u32,
    pub scotopic: u32,
    pub xyz: Xyz,
    pub xy: Result<Xy, Refusal>,
}

/// The figures of the report: STEP, START, COUNT, SAMPLE.
#[tactic(auto, unfolding(crate::specs::Readings::figures_of))]
pub fn figures(start: u32, step: u32, samples: &[u32]) -> Result<ReportFigures, Refusal>
    ensures { result ≡ figures_of start step samples.now }
{
    let light = Light::new(start, step, samples)?;
    Ok(light_figures(&light))
}

// Photopic is Y, which is not divided twice.
#[tactic(auto, using(crate::proofs::Rows::row_small, crate::proofs::Rows::row_xyz_fit, crate::proofs::Rows::row_fits))]
fn light_figures(light: &Light) -> ReportFigures
    ensures { result ≡ light_figures light.now.start light.now.step light.now.samples }
{
    let mut row = [0u64; 471];
    light.lay(&mut row);
    let step = light.step();
    let sums = row_sums(Observer::Two, &row);
    let xyz = sums.xyz(FACTOR, divisor(Curve::YBar, step));
    let night = weigh(Curve::VPrime, &row);
    ReportFigures {
        photopic: xyz.y,
        scotopic: nearest(FACTOR as u128 * night, divisor(Curve::VPrime, step)),
        xyz,
        xy: sums.xy(),
    }
}
