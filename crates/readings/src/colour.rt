// X, Y, Z, the coordinates x, y and u′, v′, and the chart's point of a light, all from the same three exact sums.
ghost use Rattle.std.specs.Prelude.{◌≡◌};
ghost use Rattle.readings.specs.Readings.{light_xyz, xyz_of, xy_of, uv_of, chart_of};

use crate::Light;
use crate::sums::{light_sums, seen, sums};
use answers::{OnChart, Uv, Xy, Xyz};
use efficacy::{FACTOR, divisor};
use grid::Refusal;
use tables::settings::Observer;

/// X, Y and Z in millilux: OBSERVER, STEP, START, COUNT, SAMPLE.
#[tactic(auto, unfolding(crate::specs::Readings::xyz_of))]
pub fn xyz(observer: u32, start: u32, step: u32, samples: &[u32]) -> Result<Xyz, Refusal>
    ensures { result ≡ xyz_of observer start step samples.now }
{
    let (observer, light) = seen(observer, start, step, samples)?;
    Ok(light_xyz(observer, &light))
}

// An observer's three curves have one efficacy.
#[tactic(auto, using(crate::proofs::Rows::xyz_fit, crate::proofs::Worked::xyz_worked))]
fn light_xyz(observer: Observer, light: &Light) -> Xyz
    ensures { result ≡ light_xyz observer light.now.start light.now.step light.now.samples }
{
    let divisor = divisor(observer.curves().y, light.step());
    light_sums(observer, light).xyz(FACTOR, divisor)
}

/// x and y in hundred-thousandths: OBSERVER, STEP, START, COUNT, SAMPLE, DARK.
#[tactic(auto, unfolding(crate::specs::Readings::xy_of))]
pub fn xy(observer: u32, start: u32, step: u32, samples: &[u32]) -> Result<Xy, Refusal>
    ensures { result ≡ xy_of observer start step samples.now }
{
    sums(observer, start, step, samples)?.xy()
}

/// u′ and v′ in hundred-thousandths: OBSERVER, STEP, START, COUNT, SAMPLE, DARK.
#[tactic(auto, unfolding(crate::specs::Readings::uv_of))]
pub fn uv(observer: u32, start: u32, step: u32, samples: &[u32]) -> Result<Uv, Refusal>
    ensures { result ≡ uv_of observer start step samples.now }
{
    sums(observer, start, step, samples)?.uv()
}

/// The chart's point, or dark: OBSERVER, STEP, START, COUNT, SAMPLE.
#[tactic(auto, unfolding(crate::specs::Readings::chart_of))]
pub fn chart(observer: u32, start: u32, step: u32, samples: &[u32]) -> Result<OnChart, Refusal>
    ensures { result ≡ chart_of observer start step samples.now }
{
    Ok(sums(observer, start, step, samples)?.chart())
}
