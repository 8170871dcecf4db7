// The weighted sums of a light, whose line is laid over a row once and weighed by every curve that is asked for.
ghost use Rattle.std.specs.Prelude.{◌≡◌, ◌+◌, ◌*◌, ◌-◌, ◌≤◌};
ghost use Rattle.grid.specs.Check.{Within};
ghost use Rattle.readings.specs.Readings.{seen_of, light_sums, sums_of};
ghost use Rattle.readings.specs.Sums.{row_sums};

use crate::Light;
use answers::sums::Sums;
use curves::weigh::weigh;
use grid::Refusal;
use tables::settings::Observer;

/// k · day + (1000 - k) · night. No sum is above 10 · 1,000,000 times a table's, which is at most 2 · 10^15, and no divisor is
/// either.
#[tactic(auto, using(crate::proofs::Setting::mixed_most))]
pub fn at_setting(k: u32, day: u128, night: u128) -> u128
    requires setting { k ≤ 1000 }
    requires by_day { day ≤ 20000000000000000000000 }
    requires by_night { night ≤ 20000000000000000000000 }
    ensures mixed { result ≡ k * day + (1000 - k) * night }
    ensures most { result ≤ 20000000000000000000000000 }
{
    k as u128 * day + (1000 - k) as u128 * night
}

/// The sums of a row by the observer's three curves.
pub fn row_sums(observer: Observer, row: &[u64; 471]) -> Sums
    requires { Within 10000000 row.now }
    ensures { result ≡ row_sums observer row.now }
{
    let curves = observer.curves();
    Sums::new(
        weigh(curves.x, row),
        weigh(curves.y, row),
        weigh(curves.z, row),
    )
}

/// Those of a light.
#[tactic(auto, using(crate::proofs::Rows::row_small, crate::proofs::Rows::row_sums_are))]
pub fn light_sums(observer: Observer, light: &Light) -> Sums
    ensures { result ≡ light_sums observer light.now.start light.now.step light.now.samples }
{
    let mut row = [0u64; 471];
    light.lay(&mut row);
    row_sums(observer, &row)
}

/// An observer and a light: OBSERVER, STEP, START, COUNT, SAMPLE.
#[tactic(auto, unfolding(crate::specs::Readings::seen_of))]
pub fn seen(
    observer: u32,
    start: u32,
    step: u32,
    samples: &[u32],
) -> Result<(Observer, Light), Refusal>
    ensures { result ≡ seen_of observer start step samples.now }
{
    let observer = Observer::try_from(observer)?;
    let light = Light::new(start, step, samples)?;
    Ok((observer, light))
}

/// The three sums that are seen.
#[tactic(auto, unfolding(crate::specs::Readings::sums_of))]
pub fn sums(observer: u32, start: u32, step: u32, samples: &[u32]) -> Result<Sums, Refusal>
    ensures { result ≡ sums_of observer start step samples.now }
{
    let (observer, light) = seen(observer, start, step, samples)?;
    Ok(light_sums(observer, &light))
}
