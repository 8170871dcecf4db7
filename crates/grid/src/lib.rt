// Refusals, and the checks that every spectrum, panel and record shares: step, start, count, and the limit of a row.
#![tactic(auto)]

pub mod refusals;
pub mod rows;

ghost use Rattle.std.specs.Prelude.{◌≡◌, true, length};
ghost use Rattle.grid.specs.Check.{grid_check, is_step, is_start, is_count, spectrum_check};

pub use crate::refusals::{Kind, Refusal, require};
use crate::rows::{Sampled, check_limit};

/// STEP, START, COUNT, in this order.
#[tactic(auto, unfolding(crate::specs::Check::grid_check))]
pub fn check_grid(start: u32, step: u32, count: usize) -> Result<(), Refusal>
    ensures { result ≡ grid_check start step count }
{
    require(is_step(step), Kind::Step)?;
    require(is_start(start), Kind::Start)?;
    require(is_count(start, step, count), Kind::Count)
}

fn is_step(step: u32) -> bool
    ensures { result ≡ is_step step }
{
    matches!(step, 1 | 2 | 5 | 10)
}

fn is_start(start: u32) -> bool
    ensures { result ≡ is_start start }
{
    (300..=380).contains(&start)
}

fn is_count(start: u32, step: u32, count: usize) -> bool
    requires { (is_step step ≡ true) × (is_start start ≡ true) }
    ensures { result ≡ is_count start step count }
{
    // More samples than this pass 830 at every step, so the last wavelength below can't wrap.
    if count == 0 || 531 < count {
        return false;
    }
    let last = start + step * (count as u32 - 1);
    (780..=830).contains(&last)
}

/// STEP, START, COUNT, and then SAMPLE or REFLECTANCE, in this order.
#[tactic(auto, unfolding(crate::specs::Check::spectrum_check))]
pub fn check_spectrum<N: Sampled>(start: u32, step: u32, row: &[N]) -> Result<(), Refusal>
    ensures { result ≡ spectrum_check N.FAULT N.LIMIT start step (N.values row.now) }
{
    check_grid(start, step, row.len())?;
    check_limit(row)
}
