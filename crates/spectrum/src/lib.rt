// A sampled spectrum that is accepted, and T, the spectrum times its step, at the whole nanometres 360 to 830.
#![tactic(auto)]

pub mod line;

ghost use Rattle.std.specs.Prelude.{◌≡◌};
ghost use Rattle.spectrum.specs.Lay.{row_of};
ghost use Rattle.spectrum.specs.Spectrum.{Accepted, spectrum_of};

use crate::line::{begin_at_360, lay};
use grid::rows::Sampled;
use grid::{Refusal, check_spectrum};
use std::marker::Model;

/// Samples or reflectances on a grid, whose refusals are behind it.
#[derive(Drop)]
pub struct Spectrum<'a, N: Sampled> {
    start: u32,
    step: u32,
    samples: &'a [N],
}

impl<'a, N: Sampled> Model for Spectrum<'a, N> {
    ghost use Rattle.spectrum.specs.Spectrum.{Measured, Accepted};

    ghost Value = { Measured };

    ghost view = { λ l. record { start = l.start; step = l.step; samples = N.values l.samples.now } };

    ghost invariant = { λ l. Accepted N.LIMIT (record { start = l.start; step = l.step; samples = N.values l.samples.now }) };
}

impl<'a, N: Sampled> Spectrum<'a, N> {
    /// STEP, START, COUNT, then SAMPLE or REFLECTANCE.
    #[tactic(auto, unfolding(crate::specs::Spectrum::spectrum_of))]
    pub fn new(start: u32, step: u32, samples: &'a [N]) -> Result<Spectrum<'a, N>, Refusal>
        ensures { result ≡ spectrum_of N.FAULT N.LIMIT start step (N.values samples.now) }
    {
        check_spectrum(start, step, samples)?;
        Ok(Spectrum {
            start,
            step,
            samples,
        })
    }

    /// Its step in nanometres.
    pub fn step(&self) -> u32
        ensures step { result ≡ self.now.step }
        ensures accepted { Accepted N.LIMIT self.now }
    {
        self.step
    }

    /// Lays T out as a row of 471 places. What carries weight is the part from the sample at or just below 360 nm on.
    pub fn lay(&self, row: &mut [u64; 471])
        ensures row { row.new ≡ row_of self.now.start self.now.step self.now.samples }
        ensures accepted { Accepted N.LIMIT self.now }
    {
        let begin = begin_at_360(self.start, self.step);
        let j = begin.place;
        lay(begin.wavelength, self.step, &self.samples[j..], row);
    }
}
