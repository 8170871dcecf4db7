// T laid out as a row of 471 places from 360 to 830 nm: the straight line through the samples, walked from sample to sample with
// no division, and what is carried beyond them. Samples and places are counted: T is said of a wavelength, and of what two
// iterators hand out together nothing is known behind a loop. The part stays a parameter of each: a type of its own would be built in
// one place, and be a second spectrum beside that one.
ghost use Rattle.std.specs.Prelude.{◌≡◌, ◌+◌, ◌*◌, ◌-◌, ◌^◌, ◌<◌, ◌≤◌, length, slice_index};
ghost use Rattle.grid.specs.Check.{last_of};
ghost use Rattle.spectrum.specs.Begin.{Begins};
ghost use Rattle.spectrum.specs.Lay.{row_of, Part, AtEnd, LaidTo};

use grid::rows::Sampled;

/// Where the part of a row that carries weight begins: at the sample at or just below 360 nm, or at the first one.
#[derive(Clone, Copy, Debug, PartialEq, Eq)]
pub struct Begin {
    pub place: usize,
    pub wavelength: u32,
}

/// Looks for 360 nm in a row.
pub fn begin_at_360(start: u32, step: u32) -> Begin
    requires { (0 < step) × (start ≤ 380) }
    ensures { Begins start step result }
{
    let j = 360u32.saturating_sub(start) / step;
    Begin {
        place: j as usize,
        wavelength: start + step * j,
    }
}

/// Lays T of a part that begins at, above or just below 360 nm, whatever its samples are. Each step is named, so that the compiler
/// knows it where the line is walked.
pub fn lay<N: Sampled>(first: u32, step: u32, part: &[N], row: &mut [u64; 471])
    requires { Part first step (length part.now) }
    ensures { row.new ≡ row_of first step (N.values part.now) }
{
    match step {
        1 => lay_by::<N, 1>(first, part, row),
        2 => lay_by::<N, 2>(first, part, row),
        5 => lay_by::<N, 5>(first, part, row),
        _ => lay_by::<N, 10>(first, part, row),
    }
}

// Below its first sample, up to its last one, and from there on.
fn lay_by<N: Sampled, const STEP: u32>(first: u32, part: &[N], row: &mut [u64; 471])
    requires { Part first STEP (length part.now) }
    ensures { row.new ≡ row_of first STEP (N.values part.now) }
{
    let last = part.len() - 1;
    carry::<N, STEP>(first, part, 0, 0, place_of(first), row);
    walk::<N, STEP>(first, part, row);
    let end = place_of(first + STEP * last as u32);
    carry::<N, STEP>(first, part, last, end, 471, row);
}

// Carries a sample at an end over the places from one to below another.
fn carry<N: Sampled, const STEP: u32>(
    first: u32,
    part: &[N],
    i: usize,
    low: usize,
    high: usize,
    row: &mut [u64; 471],
)
    requires part { Part first STEP (length part.now) }
    requires place { i < length part.now }
    requires order { (low ≤ high) × (high ≤ 471) }
    requires carried { AtEnd first STEP (N.values part.now) i low high }
    requires laid { LaidTo first STEP (N.values part.now) row.old low }
    ensures { LaidTo first STEP (N.values part.now) row.new high }
{
    let value = STEP as u64 * at(part, i);
    row[low..high].fill(value);
}

// First from 360 nm, which may be above the first sample, to the next sample; then from each sample to the next.
fn walk<N: Sampled, const STEP: u32>(first: u32, part: &[N], row: &mut [u64; 471])
    requires part { Part first STEP (length part.now) }
    requires laid { LaidTo first STEP (N.values part.now) row.old (first - 360) }
    ensures { LaidTo first STEP (N.values part.now) row.new (last_of first STEP (length part.now) - 360) }
{
    lay_between::<N, STEP>(first, part, 0, 360u32.saturating_sub(first), row);
    for i in 1..part.len() - 1 {
        lay_between::<N, STEP>(first, part, i, 0, row);
    }
}

// The line from so many nanometres above a sample up to the next one.
fn lay_between<N: Sampled, const STEP: u32>(
    first: u32,
    part: &[N],
    i: usize,
    from: u32,
    row: &mut [u64; 471],
)
    requires part { Part first STEP (length part.now) }
    requires place { i + 1 < length part.now }
    requires from { (from < STEP) × (360 ≤ first + STEP * i + from) }
    requires laid { LaidTo first STEP (N.values part.now) row.old (first + STEP * i + from - 360) }
    ensures { LaidTo first STEP (N.values part.now) row.new (first + STEP * (i + 1) - 360) }
{
    let here = at(part, i);
    let next = at(part, i + 1);
    let sample = first + STEP * i as u32;
    for d in from..STEP {
        row[(sample + d - 360) as usize] = (STEP - d) as u64 * here + d as u64 * next;
    }
}

// A sample's value.
fn at<N: Sampled>(part: &[N], i: usize) -> u64
    requires { i < length part.now }
    ensures value { result ≡ slice_index (N.values part.now) i }
    ensures fits { result < 2 ^ 32 }
{
    part[i].value() as u64
}

// The place of a wavelength in the row; 0 where it is below 360.
fn place_of(wavelength: u32) -> usize
    ensures { result ≡ wavelength - 360 }
{
    wavelength.saturating_sub(360) as usize
}
