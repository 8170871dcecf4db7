// An input from its draws.
ghost use Rattle.std.specs.Prelude.{◌≡◌, ◌*◌, ◌%◌, ◌<◌, ◌≤◌, length, take};
ghost use Rattle.many.specs.Generator.{step_from, start_from, observer_from, illuminant_from};

/// Draws, each from the one before.
#[derive(Clone, Copy)]
pub struct Draws {
    last: u64,
    ghost in_range: { last < 2147483647 },
}

impl Draws {
    pub(crate) fn from(seed: u64) -> Draws
        requires { seed < 2147483647 }
        ensures { result.last ≡ seed }
    {
        Draws { last: seed }
    }

    pub(crate) fn draw(&mut self) -> u64
        ensures draw { result ≡ self.old.last * 48271 % 2147483647 }
        ensures last { self.new.last ≡ result }
    {
        self.last = self.last * 48271 % 2147483647;
        self.last
    }
}

/// What is asked, by number as readings take it, bad ones too, and of which samples and reflectances: so many of rows of fixed length.
#[derive(Drop)]
pub struct Input {
    pub k: u32,
    pub observer: u32,
    pub illuminant: u32,
    pub start: u32,
    pub step: u32,
    pub count: usize,
    samples: [u32; 532],
    reflectances: [u16; 532],
    ghost in_rows: { count ≤ 532 },
}

impl Input {
    /// Made of the draws.
    pub(crate) fn from(draws: &mut Draws) -> Input {
        for _ in 0..3 {
            draws.draw();
        }
        let step = step_from(draws.draw());
        let start = start_from(draws.draw());
        let count = count_from(draws.draw(), start, step);
        let mode = draws.draw() % 8;
        let mut samples = [0; 532];
        fill(mode, draws, &mut samples[..count]);
        put_one(mode, draws, &mut samples[..count]);
        let k = setting_from(draws.draw());
        let observer = observer_from(draws.draw());
        let illuminant = illuminant_from(draws.draw());
        let mut reflectances = [0; 532];
        for (reflectance, sample) in reflectances.iter_mut().zip(&samples) {
            *reflectance = reflectance_from(mode, *sample);
        }
        Input {
            k,
            observer,
            illuminant,
            start,
            step,
            count,
            samples,
            reflectances,
        }
    }

    pub(crate) fn samples(&self) -> &[u32]
        ensures { result.now ≡ take self.now.count self.now.samples }
    {
        &self.samples[..self.count]
    }

    pub(crate) fn reflectances(&self) -> &[u16]
        ensures { result.now ≡ take self.now.count self.now.reflectances }
    {
        &self.reflectances[..self.count]
    }
}

static STEPS: [u32; 16] = [1, 2, 5, 10, 1, 2, 5, 10, 1, 2, 5, 10, 1, 2, 3, 0];

static STARTS: [u32; 4] = [299, 381, 0, 4294967295];

static OBSERVERS: [u32; 16] = [2, 10, 2, 10, 2, 10, 2, 10, 32, 40, 32, 40, 32, 40, 3, 0];

static ILLUMINANTS: [u32; 8] = [1, 2, 1, 2, 1, 2, 0, 3];

// Each of these is as the definitions and the second program have it.
fn step_from(d: u64) -> u32
    ensures { result ≡ step_from d }
{
    STEPS[(d % 16) as usize]
}

fn start_from(d: u64) -> u32
    ensures { result ≡ start_from d }
{
    if d % 13 == 0 {
        STARTS[(d / 13 % 4) as usize]
    } else {
        300 + (d % 81) as u32
    }
}

fn observer_from(d: u64) -> u32
    ensures { result ≡ observer_from d }
{
    OBSERVERS[(d % 16) as usize]
}

fn illuminant_from(d: u64) -> u32
    ensures { result ≡ illuminant_from d }
{
    ILLUMINANTS[(d % 8) as usize]
}

fn setting_from(d: u64) -> u32
    ensures { result ≡ d % 1100 }
{
    (d % 1100) as u32
}

// One count in eleven is odd for a grid; the others end from 780 to 830 nm where they can.
fn count_from(d: u64, start: u32, step: u32) -> usize
    ensures { result ≤ 532 }
{
    if d % 11 == 0 {
        return match d / 11 % 4 {
            0 => 0,
            1 => 1,
            2 => 40,
            _ => 532,
        };
    }
    let last = (780 + d % 51) as u32;
    if step == 0 || last < start {
        return 401;
    }
    let steps = (last - start) / step;
    steps.min(531) as usize + 1
}

// Fills the samples by the mode, a number as in the second program; only modes 3 to 6 draw for each.
fn fill(mode: u64, draws: &mut Draws, samples: &mut [u32])
    requires { length samples.old ≤ 532 }
{
    let mut d = draws.last;
    for (k, sample) in samples.iter_mut().enumerate() {
        if (3..=6).contains(&mode) {
            d = draws.draw();
        }
        *sample = sample_from(mode, d, k as u64);
    }
}

fn sample_from(mode: u64, d: u64, k: u64) -> u32
    requires { k < 532 }
{
    match mode {
        0 | 1 => 0,
        2 => 1000000,
        4 => (d % 1000) as u32,
        6 => (d % 41) as u32 * 25000,
        7 => (k * 1999 % 1000001) as u32,
        _ => (d % 1000001) as u32,
    }
}

// Puts the one sample of modes 1 and 5.
fn put_one(mode: u64, draws: &mut Draws, samples: &mut [u32]) {
    if samples.is_empty() {
        return;
    }
    if mode == 1 || mode == 5 {
        let place = draws.draw() as usize % samples.len();
        let d = draws.draw();
        samples[place] = match mode {
            1 => (d % 1000001) as u32,
            _ => 1000001 + (d % 5) as u32,
        };
    }
}

fn reflectance_from(mode: u64, sample: u32) -> u16 {
    if mode == 5 {
        (sample % 10007) as u16
    } else {
        (sample % 10001) as u16
    }
}
