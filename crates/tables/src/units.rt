// A curve's table as the code holds it: counted in units. Its places are cut into four stretches, and in each of them every
// entry is a whole number of one power of ten that fits 32 bits. A table that needs fewer stretches has empty ones at its end.

/// The places below its end, from where the stretch before it ends, and the unit of their entries.
#[derive(Clone, Copy, Debug)]
pub struct Stretch {
    pub end: usize,
    pub unit: u32,
}

/// A table's stretches, and its entries from 360 to 830 nm, each counted in the unit of its stretch.
#[derive(Clone, Copy)]
pub struct Table {
    pub stretches: &'static [Stretch; 4],
    pub counts: &'static [u64; 471],
}
