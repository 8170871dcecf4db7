// What readings and panels answer, and how colour is worked from three exact sums.
#![tactic(auto)]

pub mod sums;

/// X, Y and Z: of a light in millilux, of a panel in thousandths.
#[derive(Clone, Copy, Debug, PartialEq, Eq)]
pub struct Xyz {
    pub x: u32,
    pub y: u32,
    pub z: u32,
}

/// x and y in hundred-thousandths.
#[derive(Clone, Copy, Debug, PartialEq, Eq)]
pub struct Xy {
    pub x: u32,
    pub y: u32,
}

/// u′ and v′ in hundred-thousandths.
#[derive(Clone, Copy, Debug, PartialEq, Eq)]
pub struct Uv {
    pub u: u32,
    pub v: u32,
}

/// x, y, u′ and v′ as floats, in this order.
#[derive(Clone, Copy, Debug)]
pub struct ChartPoint {
    pub x: f64,
    pub y: f64,
    pub u: f64,
    pub v: f64,
}

/// Where a light or a panel stands on the chart; a dark one has no place there, which is an answer and no lack of one.
#[derive(Clone, Copy, Debug)]
pub enum OnChart {
    Point(ChartPoint),
    Dark,
}
