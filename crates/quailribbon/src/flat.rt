// Flat answers, by value, since C has no Result: number 0 means that the values are given, but for those that have a number of
// their own beside them (x and y of the figures); else it is the refusal's, and what is not given is 0.

/// A reading.
#[repr(C)]
#[derive(Clone, Copy, Debug, Default)]
pub struct QrReading {
    pub number: u32,
    pub place: u32,
    pub value: u32,
}

/// X, Y and Z.
#[repr(C)]
#[derive(Clone, Copy, Debug, Default)]
pub struct QrXyz {
    pub number: u32,
    pub place: u32,
    pub x: u32,
    pub y: u32,
    pub z: u32,
}

/// x and y.
#[repr(C)]
#[derive(Clone, Copy, Debug, Default)]
pub struct QrXy {
    pub number: u32,
    pub place: u32,
    pub x: u32,
    pub y: u32,
}

/// u′ and v′.
#[repr(C)]
#[derive(Clone, Copy, Debug, Default)]
pub struct QrUv {
    pub number: u32,
    pub place: u32,
    pub u: u32,
    pub v: u32,
}

/// The chart's point.
#[repr(C)]
#[derive(Clone, Copy, Debug, Default)]
pub struct QrChart {
    pub number: u32,
    pub place: u32,
    pub x: f64,
    pub y: f64,
    pub u: f64,
    pub v: f64,
}

/// The figures of the report.
#[repr(C)]
#[derive(Clone, Copy, Debug, Default)]
pub struct QrFigures {
    pub number: u32,
    pub place: u32,
    pub photopic: u32,
    pub scotopic: u32,
    pub xyz_x: u32,
    pub xyz_y: u32,
    pub xyz_z: u32,
    pub xy_number: u32,
    pub x: u32,
    pub y: u32,
}

/// A panel's X, Y, Z and x, y.
#[repr(C)]
#[derive(Clone, Copy, Debug, Default)]
pub struct QrPanelFigures {
    pub number: u32,
    pub place: u32,
    pub xyz_x: u32,
    pub xyz_y: u32,
    pub xyz_z: u32,
    pub xy_number: u32,
    pub x: u32,
    pub y: u32,
}

/// What a record's header says.
#[repr(C)]
#[derive(Clone, Copy, Debug, Default)]
pub struct QrRecord {
    pub number: u32,
    pub place: u32,
    pub start: u32,
    pub step: u32,
    pub count: u32,
}

/// How much was written.
#[repr(C)]
#[derive(Clone, Copy, Debug, Default)]
pub struct QrWritten {
    pub number: u32,
    pub place: u32,
    pub length: u32,
}
