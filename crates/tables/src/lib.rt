// The CIE tables from 360 to 830 nm: which there are, and who and what they are asked for by.
#![tactic(auto)]

pub mod numbers;
pub mod promises;
pub mod settings;
pub mod units;

ghost use Rattle.std.specs.Prelude.{◌≡◌};
ghost use Rattle.tables.specs.Tables.{powers};
ghost use Rattle.tables.specs.Columns.{units};
ghost use Rattle.tables.specs.Held.{in_units};

use crate::numbers::*;
use crate::units::Table;

/// What light is weighed by: V is ȳ, and V10 is ȳ10. VF and VF10 are the cone-fundamental curves of 2° and 10°.
#[derive(Clone, Copy, Debug, PartialEq, Eq)]
pub enum Curve {
    XBar,
    YBar,
    ZBar,
    XBar10,
    YBar10,
    ZBar10,
    VPrime,
    VF,
    VF10,
}

impl Curve {
    /// Its table, in units: read in place, since a copy would take longer than a sum. Each arm names two statics, so that what is
    /// chosen is shown by computing.
    pub fn table(self) -> Table
        ensures stretches { result.stretches.now ≡ units self }
        ensures counts { result.counts.now ≡ in_units self }
    {
        match self {
            Curve::XBar => Table {
                stretches: &X_BAR_STRETCHES,
                counts: &X_BAR,
            },
            Curve::YBar => Table {
                stretches: &Y_BAR_STRETCHES,
                counts: &Y_BAR,
            },
            Curve::ZBar => Table {
                stretches: &Z_BAR_STRETCHES,
                counts: &Z_BAR,
            },
            Curve::XBar10 => Table {
                stretches: &X_BAR_10_STRETCHES,
                counts: &X_BAR_10,
            },
            Curve::YBar10 => Table {
                stretches: &Y_BAR_10_STRETCHES,
                counts: &Y_BAR_10,
            },
            Curve::ZBar10 => Table {
                stretches: &Z_BAR_10_STRETCHES,
                counts: &Z_BAR_10,
            },
            Curve::VPrime => Table {
                stretches: &V_PRIME_STRETCHES,
                counts: &V_PRIME,
            },
            Curve::VF => Table {
                stretches: &V_F_STRETCHES,
                counts: &V_F,
            },
            Curve::VF10 => Table {
                stretches: &V_F_10_STRETCHES,
                counts: &V_F_10,
            },
        }
    }
}

/// What a panel is seen under.
#[derive(Clone, Copy, Debug, PartialEq, Eq)]
pub enum Illuminant {
    A,
    D65,
}

impl Illuminant {
    /// Its whole table, at 10^5 to one.
    #[tactic(auto, unfolding(crate::specs::Tables::powers))]
    pub fn powers(self) -> &'static [u32; 471]
        ensures { result.now ≡ powers self }
    {
        match self {
            Illuminant::A => &ILLUMINANT_A,
            Illuminant::D65 => &ILLUMINANT_D65,
        }
    }
}
