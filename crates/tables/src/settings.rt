// Who looks, and under what, by the rules' numbers.
ghost use Rattle.std.specs.Prelude.{◌≡◌};
ghost use Rattle.tables.specs.Settings.{curves_of};

use crate::{Curve, Illuminant};
use grid::{Kind, Refusal};

/// Who looks: the 1931 observer of 2°, or the 1964 observer of 10°.
#[derive(Clone, Copy, Debug, PartialEq, Eq)]
pub enum Observer {
    Two,
    Ten,
}

/// An observer's three curves.
#[derive(Clone, Copy, Debug, PartialEq, Eq)]
pub struct ObserverCurves {
    pub x: Curve,
    pub y: Curve,
    pub z: Curve,
}

impl Observer {
    /// x̄, ȳ and z̄.
    pub fn curves(self) -> ObserverCurves
        ensures { result ≡ curves_of self }
    {
        match self {
            Observer::Two => ObserverCurves {
                x: Curve::XBar,
                y: Curve::YBar,
                z: Curve::ZBar,
            },
            Observer::Ten => ObserverCurves {
                x: Curve::XBar10,
                y: Curve::YBar10,
                z: Curve::ZBar10,
            },
        }
    }
}

/// 2 or 10, and OBSERVER for any other number.
impl TryFrom<u32> for Observer {
    ghost use Rattle.std.specs.Prelude.{◌≡◌};
    ghost use Rattle.tables.specs.Settings.{observer_of};

    type Error = Refusal;

    ghost try_from_gives = { λ n r. r ≡ observer_of n };

    fn try_from(number: u32) -> Result<Observer, Refusal> {
        match number {
            2 => Ok(Observer::Two),
            10 => Ok(Observer::Ten),
            _ => Err(Kind::Observer.into()),
        }
    }
}

/// 1 for A or 2 for D65, and ILLUMINANT for any other number.
impl TryFrom<u32> for Illuminant {
    ghost use Rattle.std.specs.Prelude.{◌≡◌};
    ghost use Rattle.tables.specs.Settings.{illuminant_of};

    type Error = Refusal;

    ghost try_from_gives = { λ n r. r ≡ illuminant_of n };

    fn try_from(number: u32) -> Result<Illuminant, Refusal> {
        match number {
            1 => Ok(Illuminant::A),
            2 => Ok(Illuminant::D65),
            _ => Err(Kind::Illuminant.into()),
        }
    }
}
