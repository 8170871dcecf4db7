// Three exact sums, and what is worked from them: each figure divides once, at the end.
ghost use Rattle.std.specs.Prelude.{◌≡◌, ◌*◌, ◌^◌, ◌<◌, ◌≤◌};
ghost use Rattle.answers.specs.Sums.{XyzFit};
ghost use Rattle.answers.specs.Worked.{in_hundred_thousandths, xyz_from, xy_from, uv_divisor, uv_over, uv_from, chart_from, chart_point, coordinate_float};

use crate::{ChartPoint, OnChart, Uv, Xy, Xyz};
use exact::nearest;
use grid::{Kind, Refusal, require};
use std::marker::Model;

/// The sums by an observer's three curves, each at most 2^96.
#[derive(Clone, Copy)]
pub struct Sums {
    x: u128,
    y: u128,
    z: u128,
}

impl Model for Sums {
    ghost use Rattle.answers.specs.Sums.{Three, Short};

    ghost Value = { Three };

    ghost view = { λ s. record { x = s.x; y = s.y; z = s.z } };

    ghost invariant = { λ s. Short (record { x = s.x; y = s.y; z = s.z }) };

    ghost inverse = { λ t. record { x = t.x; y = t.y; z = t.z } };
}

impl Sums {
    pub fn new(x: u128, y: u128, z: u128) -> Sums
        requires x { x ≤ 2 ^ 96 }
        requires y { y ≤ 2 ^ 96 }
        requires z { z ≤ 2 ^ 96 }
        ensures { result ≡ record { x = x; y = y; z = z } }
    {
        Sums { x, y, z }
    }

    /// X, Y and Z, each a factor times its sum, over a divisor.
    pub fn xyz(self, factor: u32, divisor: u128) -> Xyz
        requires { XyzFit (factor * self.x) (factor * self.y) (factor * self.z) divisor }
        ensures { result ≡ xyz_from (factor * self.x) (factor * self.y) (factor * self.z) divisor }
    {
        let factor = factor as u128;
        Xyz {
            x: nearest(factor * self.x, divisor),
            y: nearest(factor * self.y, divisor),
            z: nearest(factor * self.z, divisor),
        }
    }

    /// x and y, or DARK.
    #[tactic(auto, unfolding(crate::specs::Worked::xy_from))]
    pub fn xy(self) -> Result<Xy, Refusal>
        ensures { result ≡ xy_from self.x self.y self.z }
    {
        let total = self.x + self.y + self.z;
        require(0 < total, Kind::Dark)?;
        Ok(Xy {
            x: coordinate(self.x, total),
            y: coordinate(self.y, total),
        })
    }

    /// u′ and v′, the coordinates of the 1976 UCS diagram, or DARK.
    #[tactic(auto, unfolding(crate::specs::Worked::uv_from))]
    pub fn uv(self) -> Result<Uv, Refusal>
        ensures { result ≡ uv_from self.x self.y self.z }
    {
        require(0 < self.uv_divisor(), Kind::Dark)?;
        Ok(self.uv_over())
    }

    /// The chart's point, all four coordinates from one set of sums; dark where x and y are refused.
    #[tactic(auto, unfolding(crate::specs::Worked::xy_from, crate::specs::Worked::on_chart))]
    pub fn chart(self) -> OnChart
        ensures { result ≡ chart_from self.x self.y self.z }
    {
        match self.xy() {
            Ok(xy) => OnChart::Point(chart_point(xy, self.uv_over())),
            Err(_) => OnChart::Dark,
        }
    }

    // X + 15 Y + 3 Z.
    fn uv_divisor(self) -> u128
        ensures { result ≡ uv_divisor self.x self.y self.z }
    {
        self.x + 15 * self.y + 3 * self.z
    }

    // 4 X and 9 Y over that divisor.
    fn uv_over(self) -> Uv
        requires { 0 < uv_divisor self.x self.y self.z }
        ensures { result ≡ uv_over self.x self.y self.z }
    {
        let divisor = self.uv_divisor();
        Uv {
            u: coordinate(4 * self.x, divisor),
            v: coordinate(9 * self.y, divisor),
        }
    }
}

// A fraction in hundred-thousandths. None is above 4: x and y are at most 1, u′ at most 4, and v′ at most 9/15.
#[tactic(auto, using(crate::proofs::Fit::coordinate_fits))]
fn coordinate(numerator: u128, divisor: u128) -> u32
    requires some { 0 < divisor }
    requires most { numerator ≤ 4 * divisor }
    requires short { divisor ≤ 19 * 2 ^ 96 }
    ensures { result ≡ in_hundred_thousandths numerator divisor }
{
    nearest(100000 * numerator, divisor)
}

fn chart_point(xy: Xy, uv: Uv) -> ChartPoint
    ensures { result ≡ chart_point xy uv }
{
    ChartPoint {
        x: coordinate_float(xy.x),
        y: coordinate_float(xy.y),
        u: coordinate_float(uv.u),
        v: coordinate_float(uv.v),
    }
}

// So many hundred-thousandths as a float: made a float exactly, and divided once.
fn coordinate_float(n: u32) -> f64
    ensures { result ≡ coordinate_float n }
{
    n as f64 / 100000.0
}
