// Panel colour: X, Y, Z, the coordinates x, y and u′, v′, and the chart's point of a panel under an illuminant.
// Observer and illuminant are asked for by number, as `readings` does.
#![tactic(auto)]

mod sums;
mod white;

ghost use Rattle.std.specs.Prelude.{◌≡◌};
ghost use Rattle.panel.specs.Panel.{panel_sums, panel_xyz, panel_xyz_of, panel_xy_of, panel_uv_of, panel_chart_of};
ghost use Rattle.panel.specs.Figures.{panel_figures_of};

use crate::sums::{panel_sums, seen, sums};
use crate::white::divisor;
use answers::sums::Sums;
use answers::{OnChart, Uv, Xy, Xyz};
use grid::Refusal;
use spectrum::Spectrum;
use tables::Illuminant;
use tables::settings::Observer;

/// A panel's reflectances, whose refusals are behind them.
pub type Panel<'a> = Spectrum<'a, u16>;

/// X, Y and Z in thousandths, where Y of a white panel is 100000: OBSERVER, ILLUMINANT, STEP, START, COUNT, REFLECTANCE.
#[tactic(auto, unfolding(crate::specs::Panel::panel_xyz_of))]
pub fn panel_xyz(
    observer: u32,
    illuminant: u32,
    start: u32,
    step: u32,
    reflectances: &[u16],
) -> Result<Xyz, Refusal>
    ensures { result ≡ panel_xyz_of observer illuminant start step reflectances.now }
{
    let (observer, illuminant, panel) = seen(observer, illuminant, start, step, reflectances)?;
    let sums = panel_sums(observer, illuminant, &panel);
    Ok(xyz(observer, illuminant, &panel, sums))
}

// X, Y and Z of a panel from its sums.
#[tactic(auto, using(crate::proofs::Sized::xyz_fit))]
fn xyz(observer: Observer, illuminant: Illuminant, panel: &Panel, sums: Sums) -> Xyz
    requires { sums ≡ panel_sums observer illuminant panel.now.start panel.now.step panel.now.samples }
    ensures { result ≡ panel_xyz observer illuminant panel.now.start panel.now.step panel.now.samples }
{
    sums.xyz(10, divisor(observer, illuminant, panel.step()))
}

/// x and y in hundred-thousandths: OBSERVER, ILLUMINANT, STEP, START, COUNT, REFLECTANCE, DARK.
#[tactic(auto, unfolding(crate::specs::Panel::panel_xy_of))]
pub fn panel_xy(
    observer: u32,
    illuminant: u32,
    start: u32,
    step: u32,
    reflectances: &[u16],
) -> Result<Xy, Refusal>
    ensures { result ≡ panel_xy_of observer illuminant start step reflectances.now }
{
    sums(observer, illuminant, start, step, reflectances)?.xy()
}

/// u′ and v′ in hundred-thousandths: OBSERVER, ILLUMINANT, STEP, START, COUNT, REFLECTANCE, DARK.
#[tactic(auto, unfolding(crate::specs::Panel::panel_uv_of))]
pub fn panel_uv(
    observer: u32,
    illuminant: u32,
    start: u32,
    step: u32,
    reflectances: &[u16],
) -> Result<Uv, Refusal>
    ensures { result ≡ panel_uv_of observer illuminant start step reflectances.now }
{
    sums(observer, illuminant, start, step, reflectances)?.uv()
}

/// The chart's point, or dark: OBSERVER, ILLUMINANT, STEP, START, COUNT, REFLECTANCE.
#[tactic(auto, unfolding(crate::specs::Panel::panel_chart_of))]
pub fn panel_chart(
    observer: u32,
    illuminant: u32,
    start: u32,
    step: u32,
    reflectances: &[u16],
) -> Result<OnChart, Refusal>
    ensures { result ≡ panel_chart_of observer illuminant start step reflectances.now }
{
    Ok(sums(observer, illuminant, start, step, reflectances)?.chart())
}

/// A panel's X, Y, Z and x, y, which may be refused as dark.
#[derive(Clone, Copy, Debug, PartialEq, Eq)]
pub struct PanelFigures {
    pub xyz: Xyz,
    pub xy: Result<Xy, Refusal>,
}

/// Both in one call, where each sum is made once: OBSERVER, ILLUMINANT, STEP, START, COUNT, REFLECTANCE.
#[tactic(auto, unfolding(crate::specs::Figures::panel_figures_of))]
pub fn panel_figures(
    observer: u32,
    illuminant: u32,
    start: u32,
    step: u32,
    reflectances: &[u16],
) -> Result<PanelFigures, Refusal>
    ensures { result ≡ panel_figures_of observer illuminant start step reflectances.now }
{
    let (observer, illuminant, panel) = seen(observer, illuminant, start, step, reflectances)?;
    let sums = panel_sums(observer, illuminant, &panel);
    Ok(PanelFigures {
        xyz: xyz(observer, illuminant, &panel, sums),
        xy: sums.xy(),
    })
}
