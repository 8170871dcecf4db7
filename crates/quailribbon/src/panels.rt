// The colour of a panel, for C, which asks for observer and illuminant by their numbers.
ghost use Rattle.std.specs.Prelude.{◌≡◌};
ghost use Rattle.answers.specs.Said.{said_xyz, said_xy, said_uv, said_chart};
ghost use Rattle.panel.specs.Panel.{panel_xyz_of, panel_xy_of, panel_uv_of, panel_chart_of};
ghost use Rattle.panel.specs.Figures.{panel_figures_of, said_panel_figures};
ghost use Rattle.quailribbon.specs.Flat.{flat_xyz, flat_xy, flat_uv, flat_chart, flat_panel_figures};

use crate::flat::{QrChart, QrPanelFigures, QrUv, QrXy, QrXyz};

#[unsafe(no_mangle)]
pub extern "C" fn qr_panel_xyz(
    observer: u32,
    illuminant: u32,
    start: u32,
    step: u32,
    reflectances: &[u16],
) -> QrXyz
    ensures { result ≡ flat_xyz (said_xyz (panel_xyz_of observer illuminant start step reflectances.now)) }
{
    panel::panel_xyz(observer, illuminant, start, step, reflectances).into()
}

#[unsafe(no_mangle)]
pub extern "C" fn qr_panel_xy(
    observer: u32,
    illuminant: u32,
    start: u32,
    step: u32,
    reflectances: &[u16],
) -> QrXy
    ensures { result ≡ flat_xy (said_xy (panel_xy_of observer illuminant start step reflectances.now)) }
{
    panel::panel_xy(observer, illuminant, start, step, reflectances).into()
}

#[unsafe(no_mangle)]
pub extern "C" fn qr_panel_uv(
    observer: u32,
    illuminant: u32,
    start: u32,
    step: u32,
    reflectances: &[u16],
) -> QrUv
    ensures { result ≡ flat_uv (said_uv (panel_uv_of observer illuminant start step reflectances.now)) }
{
    panel::panel_uv(observer, illuminant, start, step, reflectances).into()
}

#[unsafe(no_mangle)]
pub extern "C" fn qr_panel_chart(
    observer: u32,
    illuminant: u32,
    start: u32,
    step: u32,
    reflectances: &[u16],
) -> QrChart
    ensures { result ≡ flat_chart (said_chart (panel_chart_of observer illuminant start step reflectances.now)) }
{
    panel::panel_chart(observer, illuminant, start, step, reflectances).into()
}

#[unsafe(no_mangle)]
pub extern "C" fn qr_panel_figures(
    observer: u32,
    illuminant: u32,
    start: u32,
    step: u32,
    reflectances: &[u16],
) -> QrPanelFigures
    ensures { result ≡ flat_panel_figures (said_panel_figures (panel_figures_of observer illuminant start step reflectances.now)) }
{
    panel::panel_figures(observer, illuminant, start, step, reflectances).into()
}
