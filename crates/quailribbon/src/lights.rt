// The readings of a light, for C, which asks for an observer by its number.
ghost use Rattle.std.specs.Prelude.{◌≡◌};
ghost use Rattle.answers.specs.Said.{said_reading, said_xyz, said_xy, said_uv, said_chart};
ghost use Rattle.readings.specs.Readings.{photopic_of, scotopic_of, photopic10_of, mesopic_of, research_of, xyz_of, xy_of, uv_of, chart_of, figures_of};
ghost use Rattle.readings.specs.Figures.{said_figures};
ghost use Rattle.quailribbon.specs.Flat.{flat_reading, flat_xyz, flat_xy, flat_uv, flat_chart, flat_figures};

use crate::flat::{QrChart, QrFigures, QrReading, QrUv, QrXy, QrXyz};

#[unsafe(no_mangle)]
pub extern "C" fn qr_photopic(start: u32, step: u32, samples: &[u32]) -> QrReading
    ensures { result ≡ flat_reading (said_reading (photopic_of start step samples.now)) }
{
    readings::photopic(start, step, samples).into()
}

#[unsafe(no_mangle)]
pub extern "C" fn qr_scotopic(start: u32, step: u32, samples: &[u32]) -> QrReading
    ensures { result ≡ flat_reading (said_reading (scotopic_of start step samples.now)) }
{
    readings::scotopic(start, step, samples).into()
}

#[unsafe(no_mangle)]
pub extern "C" fn qr_photopic_10(start: u32, step: u32, samples: &[u32]) -> QrReading
    ensures { result ≡ flat_reading (said_reading (photopic10_of start step samples.now)) }
{
    readings::photopic_10(start, step, samples).into()
}

#[unsafe(no_mangle)]
pub extern "C" fn qr_mesopic(k: u32, start: u32, step: u32, samples: &[u32]) -> QrReading
    ensures { result ≡ flat_reading (said_reading (mesopic_of k start step samples.now)) }
{
    readings::mesopic(k, start, step, samples).into()
}

#[unsafe(no_mangle)]
pub extern "C" fn qr_research(observer: u32, start: u32, step: u32, samples: &[u32]) -> QrReading
    ensures { result ≡ flat_reading (said_reading (research_of observer start step samples.now)) }
{
    readings::research(observer, start, step, samples).into()
}

#[unsafe(no_mangle)]
pub extern "C" fn qr_xyz(observer: u32, start: u32, step: u32, samples: &[u32]) -> QrXyz
    ensures { result ≡ flat_xyz (said_xyz (xyz_of observer start step samples.now)) }
{
    readings::colour::xyz(observer, start, step, samples).into()
}

#[unsafe(no_mangle)]
pub extern "C" fn qr_xy(observer: u32, start: u32, step: u32, samples: &[u32]) -> QrXy
    ensures { result ≡ flat_xy (said_xy (xy_of observer start step samples.now)) }
{
    readings::colour::xy(observer, start, step, samples).into()
}

#[unsafe(no_mangle)]
pub extern "C" fn qr_uv(observer: u32, start: u32, step: u32, samples: &[u32]) -> QrUv
    ensures { result ≡ flat_uv (said_uv (uv_of observer start step samples.now)) }
{
    readings::colour::uv(observer, start, step, samples).into()
}

#[unsafe(no_mangle)]
pub extern "C" fn qr_chart(observer: u32, start: u32, step: u32, samples: &[u32]) -> QrChart
    ensures { result ≡ flat_chart (said_chart (chart_of observer start step samples.now)) }
{
    readings::colour::chart(observer, start, step, samples).into()
}

#[unsafe(no_mangle)]
pub extern "C" fn qr_figures(start: u32, step: u32, samples: &[u32]) -> QrFigures
    ensures { result ≡ flat_figures (said_figures (figures_of start step samples.now)) }
{
    readings::figures::figures(start, step, samples).into()
}
