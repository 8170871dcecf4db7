// The three sums of a panel, or its first refusal. It differs from a light in what is asked, refused and summed by, not in a type
// alone, so the two are written out.
ghost use Rattle.std.specs.Prelude.{◌≡◌};
ghost use Rattle.panel.specs.Panel.{seen_of, panel_sums, sums_of};

use crate::Panel;
use answers::sums::Sums;
use curves::lit::{light, weigh_lit};
use grid::Refusal;
use tables::Illuminant;
use tables::settings::Observer;

/// The sums by an observer's three curves, under an illuminant.
#[tactic(auto, using(crate::proofs::Rows::row_small))]
pub fn panel_sums(observer: Observer, illuminant: Illuminant, panel: &Panel) -> Sums
    ensures { result ≡ panel_sums observer illuminant panel.now.start panel.now.step panel.now.samples }
{
    let mut high = [0u64; 471];
    let mut low = [0u64; 471];
    panel.lay(&mut low);
    light(illuminant, &mut high, &mut low);
    let curves = observer.curves();
    Sums::new(
        weigh_lit(curves.x, &high, &low),
        weigh_lit(curves.y, &high, &low),
        weigh_lit(curves.z, &high, &low),
    )
}

/// An observer, an illuminant and a panel: OBSERVER, ILLUMINANT, STEP, START, COUNT, REFLECTANCE.
#[tactic(auto, unfolding(crate::specs::Panel::seen_of))]
pub fn seen(
    observer: u32,
    illuminant: u32,
    start: u32,
    step: u32,
    reflectances: &[u16],
) -> Result<(Observer, Illuminant, Panel), Refusal>
    ensures { result ≡ seen_of observer illuminant start step reflectances.now }
{
    let observer = Observer::try_from(observer)?;
    let illuminant = Illuminant::try_from(illuminant)?;
    let panel = Panel::new(start, step, reflectances)?;
    Ok((observer, illuminant, panel))
}

/// The three sums that are seen.
#[tactic(auto, unfolding(crate::specs::Panel::sums_of))]
pub fn sums(
    observer: u32,
    illuminant: u32,
    start: u32,
    step: u32,
    reflectances: &[u16],
) -> Result<Sums, Refusal>
    ensures { result ≡ sums_of observer illuminant start step reflectances.now }
{
    let (observer, illuminant, panel) = seen(observer, illuminant, start, step, reflectances)?;
    Ok(panel_sums(observer, illuminant, &panel))
}
