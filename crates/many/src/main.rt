// Prints every answer to 2,000 made inputs, a line an input. Its stdout is what second/many.py prints, from the second
// implementation; how an input is made is said there.
#![tactic(auto)]

use answers::{Uv, Xy, Xyz};
use grid::Refusal;
use made::{Draws, Input};
use std::io;

mod made;
mod records;
mod shown;

fn main(rt: HostRuntime) -> io::Result<()> {
    for i in 0..2000 {
        print!(rt; "{i}:")?;
        let mut draws = Draws::from(i + 1);
        let input = Input::from(&mut draws);
        light(&rt, &input)?;
        colour(&rt, &input)?;
        panel(&rt, &input)?;
        records::record(&rt, &input, &mut draws)?;
        print!(rt; "\n")?;
    }
    Ok(())
}

fn light(rt: &impl Print, input: &Input) -> io::Result<()> {
    let (start, step, samples) = (input.start, input.step, input.samples());
    let one = |reading: Result<u32, Refusal>| reading.map(|value| [value]);
    shown::answer(rt, one(readings::photopic(start, step, samples)))?;
    shown::answer(rt, one(readings::scotopic(start, step, samples)))?;
    shown::answer(rt, one(readings::photopic_10(start, step, samples)))?;
    shown::answer(rt, one(readings::mesopic(input.k, start, step, samples)))?;
    shown::answer(
        rt,
        one(readings::research(input.observer, start, step, samples)),
    )
}

fn colour(rt: &impl Print, input: &Input) -> io::Result<()> {
    let (observer, start, step) = (input.observer, input.start, input.step);
    let samples = input.samples();
    xyz(rt, readings::colour::xyz(observer, start, step, samples))?;
    xy(rt, readings::colour::xy(observer, start, step, samples))?;
    uv(rt, readings::colour::uv(observer, start, step, samples))?;
    shown::chart(rt, readings::colour::chart(observer, start, step, samples))?;
    print!(rt; " ")?;
    match readings::figures::figures(start, step, samples) {
        Ok(figures) => {
            let Xyz { x, y, z } = figures.xyz;
            shown::list(rt, &[figures.photopic, figures.scotopic, x, y, z])?;
            beside(rt, figures.xy)
        }
        Err(refusal) => shown::refused(rt, refusal),
    }
}

fn panel(rt: &impl Print, input: &Input) -> io::Result<()> {
    let (observer, illuminant) = (input.observer, input.illuminant);
    let (start, step, reflectances) = (input.start, input.step, input.reflectances());
    xyz(
        rt,
        panel::panel_xyz(observer, illuminant, start, step, reflectances),
    )?;
    xy(
        rt,
        panel::panel_xy(observer, illuminant, start, step, reflectances),
    )?;
    uv(
        rt,
        panel::panel_uv(observer, illuminant, start, step, reflectances),
    )?;
    shown::chart(
        rt,
        panel::panel_chart(observer, illuminant, start, step, reflectances),
    )?;
    print!(rt; " ")?;
    match panel::panel_figures(observer, illuminant, start, step, reflectances) {
        Ok(figures) => {
            let Xyz { x, y, z } = figures.xyz;
            shown::list(rt, &[x, y, z])?;
            beside(rt, figures.xy)
        }
        Err(refusal) => shown::refused(rt, refusal),
    }
}

// Each of these takes an answer of its own apart.
fn xyz(rt: &impl Print, answer: Result<Xyz, Refusal>) -> io::Result<()> {
    shown::answer(rt, answer.map(|Xyz { x, y, z }| [x, y, z]))
}

fn xy(rt: &impl Print, answer: Result<Xy, Refusal>) -> io::Result<()> {
    shown::answer(rt, answer.map(|Xy { x, y }| [x, y]))
}

fn uv(rt: &impl Print, answer: Result<Uv, Refusal>) -> io::Result<()> {
    shown::answer(rt, answer.map(|Uv { u, v }| [u, v]))
}

// x and y behind other figures; a dash for each where they are dark.
fn beside(rt: &impl Print, xy: Result<Xy, Refusal>) -> io::Result<()> {
    match xy {
        Ok(Xy { x, y }) => print!(rt; ",{x},{y}"),
        Err(_) => print!(rt; ",-,-"),
    }
}
