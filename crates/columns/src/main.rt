// Prints, as a page of docs/, each place where the x, y columns of document 002 are not those of single-wavelength light.
#![tactic(auto)]

ghost use Rattle.std.specs.Prelude.{◌<◌};

use answers::Xy;
use printed::{X, X_10, Y, Y_10};
use std::io;

mod printed;

fn main(rt: HostRuntime) -> io::Result<()> {
    print!(rt; "# The printed x, y columns of document 002\n\n")?;
    print!(rt;
        "Light of a single wavelength, 1,000,000 at it and 0 elsewhere, has the coordinates that document 002 prints, or nearly:\n"
    )?;
    print!(rt;
        "the printed columns are adjusted in places. Each place where a printed number is not ours is listed. The program\n"
    )?;
    print!(rt; "`columns` makes this page.\n")?;
    print!(rt; "\n## Gaps of more than one unit\n\n")?;
    both_observers(
        &rt,
        Apart {
            least: 2,
            most: 100000,
        },
    )?;
    print!(rt; "\n## Gaps of one unit\n\n")?;
    both_observers(&rt, Apart { least: 1, most: 1 })
}

// How far apart a printed number and ours are, to be listed.
#[derive(Clone, Copy)]
struct Apart {
    least: u32,
    most: u32,
}

// The gaps in a range, of both observers, by the numbers that readings take and the page prints.
fn both_observers(rt: &impl Print, apart: Apart) -> io::Result<()> {
    print!(rt; "| observer | nm | coordinate | printed | ours |\n|---|---|---|---|---|\n")?;
    rows(rt, 2, &X, &Y, apart)?;
    rows(rt, 10, &X_10, &Y_10, apart)
}

fn rows(
    rt: &impl Print,
    observer: u32,
    xs: &[u32; 471],
    ys: &[u32; 471],
    apart: Apart,
) -> io::Result<()> {
    for (k, (&x, &y)) in xs.iter().zip(ys).enumerate() {
        row(rt, observer, k, Xy { x, y }, apart)?;
    }
    Ok(())
}

// The gaps of light at one place alone.
fn row(rt: &impl Print, observer: u32, k: usize, printed: Xy, apart: Apart) -> io::Result<()>
    requires { k < 471 }
{
    let mut samples = [0u32; 471];
    samples[k] = 1000000;
    match readings::colour::xy(observer, 360, 1, &samples) {
        Ok(ours) => {
            gap(rt, observer, k, "x", printed.x, ours.x, apart)?;
            gap(rt, observer, k, "y", printed.y, ours.y, apart)
        }
        Err(_) => print!(rt; "refused\n"),
    }
}

// A line where the printed number and ours lie so far apart.
fn gap(
    rt: &impl Print,
    observer: u32,
    k: usize,
    name: &str,
    printed: u32,
    ours: u32,
    apart: Apart,
) -> io::Result<()>
    requires { k < 471 }
{
    let gap = printed.abs_diff(ours);
    if gap < apart.least || apart.most < gap {
        return Ok(());
    }
    let wavelength = 360 + k;
    print!(rt; "| {observer} | {wavelength} | {name} | {printed} | {ours} |\n")
}
