// Each kind of answer as it is printed: its values with commas between, or !number@place.
use answers::OnChart;
use grid::Refusal;
use std::fmt::Display;
use std::io;
use std::num::f64_to_bits_with_nan;

/// An answer of so many values, behind a space.
pub(crate) fn answer<const N: usize>(
    rt: &impl Print,
    answer: Result<[u32; N], Refusal>,
) -> io::Result<()> {
    print!(rt; " ")?;
    match answer {
        Ok(values) => list(rt, &values),
        Err(refusal) => refused(rt, refusal),
    }
}

/// Where a light or a panel stands on the chart: the 64 bits of each coordinate, as a number.
pub(crate) fn chart(rt: &impl Print, answer: Result<OnChart, Refusal>) -> io::Result<()> {
    print!(rt; " ")?;
    match answer {
        Ok(OnChart::Point(point)) => list(
            rt,
            &[
                f64_to_bits_with_nan(point.x),
                f64_to_bits_with_nan(point.y),
                f64_to_bits_with_nan(point.u),
                f64_to_bits_with_nan(point.v),
            ],
        ),
        Ok(OnChart::Dark) => print!(rt; "dark"),
        Err(refusal) => refused(rt, refusal),
    }
}

/// A refusal.
pub(crate) fn refused(rt: &impl Print, refusal: Refusal) -> io::Result<()> {
    let number = refusal.number();
    let place = refusal.place;
    print!(rt; "!{number}@{place}")
}

/// Values with commas between.
pub(crate) fn list<T: Display + Copy>(rt: &impl Print, values: &[T]) -> io::Result<()> {
    for (i, value) in values.iter().enumerate() {
        if 0 < i {
            print!(rt; ",")?;
        }
        let value = *value;
        print!(rt; "{value}")?;
    }
    Ok(())
}
