// Writes the report of each record of data/, below its name.
#![tactic(auto)]

use arrayvec::ArrayString;
use std::fmt::Write;
use std::rt::Files;
use std::{fs, io};

fn main(rt: HostRuntime) -> io::Result<()> {
    let names = [
        "dark", "largest", "longest", "start", "count", "sample", "edition", "reserved", "padding",
        "empty", "short", "cut", "overlong", "unending",
    ];
    for name in names {
        print_named(&rt, name)?;
    }
    Ok(())
}

fn print_named<R: Files + Print + Eprint>(rt: &R, name: &str) -> io::Result<()> {
    println!(rt; "{name}")?;
    match fs::open(rt, name) {
        Ok(mut from) => printer::print_report(&mut from, &mut io::writer(rt)),
        Err(error) => print_failure(rt, name, error),
    }
}

// Says what can't be opened and why. What the system says of it is shorter than the text has room for.
fn print_failure<R: Eprint>(rt: &R, name: &str, error: io::Error) -> io::Result<()> {
    let mut said = ArrayString::<128>::new();
    let _ = write!(said, "{error}");
    let words = words_of(said.as_str());
    eprintln!(rt; "{name}: {words}")
}

// The system's words alone: `std` puts the error's number in brackets behind them.
fn words_of(said: &str) -> &str {
    match said.split_once(" (os error ") {
        Some((words, _)) => words,
        None => said,
    }
}

#[cfg(test)]
mod tests {
    use super::*;
    use std::test::Fail;

    #[test]
    fn a_missing_record_ends_nothing(rt: HostRuntime) -> Result<(), Fail> {
        print_named(&rt, "missing")?;
        Ok(())
    }

    #[test]
    fn the_number_is_cut_off(rt: HostRuntime) -> Result<(), Fail> {
        assert_eq!(rt;
            words_of("No such file or directory (os error 2)"),
            "No such file or directory"
        );
        assert_eq!(rt;
            words_of("No such file or directory"),
            "No such file or directory"
        );
        Ok(())
    }
}
