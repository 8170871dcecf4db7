// Reads one record from standard input and writes its report to standard output.
#![tactic(auto)]

use std::io;

fn main(rt: HostRuntime) -> io::Result<()> {
    printer::print_report(&mut rt.reader(), &mut io::writer(&rt))
}
